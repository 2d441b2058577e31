//! The steps of a small page, and the document of them.
ghost use Rattle.std.specs.Prelude.{◌≡◌, ◌+◌, ◌<◌, ◌≤◌, length, OnOk};
ghost use Rattle.doc_model.specs.Growing.{AwaitsText};

use doc_model::{Grow, Piece, VecGrow, VecTree};
use std::alloc::Global;
use text_base::NoMemory;

/// A part of a page: a start tag with at most one attribute and the text behind it, a comment or an end tag.
#[derive(Clone, Copy)]
pub enum Step {
    /// The element's name, the name and the value of its attribute, where the name is not empty, and the text behind the start
    /// tag, where it is not empty.
    Start(&'static str, &'static str, &'static str, &'static str),
    /// The text of a comment.
    Comment(&'static str),
    /// The end tag of the innermost element.
    End,
}

/// An element with an attribute, where it has a name.
fn start_tag(
    grow: &mut VecGrow,
    name: &'static str,
    attr: &'static str,
    value: &'static str,
) -> Result<(), NoMemory>
    requires { length (⟦<VecGrow as Grow<'static>>⟧.growing grow.old).rows < 10000 }
    ensures awaits { OnOk result (AwaitsText (⟦<VecGrow as Grow<'static>>⟧.growing grow.new)) }
    ensures rows { OnOk result (length (⟦<VecGrow as Grow<'static>>⟧.growing grow.new).rows ≤ length (⟦<VecGrow as Grow<'static>>⟧.growing grow.old).rows + 2) }
    ensures open_rows { OnOk result (length (⟦<VecGrow as Grow<'static>>⟧.growing grow.new).open_rows ≡ length (⟦<VecGrow as Grow<'static>>⟧.growing grow.old).open_rows + 1) }
{
    if name.is_empty() {
        return Err(NoMemory);
    }
    grow.element(Piece::Page(name))?;
    if attr.is_empty() {
        return Ok(());
    }
    grow.attr(Piece::Made(attr), Piece::Page(value))
}

/// An element as above, with the text behind its start tag, where it is not empty.
fn start(
    grow: &mut VecGrow,
    name: &'static str,
    attr: &'static str,
    value: &'static str,
    text: &'static str,
) -> Result<(), NoMemory>
    requires { length (⟦<VecGrow as Grow<'static>>⟧.growing grow.old).rows < 10000 }
    ensures rows { OnOk result (length (⟦<VecGrow as Grow<'static>>⟧.growing grow.new).rows ≤ length (⟦<VecGrow as Grow<'static>>⟧.growing grow.old).rows + 3) }
    ensures open_rows { OnOk result (length (⟦<VecGrow as Grow<'static>>⟧.growing grow.new).open_rows ≡ length (⟦<VecGrow as Grow<'static>>⟧.growing grow.old).open_rows + 1) }
{
    start_tag(grow, name, attr, value)?;
    if text.is_empty() {
        return Ok(());
    }
    grow.text(Piece::Page(text))
}

/// The document of the steps, of which there are less than 3,000.
fn build(alloc: Global, steps: &[Step]) -> Result<VecTree, NoMemory>
    requires { length steps.now < 3000 }
{
    let mut grow = VecGrow::new(alloc);
    let mut depth = 0u32;
    for step in steps {
        match *step {
            Step::Start(name, attr, value, text) => {
                start(&mut grow, name, attr, value, text)?;
                depth += 1;
            }
            Step::Comment(text) => grow.comment(Piece::Page(text))?,
            Step::End => {
                if depth == 0 {
                    return Err(NoMemory);
                }
                grow.close();
                depth -= 1;
            }
        }
    }
    if depth > 0 {
        return Err(NoMemory);
    }
    grow.finish()
}

/// The document of the steps: the root node is row 0, and each step but an end tag makes the rows of its element, its attribute
/// and its text, or of its comment. Steps whose end tags do not fit their start tags, an element without a name, and 3,000 steps
/// or more answer `NoMemory` too.
pub fn tree_of(alloc: Global, steps: &[Step]) -> Result<VecTree, NoMemory> {
    if steps.len() >= 3000 {
        return Err(NoMemory);
    }
    build(alloc, steps)
}
