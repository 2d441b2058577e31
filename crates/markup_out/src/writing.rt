//! The markup of a row.
ghost use Rattle.std.specs.Prelude.{◌≡◌, ◌<◌, ◌≤◌, length, string_bytes, encode_utf8_all, IfOk, OnOk, IfErr};
ghost use Rattle.std.specs.Str.{chars};
ghost use Rattle.markup_out.specs.inner.Adding.{Adds};
ghost use Rattle.markup_out.specs.Markup as spec;

use crate::output::Output;
use crate::tags::{push_after, push_before};
use doc_model::Tree;
use std::alloc::Global;
use text_base::NoMemory;

/// Why there is no markup: it has more bytes than were allowed, or no memory was found.
#[derive(Clone, Copy, Debug, PartialEq, Eq)]
pub enum TooLarge {
    Limit,
    Memory,
}

/// Writes the markup of a row. It goes from row to row, and `owner` is the row whose content is being written.
fn push_row<T: Tree>(tree: &T, i: u32, back: bool, out: &mut Output) -> Result<(), NoMemory>
    requires { i < length (T.document tree.now) }
    ensures { OnOk result (Adds out.old out.new (spec.styled back (T.document tree.now) i)) }
{
    let mut owner = i;
    let mut end = tree.end(i);
    let mut y = push_before(tree, i, back, out)?;
    'rows: loop {
        if out.is_over() {
            return Ok(());
        }
        if y < end {
            owner = y;
            end = tree.end(y);
            y = push_before(tree, y, back, out)?;
        } else {
            push_after(tree, owner, out)?;
            if owner == i {
                return Ok(());
            }
            owner = tree.parent(owner);
            end = tree.end(owner);
        }
    }
}

/// The markup of the row, of at most `limit` bytes: of an element its tags and what is between them, of the root node
/// the markup of its children, of an attribute its value. Where that has more bytes, it is `Limit`. HTML, section 13.3.
pub fn markup<T: Tree>(alloc: Global, tree: &T, i: u32, limit: usize) -> Result<String, TooLarge>
    requires { i < length (T.document tree.now) }
    ensures chars { IfOk result (λ s. chars (string_bytes s) ≡ spec.markup (T.document tree.now) i) }
    ensures bytes { IfOk result (λ s. string_bytes s ≡ encode_utf8_all (spec.markup (T.document tree.now) i)) }
    ensures within { OnOk result (length (encode_utf8_all (spec.markup (T.document tree.now) i)) ≤ limit) }
    ensures limit { IfErr result (λ e. e ≡ TooLarge.Limit → limit < length (encode_utf8_all (spec.markup (T.document tree.now) i))) }
{
    styled(alloc, tree, i, false, limit)
}

/// The markup of the document, so that HTML reads it back, of at most `limit` bytes.
pub fn canonical<T: Tree>(alloc: Global, tree: &T, limit: usize) -> Result<String, TooLarge>
    ensures chars { IfOk result (λ s. chars (string_bytes s) ≡ spec.canonical (T.document tree.now)) }
    ensures bytes { IfOk result (λ s. string_bytes s ≡ encode_utf8_all (spec.canonical (T.document tree.now))) }
    ensures within { OnOk result (length (encode_utf8_all (spec.canonical (T.document tree.now))) ≤ limit) }
    ensures limit { IfErr result (λ e. e ≡ TooLarge.Limit → limit < length (encode_utf8_all (spec.canonical (T.document tree.now)))) }
{
    styled(alloc, tree, 0, true, limit)
}

fn styled<T: Tree>(
    alloc: Global,
    tree: &T,
    i: u32,
    back: bool,
    limit: usize,
) -> Result<String, TooLarge>
    requires { i < length (T.document tree.now) }
    ensures chars { IfOk result (λ s. chars (string_bytes s) ≡ spec.styled back (T.document tree.now) i) }
    ensures bytes { IfOk result (λ s. string_bytes s ≡ encode_utf8_all (spec.styled back (T.document tree.now) i)) }
    ensures within { OnOk result (length (encode_utf8_all (spec.styled back (T.document tree.now) i)) ≤ limit) }
    ensures limit { IfErr result (λ e. e ≡ TooLarge.Limit → limit < length (encode_utf8_all (spec.styled back (T.document tree.now) i))) }
{
    let mut out = Output::new(alloc, limit);
    match push_row(tree, i, back, &mut out) {
        Err(_) => Err(TooLarge::Memory),
        Ok(()) => match out.finish() {
            None => Err(TooLarge::Limit),
            Some(text) => {
                let _read = text.as_str();
                Ok(text)
            }
        },
    }
}
