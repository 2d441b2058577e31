//! Positions of an element among its siblings, counted by a walk from sibling to sibling. Selectors
//! Level 3, section 6.6.5.
ghost use Rattle.std.specs.Prelude.{◌≡◌, ◌<◌, length, if◌then◌else◌};
ghost use Rattle.std.specs.Str.{bytes_eq};
ghost use Rattle.doc_model.specs.Document.{row, is_element};
ghost use Rattle.css_meaning.specs.inner.SiblingWalks.{is_like, is_by_name, IsBehind, IsSpan};
ghost use Rattle.css_meaning.specs.Siblings.{is_sibling, is_of_type, is_only};
ghost use Rattle.css_meaning.specs.Siblings as spec;

use css_selectors::Nth;
use doc_model::{Tree, is_element};

/// The rows from one on and before another.
#[derive(Clone, Copy)]
struct Span {
    from: u32,
    to: u32,
}

/// Whether `y` is an element with the parent of `e`.
pub fn is_sibling<T: Tree>(tree: &T, e: u32, y: u32) -> bool
    requires row { e < length (T.document tree.now) }
    requires other { y < length (T.document tree.now) }
    ensures { result ≡ is_sibling (T.document tree.now) e y }
{
    is_element(tree, y) && y > 0 && tree.parent(y) == tree.parent(e)
}

fn has_name_of<T: Tree>(tree: &T, e: u32, y: u32) -> bool
    requires row { e < length (T.document tree.now) }
    requires other { y < length (T.document tree.now) }
    ensures { result ≡ bytes_eq (row (T.document tree.now) y).name (row (T.document tree.now) e).name }
{
    tree.name(y) == tree.name(e)
}

/// Whether `y` is a sibling of `e`, and has its name where that is asked.
fn is_like<T: Tree>(tree: &T, by_name: bool, e: u32, y: u32) -> bool
    requires row { e < length (T.document tree.now) }
    requires other { y < length (T.document tree.now) }
    ensures { result ≡ is_like (T.document tree.now) by_name e y }
{
    is_sibling(tree, e, y) && (!by_name || has_name_of(tree, e, y))
}

/// Whether only the siblings of one name count.
fn is_by_name(kind: Nth) -> bool
    ensures { result ≡ is_by_name kind }
{
    matches!(kind, Nth::OfType | Nth::LastOfType)
}

/// The first row after `e` that may be a sibling of it.
fn behind<T: Tree>(tree: &T, e: u32) -> u32
    requires { e < length (T.document tree.now) }
    ensures { IsBehind (T.document tree.now) e result }
{
    if e == 0 { 1 } else { tree.end(e) }
}

/// Where the siblings stand that count for a position.
fn span_of<T: Tree>(tree: &T, kind: Nth, e: u32) -> Span
    requires { e < length (T.document tree.now) }
    ensures { IsSpan (T.document tree.now) kind e result.from result.to }
{
    let parent = tree.parent(e);
    match kind {
        Nth::Child | Nth::OfType => Span {
            from: parent + 1,
            to: e,
        },
        Nth::LastChild | Nth::LastOfType => Span {
            from: behind(tree, e),
            to: tree.end(parent),
        },
    }
}

/// 1 where it is so, and else 0.
fn one_if(wanted: bool) -> u32
    ensures { result ≡ (if wanted then 1 else 0) }
{
    if wanted { 1 } else { 0 }
}

/// The position of `e`, from 1: from the first or from the last, among all siblings or those of its
/// name. Selectors Level 3, sections 6.6.5.2 to 6.6.5.5. It takes no memory.
pub fn position<T: Tree>(tree: &T, kind: Nth, e: u32) -> u32
    requires { e < length (T.document tree.now) }
    ensures { result ≡ spec.position (T.document tree.now) kind e }
{
    let span = span_of(tree, kind, e);
    let by_name = is_by_name(kind);
    let mut y = span.from;
    let mut position = 1;
    while y < span.to {
        position += one_if(is_like(tree, by_name, e, y));
        y = tree.end(y);
    }
    position
}

/// Whether no sibling but `e` itself is like it.
fn is_only<T: Tree>(tree: &T, by_name: bool, e: u32) -> bool
    requires { e < length (T.document tree.now) }
    ensures { result ≡ is_only (T.document tree.now) (is_like (T.document tree.now) by_name e) e }
{
    let parent = tree.parent(e);
    let to = tree.end(parent);
    let mut y = parent + 1;
    while y < to {
        if y != e && is_like(tree, by_name, e, y) {
            return false;
        }
        y = tree.end(y);
    }
    true
}

/// Whether `e` has no element sibling. Selectors Level 3, section 6.6.5.10. It takes no memory.
pub fn is_only_child<T: Tree>(tree: &T, e: u32) -> bool
    requires { e < length (T.document tree.now) }
    ensures { result ≡ is_only (T.document tree.now) (is_sibling (T.document tree.now) e) e }
{
    is_only(tree, false, e)
}

/// Whether `e` has no element sibling of its name. Selectors Level 3, section 6.6.5.11. It takes no
/// memory.
pub fn is_only_of_type<T: Tree>(tree: &T, e: u32) -> bool
    requires { e < length (T.document tree.now) }
    ensures { result ≡ is_only (T.document tree.now) (is_of_type (T.document tree.now) e) e }
{
    is_only(tree, true, e)
}
