//! The rows on an axis that is walked from row to parent.
ghost use Rattle.std.specs.Prelude.{◌≡◌, ◌<◌, ◌&&◌, [], true, length, filter, reverse, slice_get, OnOk, OnErr};
ghost use Rattle.doc_model.specs.Axes.{passes};
ghost use Rattle.doc_model.specs.Document.{rows};
ghost use Rattle.doc_model.specs.RowLists.{IsFront};
ghost use Rattle.doc_model.specs.inner.Walks as walks;
ghost use Rattle.doc_model.specs.inner.Walks.{chosen};

use crate::tree::Tree;
use crate::walks::{one_if, passes, push_if};
use crate::{Axis, NodeTest};
use text_base::NoMemory;

/// Whether the row itself is on an axis that is walked from row to parent.
fn has_self(axis: Axis) -> bool
    ensures { result ≡ walks.has_self axis }
{
    matches!(axis, Axis::AncestorOrSelf)
}

/// Whether the row itself is on such an axis and passes the test.
fn is_own<T: Tree>(tree: &T, x: u32, axis: Axis, test: &NodeTest) -> bool
    requires { x < length (T.document tree.now) }
    ensures { result ≡ (walks.has_self axis && passes (T.document tree.now) axis test.now x) }
{
    has_self(axis) && passes(tree, axis, test, x)
}

/// The rows on an axis that is walked from row to parent, against document order.
pub fn up_into<T: Tree>(
    tree: &T,
    x: u32,
    axis: Axis,
    test: &NodeTest,
    out: &mut Vec<u32>,
) -> Result<(), NoMemory>
    requires row { x < length (T.document tree.now) }
    requires up { walks.is_upward axis ≡ true }
    requires empty { out.old.items ≡ [] }
    ensures ok { OnOk result (out.new.items ≡ reverse (filter (chosen (T.document tree.now) axis x test.now) (rows (T.document tree.now)))) }
    ensures err { OnErr result (IsFront out.new.items (reverse (filter (chosen (T.document tree.now) axis x test.now) (rows (T.document tree.now))))) }
{
    let own = is_own(tree, x, axis, test);
    push_if(out, x, own)?;
    let mut y = x;
    while y > 0 {
        y = tree.parent(y);
        let wanted = passes(tree, axis, test, y);
        push_if(out, y, wanted)?;
    }
    Ok(())
}

/// How many rows these are.
pub fn up_count<T: Tree>(tree: &T, x: u32, axis: Axis, test: &NodeTest) -> u32
    requires row { x < length (T.document tree.now) }
    requires up { walks.is_upward axis ≡ true }
    ensures { result ≡ length (filter (chosen (T.document tree.now) axis x test.now) (rows (T.document tree.now))) }
{
    let mut count = one_if(is_own(tree, x, axis, test));
    let mut y = x;
    while y > 0 {
        y = tree.parent(y);
        count += one_if(passes(tree, axis, test, y));
    }
    count
}

/// The first of these rows, against document order. The walk ends at it.
pub fn up_first<T: Tree>(tree: &T, x: u32, axis: Axis, test: &NodeTest) -> Option<u32>
    requires row { x < length (T.document tree.now) }
    requires up { walks.is_upward axis ≡ true }
    ensures { result ≡ slice_get (reverse (filter (chosen (T.document tree.now) axis x test.now) (rows (T.document tree.now)))) 0 }
{
    if is_own(tree, x, axis, test) {
        return Some(x);
    }
    let mut y = x;
    while y > 0 {
        y = tree.parent(y);
        if passes(tree, axis, test, y) {
            return Some(y);
        }
    }
    None
}
