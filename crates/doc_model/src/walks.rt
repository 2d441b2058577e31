//! The rows that a node test selects, and the rows on an axis that is not walked from row to parent.
ghost use Rattle.std.specs.Prelude.{◌≡◌, ◌<◌, ◌++◌, ◌∷◌, ◌&&◌, [], Some, false, if◌then◌else◌, length, filter, reverse, slice_get, OnOk, OnErr};
ghost use Rattle.doc_model.specs.Axes as spec;
ghost use Rattle.doc_model.specs.Axes.{passes, is_principal};
ghost use Rattle.doc_model.specs.Document.{rows};
ghost use Rattle.doc_model.specs.RowLists.{IsFront};
ghost use Rattle.doc_model.specs.inner.Walks as walks;
ghost use Rattle.doc_model.specs.inner.Walks.{is_kept, chosen};

use crate::row_tests::{is_attribute, is_below, is_element, is_text};
use crate::tree::Tree;
use crate::walk_bounds::{next, walk_of};
use crate::{Axis, Kind, NodeTest};
use text_base::NoMemory;

/// Whether the axis lists its rows against document order.
pub fn is_reverse(axis: Axis) -> bool
    ensures { result ≡ spec.is_reverse axis }
{
    matches!(
        axis,
        Axis::Ancestor | Axis::AncestorOrSelf | Axis::Preceding | Axis::PrecedingSibling
    )
}

/// Whether the axis is walked from row to parent.
pub fn is_upward(axis: Axis) -> bool
    ensures { result ≡ walks.is_upward axis }
{
    matches!(axis, Axis::Ancestor | Axis::AncestorOrSelf)
}

/// Whether `*` and names look at the row.
fn is_principal<T: Tree>(tree: &T, axis: Axis, y: u32) -> bool
    requires { y < length (T.document tree.now) }
    ensures { result ≡ is_principal axis (T.document tree.now) y }
{
    match axis {
        Axis::Attribute => is_attribute(tree, y),
        _ => is_element(tree, y),
    }
}

/// Whether the row passes the test.
pub fn passes<T: Tree>(tree: &T, axis: Axis, test: &NodeTest, y: u32) -> bool
    requires { y < length (T.document tree.now) }
    ensures { result ≡ passes (T.document tree.now) axis test.now y }
{
    match test {
        NodeTest::AnyName => is_principal(tree, axis, y),
        NodeTest::Name(name) => is_principal(tree, axis, y) && tree.name(y) == name.as_str(),
        NodeTest::Node => true,
        NodeTest::Text => is_text(tree, y),
        NodeTest::Comment => matches!(tree.kind(y), Kind::Comment),
        NodeTest::Instruction => false,
    }
}

/// Whether a row that the walk comes to is on the axis.
fn is_kept<T: Tree>(tree: &T, x: u32, axis: Axis, y: u32) -> bool
    requires row { x < length (T.document tree.now) }
    requires other { y < length (T.document tree.now) }
    ensures { result ≡ is_kept (T.document tree.now) axis x y }
{
    match axis {
        Axis::Child => !is_attribute(tree, y) && tree.parent(y) == x,
        Axis::Attribute => is_attribute(tree, y) && tree.parent(y) == x,
        Axis::FollowingSibling | Axis::PrecedingSibling => {
            !is_attribute(tree, y) && tree.parent(y) == tree.parent(x)
        }
        Axis::Preceding => !is_attribute(tree, y) && !is_below(tree, y, x),
        Axis::DescendantOrSelf => y == x || !is_attribute(tree, y),
        Axis::Descendant | Axis::Following => !is_attribute(tree, y),
        Axis::Namespace => false,
        Axis::Parent | Axis::OwnSelf | Axis::Ancestor | Axis::AncestorOrSelf => true,
    }
}

/// One more row, if it is wanted.
pub fn push_if(out: &mut Vec<u32>, y: u32, wanted: bool) -> Result<(), NoMemory>
    ensures ok { OnOk result (out.new.items ≡ out.old.items ++ (if wanted then y ∷ [] else [])) }
    ensures err { OnErr result (out.new.items ≡ out.old.items) }
{
    if wanted {
        out.push(y)?;
    }
    Ok(())
}

/// The row, if it is wanted, and else the one before.
fn later(last: Option<u32>, y: u32, wanted: bool) -> Option<u32>
    ensures { result ≡ (if wanted then Some y else last) }
{
    if wanted { Some(y) } else { last }
}

/// 1 where the row is wanted.
pub fn one_if(wanted: bool) -> u32
    ensures { result ≡ (if wanted then 1 else 0) }
{
    if wanted { 1 } else { 0 }
}

/// Whether a row that the walk comes to is on the axis and passes the test.
fn is_wanted<T: Tree>(tree: &T, x: u32, axis: Axis, test: &NodeTest, y: u32) -> bool
    requires row { x < length (T.document tree.now) }
    requires other { y < length (T.document tree.now) }
    ensures { result ≡ (is_kept (T.document tree.now) axis x y && passes (T.document tree.now) axis test.now y) }
{
    is_kept(tree, x, axis, y) && passes(tree, axis, test, y)
}

/// The rows on an axis that is not walked from row to parent, in document order.
pub fn across_into<T: Tree>(
    tree: &T,
    x: u32,
    axis: Axis,
    test: &NodeTest,
    out: &mut Vec<u32>,
) -> Result<(), NoMemory>
    requires row { x < length (T.document tree.now) }
    requires across { walks.is_upward axis ≡ false }
    requires empty { out.old.items ≡ [] }
    ensures ok { OnOk result (out.new.items ≡ filter (chosen (T.document tree.now) axis x test.now) (rows (T.document tree.now))) }
    ensures err { OnErr result (IsFront out.new.items (filter (chosen (T.document tree.now) axis x test.now) (rows (T.document tree.now)))) }
{
    let walk = walk_of(tree, x, axis);
    let mut y = walk.from;
    while y < walk.to {
        let wanted = is_wanted(tree, x, axis, test, y);
        push_if(out, y, wanted)?;
        y = next(tree, walk.hops, y);
    }
    Ok(())
}

/// How many rows these are.
pub fn across_count<T: Tree>(tree: &T, x: u32, axis: Axis, test: &NodeTest) -> u32
    requires row { x < length (T.document tree.now) }
    requires across { walks.is_upward axis ≡ false }
    ensures { result ≡ length (filter (chosen (T.document tree.now) axis x test.now) (rows (T.document tree.now))) }
{
    let walk = walk_of(tree, x, axis);
    let mut y = walk.from;
    let mut count = 0;
    while y < walk.to {
        count += one_if(is_wanted(tree, x, axis, test, y));
        y = next(tree, walk.hops, y);
    }
    count
}

/// The first of these rows. The walk ends at it.
pub fn across_first<T: Tree>(tree: &T, x: u32, axis: Axis, test: &NodeTest) -> Option<u32>
    requires row { x < length (T.document tree.now) }
    requires across { walks.is_upward axis ≡ false }
    ensures { result ≡ slice_get (filter (chosen (T.document tree.now) axis x test.now) (rows (T.document tree.now))) 0 }
{
    let walk = walk_of(tree, x, axis);
    let mut y = walk.from;
    while y < walk.to {
        if is_wanted(tree, x, axis, test, y) {
            return Some(y);
        }
        y = next(tree, walk.hops, y);
    }
    None
}

/// The last of these rows.
pub fn across_last<T: Tree>(tree: &T, x: u32, axis: Axis, test: &NodeTest) -> Option<u32>
    requires row { x < length (T.document tree.now) }
    requires across { walks.is_upward axis ≡ false }
    ensures { result ≡ slice_get (reverse (filter (chosen (T.document tree.now) axis x test.now) (rows (T.document tree.now)))) 0 }
{
    let walk = walk_of(tree, x, axis);
    let mut y = walk.from;
    let mut last = None;
    while y < walk.to {
        last = later(last, y, is_wanted(tree, x, axis, test, y));
        y = next(tree, walk.hops, y);
    }
    last
}
