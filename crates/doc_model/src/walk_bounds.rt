//! Where the rows of an axis are looked for that is not walked from row to parent.
ghost use Rattle.std.specs.Prelude.{◌≡◌, ◌<◌, ◌+◌, false, length};
ghost use Rattle.doc_model.specs.Ends.{IsEnd};
ghost use Rattle.doc_model.specs.declared.Axis.TheVariants as axis;
ghost use Rattle.doc_model.specs.inner.Walks as walks;
ghost use Rattle.doc_model.specs.inner.Walks.{IsWalk, IsNext, EndsAttributes};

use crate::Axis;
use crate::row_tests::is_attribute;
use crate::tree::Tree;

/// The rows from one on and before another, either each of them, or without what is below the one before.
#[derive(Clone, Copy)]
pub struct Walk {
    pub from: u32,
    pub to: u32,
    pub hops: bool,
}

/// The first row after `x` that is no attribute, or the number of rows.
fn attributes_end<T: Tree>(tree: &T, x: u32) -> u32
    requires { x < length (T.document tree.now) }
    ensures { EndsAttributes (T.document tree.now) x result }
{
    let len = tree.len();
    let mut e = x + 1;
    while e < len && is_attribute(tree, e) {
        e += 1;
    }
    e
}

/// Nothing.
fn nowhere() -> Walk
    ensures from { result.from ≡ 0 }
    ensures to { result.to ≡ 0 }
    ensures hops { result.hops ≡ false }
{
    Walk {
        from: 0,
        to: 0,
        hops: false,
    }
}

/// The row after the row itself, and what is below it.
fn below<T: Tree>(tree: &T, x: u32, hops: bool) -> Walk
    requires { x < length (T.document tree.now) }
    ensures from { result.from ≡ x + 1 }
    ensures to { IsEnd (T.document tree.now) x result.to }
    ensures hops { result.hops ≡ hops }
{
    let to = tree.end(x);
    Walk {
        from: x + 1,
        to,
        hops,
    }
}

fn parent_walk<T: Tree>(tree: &T, x: u32) -> Walk
    requires { x < length (T.document tree.now) }
    ensures { IsWalk (T.document tree.now) axis.Parent x result.from result.to result.hops }
{
    if x == 0 {
        return nowhere();
    }
    let parent = tree.parent(x);
    Walk {
        from: parent,
        to: parent + 1,
        hops: false,
    }
}

fn attribute_walk<T: Tree>(tree: &T, x: u32) -> Walk
    requires { x < length (T.document tree.now) }
    ensures { IsWalk (T.document tree.now) axis.Attribute x result.from result.to result.hops }
{
    let to = attributes_end(tree, x);
    Walk {
        from: x + 1,
        to,
        hops: false,
    }
}

fn following_walk<T: Tree>(tree: &T, x: u32) -> Walk
    requires { x < length (T.document tree.now) }
    ensures { IsWalk (T.document tree.now) axis.Following x result.from result.to result.hops }
{
    Walk {
        from: tree.end(x),
        to: tree.len(),
        hops: false,
    }
}

fn following_sibling_walk<T: Tree>(tree: &T, x: u32) -> Walk
    requires { x < length (T.document tree.now) }
    ensures { IsWalk (T.document tree.now) axis.FollowingSibling x result.from result.to result.hops }
{
    if x == 0 {
        return nowhere();
    }
    if is_attribute(tree, x) {
        return nowhere();
    }
    Walk {
        from: tree.end(x),
        to: tree.end(tree.parent(x)),
        hops: true,
    }
}

fn preceding_sibling_walk<T: Tree>(tree: &T, x: u32) -> Walk
    requires { x < length (T.document tree.now) }
    ensures { IsWalk (T.document tree.now) axis.PrecedingSibling x result.from result.to result.hops }
{
    if x == 0 {
        return nowhere();
    }
    if is_attribute(tree, x) {
        return nowhere();
    }
    Walk {
        from: tree.parent(x) + 1,
        to: x,
        hops: true,
    }
}

/// Where the rows of an axis are looked for that is not walked from row to parent.
pub fn walk_of<T: Tree>(tree: &T, x: u32, axis: Axis) -> Walk
    requires row { x < length (T.document tree.now) }
    requires across { walks.is_upward axis ≡ false }
    ensures { IsWalk (T.document tree.now) axis x result.from result.to result.hops }
{
    match axis {
        Axis::Child => below(tree, x, true),
        Axis::Descendant => below(tree, x, false),
        Axis::Parent => parent_walk(tree, x),
        Axis::Attribute => attribute_walk(tree, x),
        Axis::Following => following_walk(tree, x),
        Axis::FollowingSibling => following_sibling_walk(tree, x),
        Axis::PrecedingSibling => preceding_sibling_walk(tree, x),
        Axis::OwnSelf => Walk {
            from: x,
            to: x + 1,
            hops: false,
        },
        Axis::DescendantOrSelf => Walk {
            from: x,
            to: tree.end(x),
            hops: false,
        },
        Axis::Preceding => Walk {
            from: 0,
            to: x,
            hops: false,
        },
        Axis::Namespace | Axis::Ancestor | Axis::AncestorOrSelf => nowhere(),
    }
}

/// The row that a walk comes to after `y`.
pub fn next<T: Tree>(tree: &T, hops: bool, y: u32) -> u32
    requires { y < length (T.document tree.now) }
    ensures { IsNext (T.document tree.now) hops y result }
{
    if hops {
        return tree.end(y);
    }
    y + 1
}
