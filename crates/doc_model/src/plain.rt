//! Axes that are walked.
ghost use Rattle.std.specs.Prelude.{◌≡◌, ◌<◌, ℕ, [], length, nat_lt, slice_get, OnOk, OnErr};
ghost use Rattle.doc_model.specs.Axes.{axis_list};
ghost use Rattle.doc_model.specs.RowLists.{IsFront};

use crate::axes::Axes;
use crate::tree::Tree;
use crate::upward::{up_count, up_first, up_into};
use crate::walks::{across_count, across_first, across_into, across_last, is_reverse, is_upward};
use crate::{Axis, Kind, NodeTest};
use text_base::NoMemory;

/// The rows on the axis of `x` that pass the test, nearest first, as `Axes::axis_into` gives them.
pub fn walk_into<T: Tree>(
    tree: &T,
    x: u32,
    axis: Axis,
    test: &NodeTest,
    out: &mut Vec<u32>,
) -> Result<(), NoMemory>
    requires row { x < length (T.document tree.now) }
    requires empty { out.old.items ≡ [] }
    ensures ok { OnOk result (out.new.items ≡ axis_list (T.document tree.now) x axis test.now) }
    ensures err { OnErr result (IsFront out.new.items (axis_list (T.document tree.now) x axis test.now)) }
{
    if is_upward(axis) {
        return up_into(tree, x, axis, test, out);
    }
    let walked = across_into(tree, x, axis, test, out);
    if is_reverse(axis) {
        match walked {
            Ok(()) => out.reverse(),
            Err(_) => out.clear(),
        }
    }
    walked
}

/// How many rows these are. It takes no memory.
pub fn walk_count<T: Tree>(tree: &T, x: u32, axis: Axis, test: &NodeTest) -> u32
    requires { x < length (T.document tree.now) }
    ensures { result ≡ length (axis_list (T.document tree.now) x axis test.now) }
{
    if is_upward(axis) {
        return up_count(tree, x, axis, test);
    }
    across_count(tree, x, axis, test)
}

/// The first of these rows. It takes no memory. Forwards and from row to parent the walk ends at it.
pub fn walk_first<T: Tree>(tree: &T, x: u32, axis: Axis, test: &NodeTest) -> Option<u32>
    requires { x < length (T.document tree.now) }
    ensures { result ≡ slice_get (axis_list (T.document tree.now) x axis test.now) 0 }
{
    if is_upward(axis) {
        return up_first(tree, x, axis, test);
    }
    if is_reverse(axis) {
        return across_last(tree, x, axis, test);
    }
    across_first(tree, x, axis, test)
}

/// Whether there is one. It takes no memory, and the walk ends at the first that it comes to.
pub fn walk_any<T: Tree>(tree: &T, x: u32, axis: Axis, test: &NodeTest) -> bool
    requires { x < length (T.document tree.now) }
    ensures { result ≡ nat_lt 0 (length (axis_list (T.document tree.now) x axis test.now)) }
{
    if is_upward(axis) {
        return up_first(tree, x, axis, test).is_some();
    }
    across_first(tree, x, axis, test).is_some()
}

/// A document whose axes are walked, row by row, over what may be on the axis.
#[derive(Drop)]
pub struct Plain<T> {
    tree: T,
}

impl<T: Tree + Drop> Plain<T> {
    /// Keeps the tree's document. It takes no memory.
    pub fn new(tree: T) -> Plain<T>
        ensures { ⟦<Plain<T> as Tree>⟧.document result ≡ T.document tree }
    {
        Plain { tree }
    }
}

impl<T: Tree> Tree for Plain<T> {
    ghost document = { λ p. T.document p.tree };

    ghost is_document = { λ p. T.is_document p.tree };

    ghost is_small = { λ p. T.is_small p.tree };

    fn len(&self) -> u32 {
        self.tree.len()
    }

    fn kind(&self, i: u32) -> Kind {
        self.tree.kind(i)
    }

    fn name(&self, i: u32) -> &str {
        self.tree.name(i)
    }

    fn text(&self, i: u32) -> &str {
        self.tree.text(i)
    }

    fn parent(&self, i: u32) -> u32 {
        self.tree.parent(i)
    }

    fn end(&self, i: u32) -> u32 {
        self.tree.end(i)
    }
}

impl<T: Tree> Axes for Plain<T> {
    fn axis_into(
        &self,
        x: u32,
        axis: Axis,
        test: &NodeTest,
        out: &mut Vec<u32>,
    ) -> Result<(), NoMemory> {
        walk_into(&self.tree, x, axis, test, out)
    }

    fn axis_count(&self, x: u32, axis: Axis, test: &NodeTest) -> u32 {
        walk_count(&self.tree, x, axis, test)
    }

    fn axis_first(&self, x: u32, axis: Axis, test: &NodeTest) -> Option<u32> {
        walk_first(&self.tree, x, axis, test)
    }

    fn axis_any(&self, x: u32, axis: Axis, test: &NodeTest) -> bool {
        walk_any(&self.tree, x, axis, test)
    }
}
