//! The axes of a document.
ghost use Rattle.std.specs.Prelude.{◌≡◌, ◌<◌, ℕ, [], length, nat_lt, slice_get, OnOk, OnErr};
ghost use Rattle.doc_model.specs.Axes.{axis_list};
ghost use Rattle.doc_model.specs.RowLists.{IsFront};

use crate::tree::Tree;
use crate::{Axis, NodeTest};
use text_base::NoMemory;

/// A document whose axes can be listed, after XPath 1.0, section 2.2.
pub trait Axes: Tree {
    /// The rows on the axis of `x` that pass the test, nearest first: in document order, and against it on the
    /// ancestor, ancestor-or-self, preceding and preceding-sibling axes. Where no memory is found, `out` holds the
    /// first of them.
    fn axis_into(
        &self,
        x: u32,
        axis: Axis,
        test: &NodeTest,
        out: &mut Vec<u32>,
    ) -> Result<(), NoMemory>
        requires row { x < length (Self.document self.now) }
        requires empty { out.old.items ≡ [] }
        ensures ok { OnOk result (out.new.items ≡ axis_list (Self.document self.now) x axis test.now) }
        ensures err { OnErr result (IsFront out.new.items (axis_list (Self.document self.now) x axis test.now)) };

    /// How many rows these are. It takes no memory.
    fn axis_count(&self, x: u32, axis: Axis, test: &NodeTest) -> u32
        requires { x < length (Self.document self.now) }
        ensures { result ≡ length (axis_list (Self.document self.now) x axis test.now) };

    /// The first of these rows, the nearest one, with no list of the others. It takes no memory.
    fn axis_first(&self, x: u32, axis: Axis, test: &NodeTest) -> Option<u32>
        requires { x < length (Self.document self.now) }
        ensures { result ≡ slice_get (axis_list (Self.document self.now) x axis test.now) 0 };

    /// Whether there is one of these rows. It takes no memory.
    fn axis_any(&self, x: u32, axis: Axis, test: &NodeTest) -> bool
        requires { x < length (Self.document self.now) }
        ensures { result ≡ nat_lt 0 (length (axis_list (Self.document self.now) x axis test.now)) };
}
