//! Context rows of a step that add no row to those of another one.
ghost use Rattle.std.specs.Prelude.{◌≡◌, ◌<◌, ◌++◌, ◌∷◌, ◌&&◌, not, [], length, IsTrue, IfOk, OnOk, if◌then◌else◌};
ghost use Rattle.doc_model.specs.Axes.{are_siblings};
ghost use Rattle.doc_model.specs.Document as document;
ghost use Rattle.doc_model.specs.Document.{below};
ghost use Rattle.xpath_eval.specs.inner.Contexts.{AddsNothing, Covers, IsCovered};
ghost use Rattle.doc_model.specs.RowLists.{AllBelow};

use doc_model::{Axis, Tree, is_attribute, is_below};
use std::alloc::Global;
use text_base::NoMemory;

/// Whether `x` is below `z` and no attribute.
fn is_within<T: Tree>(tree: &T, z: u32, x: u32) -> bool
    requires row { z < length (T.document tree.now) }
    requires other { x < length (T.document tree.now) }
    ensures { result ≡ (below (T.document tree.now) z x && not (document.is_attribute (T.document tree.now) x)) }
{
    is_below(tree, z, x) && !is_attribute(tree, x)
}

/// Whether they are two children of one parent, and no attributes.
fn have_one_parent<T: Tree>(tree: &T, z: u32, x: u32) -> bool
    requires row { z < length (T.document tree.now) }
    requires other { x < length (T.document tree.now) }
    ensures { result ≡ are_siblings (T.document tree.now) z x }
{
    z > 0
        && x > 0
        && !is_attribute(tree, z)
        && !is_attribute(tree, x)
        && tree.parent(z) == tree.parent(x)
}

/// Whether `x` adds no row to those on the axis of `z`. It is told only on the axes where that is easy.
fn adds_nothing<T: Tree>(tree: &T, axis: Axis, z: u32, x: u32) -> bool
    requires row { z < length (T.document tree.now) }
    requires other { x < length (T.document tree.now) }
    ensures { IsTrue result → AddsNothing (T.document tree.now) axis z x }
{
    match axis {
        Axis::Descendant => is_within(tree, z, x),
        Axis::DescendantOrSelf => is_within(tree, z, x),
        Axis::Following => tree.end(z) <= tree.end(x),
        Axis::Preceding => x <= z,
        Axis::FollowingSibling => z < x && have_one_parent(tree, z, x),
        Axis::PrecedingSibling => x < z && have_one_parent(tree, z, x),
        Axis::Child
        | Axis::Parent
        | Axis::Ancestor
        | Axis::AncestorOrSelf
        | Axis::Attribute
        | Axis::Namespace
        | Axis::OwnSelf => false,
    }
}

/// Whether the last of the rows leaves `x` nothing to add.
fn is_covered<T: Tree>(tree: &T, axis: Axis, few: &[u32], x: u32) -> bool
    requires rows { AllBelow (length (T.document tree.now)) few.now }
    requires row { x < length (T.document tree.now) }
    ensures { IsTrue result → IsCovered (T.document tree.now) axis few.now x }
{
    if few.len() == 0 {
        return false;
    }
    adds_nothing(tree, axis, few[few.len() - 1], x)
}

/// One more row, if it is wanted.
fn push_if(rows: &mut Vec<u32>, x: u32, wanted: bool) -> Result<(), NoMemory>
    ensures { OnOk result (rows.new.items ≡ (if wanted then rows.old.items ++ x ∷ [] else rows.old.items)) }
{
    if wanted {
        rows.push(x)?;
    }
    Ok(())
}

/// The rows without those that add nothing to the last one before them that is left.
fn fewer<T: Tree>(alloc: Global, tree: &T, axis: Axis, rows: &[u32]) -> Result<Vec<u32>, NoMemory>
    requires { AllBelow (length (T.document tree.now)) rows.now }
    ensures covers { IfOk result (λ few. Covers (T.document tree.now) axis rows.now few.items) }
    ensures below { IfOk result (λ few. AllBelow (length (T.document tree.now)) few.items) }
{
    let mut few = Vec::new(alloc);
    for x in rows {
        let wanted = !is_covered(tree, axis, few.as_slice(), *x);
        push_if(&mut few, *x, wanted)?;
    }
    Ok(few)
}

/// Some of the rows, whose axes have together every row on the axis of one of them.
pub fn covering<T: Tree>(
    alloc: Global,
    tree: &T,
    axis: Axis,
    rows: &[u32],
) -> Result<Vec<u32>, NoMemory>
    requires { AllBelow (length (T.document tree.now)) rows.now }
    ensures covers { IfOk result (λ few. Covers (T.document tree.now) axis rows.now few.items) }
    ensures below { IfOk result (λ few. AllBelow (length (T.document tree.now)) few.items) }
{
    if matches!(axis, Axis::Preceding | Axis::PrecedingSibling) {
        let mut turned = Vec::from_slice(alloc, rows)?;
        turned.reverse();
        return fewer(alloc, tree, axis, turned.as_slice());
    }
    fewer(alloc, tree, axis, rows)
}

/// Whether there may be rows that can be left out on an axis.
pub fn may_cover(axis: Axis, rows: &[u32]) -> bool {
    rows.len() > 1 && can_cover(axis)
}

/// Whether rows can be left out on an axis.
pub fn can_cover(axis: Axis) -> bool {
    matches!(
        axis,
        Axis::Descendant
            | Axis::DescendantOrSelf
            | Axis::Following
            | Axis::Preceding
            | Axis::FollowingSibling
            | Axis::PrecedingSibling
    )
}
