//! The rows on an axis of several context rows together.
ghost use Rattle.std.specs.Prelude.{◌≡◌, ◌<◌, ◌≤◌, ◌∷◌, [], length, IfOk};
ghost use Rattle.doc_model.specs.Axes.{axis_list};
ghost use Rattle.xpath_parser.specs.Denote as spec;
ghost use Rattle.doc_model.specs.RowLists.{AllBelow};

use crate::contexts::{can_cover, covering};
use crate::forms::axis_rows;
use crate::ordering::{add, ordered};
use doc_model::{Axes, Axis, NodeTest};
use std::alloc::Global;
use text_base::NoMemory;

/// The rows on the axis of one row, in document order.
fn from_one<S: Axes>(
    alloc: Global,
    source: &S,
    x: u32,
    axis: Axis,
    test: &NodeTest,
) -> Result<Vec<u32>, NoMemory>
    requires { x < length (S.document source.now) }
    ensures { IfOk result (λ found. found.items ≡ spec.rows_in (S.document source.now) (x ∷ []) (λ v. axis_list (S.document source.now) v axis test.now)) }
{
    let listed = axis_rows(alloc, source, x, axis, test)?;
    Ok(ordered(listed))
}

/// The rows on the axis of each of the rows, put together.
fn from_rows<S: Axes>(
    alloc: Global,
    source: &S,
    rows: &[u32],
    axis: Axis,
    test: &NodeTest,
) -> Result<Vec<u32>, NoMemory>
    requires { AllBelow (length (S.document source.now)) rows.now }
    ensures { IfOk result (λ found. found.items ≡ spec.rows_in (S.document source.now) rows.now (λ v. axis_list (S.document source.now) v axis test.now)) }
{
    let most = 2 * source.len() as usize;
    let mut found = Vec::new(alloc);
    let mut listed = Vec::new(alloc);
    for x in rows {
        listed.clear();
        source.axis_into(*x, axis, test, &mut listed)?;
        found = add(found, listed.as_slice(), most)?;
    }
    Ok(ordered(found))
}

/// The same, without the rows that add nothing to those of another one.
fn from_few<S: Axes>(
    alloc: Global,
    source: &S,
    rows: &[u32],
    axis: Axis,
    test: &NodeTest,
) -> Result<Vec<u32>, NoMemory>
    requires { AllBelow (length (S.document source.now)) rows.now }
    ensures { IfOk result (λ found. found.items ≡ spec.rows_in (S.document source.now) rows.now (λ v. axis_list (S.document source.now) v axis test.now)) }
{
    if rows.len() == 1 {
        return from_one(alloc, source, rows[0], axis, test);
    }
    if !can_cover(axis) {
        return from_rows(alloc, source, rows, axis, test);
    }
    let few = covering(alloc, source, axis, rows)?;
    from_rows(alloc, source, few.as_slice(), axis, test)
}

/// The rows on the axis of one of the rows that pass the test.
pub fn axis_from<S: Axes>(
    alloc: Global,
    source: &S,
    rows: &[u32],
    axis: Axis,
    test: &NodeTest,
) -> Result<Vec<u32>, NoMemory>
    requires { AllBelow (length (S.document source.now)) rows.now }
    ensures rows { IfOk result (λ found. found.items ≡ spec.rows_in (S.document source.now) rows.now (λ v. axis_list (S.document source.now) v axis test.now)) }
    ensures below { IfOk result (λ found. AllBelow (length (S.document source.now)) found.items) }
    ensures few { IfOk result (λ found. length found.items ≤ length (S.document source.now)) }
{
    let found = from_few(alloc, source, rows, axis, test)?;
    Ok(found)
}
