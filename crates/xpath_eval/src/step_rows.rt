//! The rows on the axis of a step that its predicates are asked about.
ghost use Rattle.std.specs.Prelude.{◌≡◌, ◌<◌, ◌≤◌, length, map, take, IsTrue, IfOk};
ghost use Rattle.doc_model.specs.Axes.{axis_list};
ghost use Rattle.xpath_parser.specs.declared.expression.Step.{out-Step};
ghost use Rattle.xpath_parser.specs.Denote as spec;
ghost use Rattle.doc_model.specs.RowLists.{AllBelow};
ghost use Rattle.xpath_eval.specs.inner.Steps.{BeginsWithOne};

use crate::forms::axis_rows;
use doc_model::{Axes, Axis, NodeTest};
use std::alloc::Global;
use text_base::NoMemory;
use xpath_parser::{Expr, Step};

/// Whether the first predicate is the number 1, so that no row but the first is kept.
fn keeps_first(predicates: &[Expr]) -> bool
    ensures { IsTrue result → BeginsWithOne predicates.now }
{
    if predicates.len() == 0 {
        return false;
    }
    match &predicates[0] {
        Expr::Number(n) => *n == 1,
        _ => false,
    }
}

/// The first row on an axis that a test lets through, if there is one.
fn first_row<S: Axes>(
    alloc: Global,
    source: &S,
    x: u32,
    axis: Axis,
    test: &NodeTest,
) -> Result<Vec<u32>, NoMemory>
    requires { x < length (S.document source.now) }
    ensures { IfOk result (λ rows. rows.items ≡ take 1 (axis_list (S.document source.now) x axis test.now)) }
{
    let mut rows = Vec::new(alloc);
    if let Some(y) = source.axis_first(x, axis, test) {
        rows.push(y)?;
    }
    Ok(rows)
}

/// The rows on the axis of a step from which its predicates keep what they keep of all, in the order of the axis: the
/// first alone where the first predicate is the number 1, so that the walk ends there.
pub fn step_rows<S: Axes>(
    alloc: Global,
    source: &S,
    x: u32,
    step: &Step,
) -> Result<Vec<u32>, NoMemory>
    requires { x < length (S.document source.now) }
    ensures kept { IfOk result (λ rows. spec.kept (map (spec.denote (S.document source.now)) (out-Step step.now).predicates) rows.items ≡ spec.walk_of (S.document source.now) step.now x) }
    ensures below { IfOk result (λ rows. AllBelow (length (S.document source.now)) rows.items) }
    ensures few { IfOk result (λ rows. length rows.items ≤ length (S.document source.now)) }
{
    if keeps_first(step.predicates.as_slice()) {
        let first = first_row(alloc, source, x, step.axis, &step.test)?;
        return Ok(first);
    }
    let rows = axis_rows(alloc, source, x, step.axis, &step.test)?;
    Ok(rows)
}
