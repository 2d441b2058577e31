//! Whether an expression is true, with no more of its rows than it takes to tell.
ghost use Rattle.std.specs.Prelude.{◌≡◌, ◌<◌, length, map, IfOk};
ghost use Rattle.std.specs.List.{list_any, list_all, All};
ghost use Rattle.doc_model.specs.Axes.{axis_list};
ghost use Rattle.xpath_values.specs.declared.value.Value.TheVariants as spec_value;
ghost use Rattle.xpath_parser.specs.declared.expression.Func.TheVariants as f;
ghost use Rattle.xpath_parser.specs.declared.expression.Step.{out-Step};
ghost use Rattle.xpath_parser.specs.Functions as functions;
ghost use Rattle.xpath_parser.specs.Asking.{AsksOnly, StepAsks};
ghost use Rattle.xpath_parser.specs.Conversions as conversions;
ghost use Rattle.xpath_parser.specs.Conversions.{is_any};
ghost use Rattle.xpath_parser.specs.Denote as spec;
ghost use Rattle.xpath_eval.specs.inner.Places.{context};
ghost use Rattle.doc_model.specs.RowLists.{AllBelow};
ghost use Rattle.xpath_eval.specs.Rows.{AreRows};
ghost use Rattle.xpath_eval.specs.inner.Tests.{passes_all};

use crate::contexts::{covering, may_cover};
use crate::deep_steps::ends_below;
use crate::evaluation::{first_steps, started, value_at, walk};
use crate::forms::{axis_rows, is_not};
use crate::place::{Place, alone};
use crate::tests_of_rows::are_tests;
use crate::told::told;
use doc_model::{Axes, Axis};
use std::alloc::Global;
use test_registry::Asks;
use text_base::{NoMemory, Seq};
use xpath_functions::truth_of;
use xpath_parser::{Expr, Step};

/// Whether the value of an expression is true. Of a path it is only asked whether it gives a row.
#[cycle(evaluation)]
pub fn is_true<S: Axes, Q: Asks>(
    alloc: Global,
    source: &S,
    e: &Expr,
    place: Place,
    tests: &Q,
) -> Result<bool, NoMemory>
    requires row { place.row < length (S.document source.now) }
    requires tests { AsksOnly (Q.kinds tests.now) e.now }
    ensures { IfOk result (λ b. b ≡ conversions.truth_of (spec.denote (S.document source.now) e.now (context place))) }
{
    if let Some(truth) = told(source, e, place) {
        return Ok(truth);
    }
    match e {
        Expr::Or(es) => return any(alloc, source, es.as_slice(), place, tests),
        Expr::And(es) => return all(alloc, source, es.as_slice(), place, tests),
        Expr::Path(start, steps) => {
            let rows = started(alloc, source, start, place, tests)?;
            return finds(alloc, source, rows, steps.as_slice(), tests);
        }
        Expr::Call(func, es) => {
            if is_not(*func) {
                return first_is_false(alloc, source, es.as_slice(), place, tests);
            }
        }
        _ => {}
    }
    let value = value_at(alloc, source, e, place, tests)?;
    Ok(truth_of(&value))
}

/// Whether one of the expressions is true.
#[cycle(evaluation)]
pub fn any<S: Axes, Q: Asks>(
    alloc: Global,
    source: &S,
    es: &[Expr],
    place: Place,
    tests: &Q,
) -> Result<bool, NoMemory>
    requires row { place.row < length (S.document source.now) }
    requires tests { All (AsksOnly (Q.kinds tests.now)) es.now }
    ensures { IfOk result (λ b. b ≡ list_any (λ e. conversions.truth_of (spec.denote (S.document source.now) e (context place))) es.now) }
{
    for e in es {
        if is_true(alloc, source, e, place, tests)? {
            return Ok(true);
        }
    }
    Ok(false)
}

/// Whether all of the expressions are true.
#[cycle(evaluation)]
pub fn all<S: Axes, Q: Asks>(
    alloc: Global,
    source: &S,
    es: &[Expr],
    place: Place,
    tests: &Q,
) -> Result<bool, NoMemory>
    requires row { place.row < length (S.document source.now) }
    requires tests { All (AsksOnly (Q.kinds tests.now)) es.now }
    ensures { IfOk result (λ b. b ≡ list_all (λ e. conversions.truth_of (spec.denote (S.document source.now) e (context place))) es.now) }
{
    for e in es {
        if !is_true(alloc, source, e, place, tests)? {
            return Ok(false);
        }
    }
    Ok(true)
}

/// Whether the first of the expressions is not true, as the function `not` asks.
#[cycle(evaluation)]
fn first_is_false<S: Axes, Q: Asks>(
    alloc: Global,
    source: &S,
    es: &[Expr],
    place: Place,
    tests: &Q,
) -> Result<bool, NoMemory>
    requires row { place.row < length (S.document source.now) }
    requires tests { All (AsksOnly (Q.kinds tests.now)) es.now }
    ensures { IfOk result (λ b. spec_value.Bool b ≡ functions.called (S.document source.now) f.Not (map (λ e. spec.denote (S.document source.now) e (context place)) es.now) (context place)) }
{
    if es.len() == 0 {
        return Ok(true);
    }
    Ok(!is_true(alloc, source, &es[0], place, tests)?)
}

/// Whether a path gives a row from the rows where it starts: the rows of all its steps but the last are found, and the
/// last ends at the first row. `//` and a child step behind it are one step.
#[cycle(evaluation)]
fn finds<S: Axes, Q: Asks>(
    alloc: Global,
    source: &S,
    start: Seq<u32>,
    steps: &[Step],
    tests: &Q,
) -> Result<bool, NoMemory>
    requires rows { AreRows (S.document source.now) start }
    requires tests { All (StepAsks (Q.kinds tests.now)) steps.now }
    ensures { IfOk result (λ b. b ≡ is_any (spec.path (S.document source.now) start (map (spec.walk_of (S.document source.now)) steps.now))) }
{
    if steps.len() == 0 {
        return Ok(start.len() != 0);
    }
    let last = steps.len() - 1;
    if ends_below(steps) {
        let rows = first_steps(alloc, source, start, steps, last - 1, tests)?;
        return tested(
            alloc,
            source,
            rows.as_slice(),
            Axis::Descendant,
            &steps[last],
            tests,
        );
    }
    let rows = first_steps(alloc, source, start, steps, last, tests)?;
    gives(alloc, source, rows.as_slice(), &steps[last], tests)
}

/// Whether a step gives a row from one of the rows.
#[cycle(evaluation)]
fn gives<S: Axes, Q: Asks>(
    alloc: Global,
    source: &S,
    rows: &[u32],
    step: &Step,
    tests: &Q,
) -> Result<bool, NoMemory>
    requires rows { AllBelow (length (S.document source.now)) rows.now }
    requires tests { StepAsks (Q.kinds tests.now) step.now }
    ensures { IfOk result (λ b. b ≡ is_any (spec.rows_in (S.document source.now) rows.now (spec.walk_of (S.document source.now) step.now))) }
{
    if are_tests(step.predicates.as_slice()) {
        return tested(alloc, source, rows, step.axis, step, tests);
    }
    walks(alloc, source, rows, step, tests)
}

/// The same, from each row in turn, up to the first from which there is one.
#[cycle(evaluation)]
fn walks<S: Axes, Q: Asks>(
    alloc: Global,
    source: &S,
    rows: &[u32],
    step: &Step,
    tests: &Q,
) -> Result<bool, NoMemory>
    requires rows { AllBelow (length (S.document source.now)) rows.now }
    requires tests { StepAsks (Q.kinds tests.now) step.now }
    ensures { IfOk result (λ b. b ≡ list_any (λ x. is_any (spec.walk_of (S.document source.now) step.now x)) rows.now) }
{
    for x in rows {
        let walked = walk(alloc, source, *x, step, tests)?;
        if walked.len() != 0 {
            return Ok(true);
        }
    }
    Ok(false)
}

/// Whether the predicates of a step are true, at position 1 of 1, at one of the rows on an axis that its test lets
/// through. The axis is not walked from a row that adds nothing to those of another one.
#[cycle(evaluation)]
fn tested<S: Axes, Q: Asks>(
    alloc: Global,
    source: &S,
    rows: &[u32],
    axis: Axis,
    step: &Step,
    tests: &Q,
) -> Result<bool, NoMemory>
    requires rows { AllBelow (length (S.document source.now)) rows.now }
    requires tests { StepAsks (Q.kinds tests.now) step.now }
    ensures { IfOk result (λ b. b ≡ list_any (λ y. passes_all (S.document source.now) (out-Step step.now).predicates y)
        (spec.rows_in (S.document source.now) rows.now (λ x. axis_list (S.document source.now) x axis (out-Step step.now).test))) }
{
    if may_cover(axis, rows) {
        let few = covering(alloc, source, axis, rows)?;
        return each_tested(alloc, source, few.as_slice(), axis, step, tests);
    }
    each_tested(alloc, source, rows, axis, step, tests)
}

/// The same, from each row in turn, up to the first from which there is one.
#[cycle(evaluation)]
fn each_tested<S: Axes, Q: Asks>(
    alloc: Global,
    source: &S,
    rows: &[u32],
    axis: Axis,
    step: &Step,
    tests: &Q,
) -> Result<bool, NoMemory>
    requires rows { AllBelow (length (S.document source.now)) rows.now }
    requires tests { StepAsks (Q.kinds tests.now) step.now }
    ensures { IfOk result (λ b. b ≡ list_any (λ x. list_any (λ y. passes_all (S.document source.now) (out-Step step.now).predicates y)
        (axis_list (S.document source.now) x axis (out-Step step.now).test)) rows.now) }
{
    for x in rows {
        if tested_from(alloc, source, *x, axis, step, tests)? {
            return Ok(true);
        }
    }
    Ok(false)
}

/// The same from one row. Without predicates there is no list.
#[cycle(evaluation)]
fn tested_from<S: Axes, Q: Asks>(
    alloc: Global,
    source: &S,
    x: u32,
    axis: Axis,
    step: &Step,
    tests: &Q,
) -> Result<bool, NoMemory>
    requires row { x < length (S.document source.now) }
    requires tests { StepAsks (Q.kinds tests.now) step.now }
    ensures { IfOk result (λ b. b ≡ list_any (λ y. passes_all (S.document source.now) (out-Step step.now).predicates y)
        (axis_list (S.document source.now) x axis (out-Step step.now).test)) }
{
    if step.predicates.len() == 0 {
        return Ok(source.axis_any(x, axis, &step.test));
    }
    let rows = axis_rows(alloc, source, x, axis, &step.test)?;
    one_passes(
        alloc,
        source,
        rows.as_slice(),
        step.predicates.as_slice(),
        tests,
    )
}

/// Whether all predicates are true at one of the rows, asked row by row, up to the first.
#[cycle(evaluation)]
fn one_passes<S: Axes, Q: Asks>(
    alloc: Global,
    source: &S,
    rows: &[u32],
    predicates: &[Expr],
    tests: &Q,
) -> Result<bool, NoMemory>
    requires rows { AllBelow (length (S.document source.now)) rows.now }
    requires tests { All (AsksOnly (Q.kinds tests.now)) predicates.now }
    ensures { IfOk result (λ b. b ≡ list_any (λ y. passes_all (S.document source.now) predicates.now y) rows.now) }
{
    for y in rows {
        if all(alloc, source, predicates, alone(*y), tests)? {
            return Ok(true);
        }
    }
    Ok(false)
}
