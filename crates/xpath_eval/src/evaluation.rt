//! The value of an expression at a place. Only brackets nest, so only through them a function here leads to itself.
ghost use Rattle.std.specs.Prelude.{◌≡◌, ◌<◌, ◌≤◌, length, map, take, IfOk};
ghost use Rattle.std.specs.List.{All};
ghost use Rattle.doc_model.specs.Axes.{axis_list};
ghost use Rattle.doc_model.specs.declared.Axis.TheVariants as axis;
ghost use Rattle.xpath_parser.specs.declared.expression.Step.{out-Step};
ghost use Rattle.xpath_parser.specs.Asking.{AsksOnly, OperandAsks, StartAsks, StepAsks};
ghost use Rattle.xpath_parser.specs.Conversions.{rows_of};
ghost use Rattle.xpath_parser.specs.Denote as spec;
ghost use Rattle.xpath_functions.specs.Rows.{AreWithin};
ghost use Rattle.xpath_eval.specs.inner.Places.{context};
ghost use Rattle.doc_model.specs.RowLists.{AllBelow};
ghost use Rattle.xpath_eval.specs.Rows.{AreRows};

use crate::axis_steps::axis_from;
use crate::counts::{axis_number, is_count, lone_step};
use crate::deep_steps::{is_all_below, is_tested_child};
use crate::forms::{applied, called, literal_number, nodes, signed};
use crate::ordering::{add, add_list, ordered};
use crate::place::Place;
use crate::predicates::{filter, filtered};
use crate::step_rows::step_rows;
use crate::tests_of_rows::are_tests;
use crate::truths::{all, any};
use doc_model::{Axes, Axis};
use std::alloc::Global;
use test_registry::Asks;
use text_base::{NoMemory, Seq, Txt};
use xpath_functions::number_of;
use xpath_parser::{Expr, Operand, Start, Step};
use xpath_values::Value;

/// The value of an expression.
#[cycle(evaluation)]
pub fn value_at<S: Axes, Q: Asks>(
    alloc: Global,
    source: &S,
    e: &Expr,
    place: Place,
    tests: &Q,
) -> Result<Value, NoMemory>
    requires row { place.row < length (S.document source.now) }
    requires tests { AsksOnly (Q.kinds tests.now) e.now }
    ensures value { IfOk result (λ v. v ≡ spec.denote (S.document source.now) e.now (context place)) }
    ensures rows { IfOk result (λ v. AreRows (S.document source.now) (rows_of v)) }
{
    match e {
        Expr::Or(es) => Ok(Value::Bool(any(alloc, source, es.as_slice(), place, tests)?)),
        Expr::And(es) => Ok(Value::Bool(all(alloc, source, es.as_slice(), place, tests)?)),
        Expr::Joined(first, operands) => {
            let value = value_at(alloc, source, first.get(), place, tests)?;
            joined(alloc, source, value, operands.as_slice(), place, tests)
        }
        Expr::Minus(signs, operand) => {
            let value = value_at(alloc, source, operand.get(), place, tests)?;
            Ok(Value::Num(signed(*signs, number_of(alloc, source, &value)?)))
        }
        Expr::Union(es) => Ok(Value::Nodes(union(alloc, source, es.as_slice(), place, tests)?)),
        Expr::Path(start, steps) => {
            let rows = started(alloc, source, start, place, tests)?;
            Ok(Value::Nodes(path(alloc, source, rows, steps.as_slice(), tests)?))
        }
        Expr::Filter(filtered, predicates) => {
            let value = value_at(alloc, source, filtered.get(), place, tests)?;
            Ok(Value::Nodes(filter(alloc, source, value, predicates.as_slice(), tests)?))
        }
        Expr::Literal(text) => Ok(Value::Str(Txt::of(alloc, text.as_str())?)),
        Expr::Number(n) => Ok(Value::Num(literal_number(n))),
        Expr::Call(func, es) => {
            if is_count(*func) {
                if let Some(step) = lone_step(es.as_slice()) {
                    return Ok(Value::Num(axis_number(source, place.row, step)));
                }
            }
            let args = values(alloc, source, es.as_slice(), place, tests)?;
            called(alloc, source, *func, &args, place, tests)
        }
    }
}

/// The values of expressions, in their order.
#[cycle(evaluation)]
fn values<S: Axes, Q: Asks>(
    alloc: Global,
    source: &S,
    es: &[Expr],
    place: Place,
    tests: &Q,
) -> Result<Seq<Value>, NoMemory>
    requires row { place.row < length (S.document source.now) }
    requires tests { All (AsksOnly (Q.kinds tests.now)) es.now }
    ensures values { IfOk result (λ vs. vs ≡ map (λ e. spec.denote (S.document source.now) e (context place)) es.now) }
    ensures rows { IfOk result (λ vs. AreWithin (S.document source.now) vs) }
{
    let mut found = Seq::new(alloc);
    for e in es {
        found.push(value_at(alloc, source, e, place, tests)?)?;
    }
    Ok(found)
}

/// A value joined with operands, from the left.
#[cycle(evaluation)]
fn joined<S: Axes, Q: Asks>(
    alloc: Global,
    source: &S,
    first: Value,
    operands: &[Operand],
    place: Place,
    tests: &Q,
) -> Result<Value, NoMemory>
    requires row { place.row < length (S.document source.now) }
    requires rows { AreRows (S.document source.now) (rows_of first) }
    requires tests { All (OperandAsks (Q.kinds tests.now)) operands.now }
    ensures value { IfOk result (λ v. v ≡ spec.joined (S.document source.now) first (map (λ o. spec.arm_at (S.document source.now) o (context place)) operands.now)) }
    ensures rows { IfOk result (λ v. AreRows (S.document source.now) (rows_of v)) }
{
    let mut value = first;
    for operand in operands {
        let right = value_at(alloc, source, &operand.value, place, tests)?;
        value = applied(alloc, source, operand.op, &value, &right)?;
    }
    Ok(value)
}

/// The rows of the expressions together.
#[cycle(evaluation)]
fn union<S: Axes, Q: Asks>(
    alloc: Global,
    source: &S,
    es: &[Expr],
    place: Place,
    tests: &Q,
) -> Result<Seq<u32>, NoMemory>
    requires row { place.row < length (S.document source.now) }
    requires tests { All (AsksOnly (Q.kinds tests.now)) es.now }
    ensures { IfOk result (λ found. found ≡ spec.rows_in (S.document source.now) es.now (λ e. rows_of (spec.denote (S.document source.now) e (context place)))) }
{
    let most = 2 * source.len() as usize;
    let mut found = Vec::new(alloc);
    for e in es {
        let value = value_at(alloc, source, e, place, tests)?;
        let rows = nodes(alloc, value);
        found = add(found, rows.as_slice(), most)?;
    }
    let rows = ordered(found);
    Ok(Seq::from_vec(rows))
}

/// The rows where a path starts.
#[cycle(evaluation)]
pub fn started<S: Axes, Q: Asks>(
    alloc: Global,
    source: &S,
    start: &Start,
    place: Place,
    tests: &Q,
) -> Result<Seq<u32>, NoMemory>
    requires row { place.row < length (S.document source.now) }
    requires tests { StartAsks (Q.kinds tests.now) start.now }
    ensures rows { IfOk result (λ rows. rows ≡ spec.start_of (S.document source.now) start.now (context place)) }
    ensures order { IfOk result (λ rows. AreRows (S.document source.now) rows) }
{
    match start {
        Start::Here => Ok(Seq::from_slice(alloc, &[place.row])?),
        Start::Root => Ok(Seq::from_slice(alloc, &[0])?),
        Start::From(e) => {
            let value = value_at(alloc, source, e.get(), place, tests)?;
            Ok(nodes(alloc, value))
        }
    }
}

/// The rows of a path from the rows where it starts.
#[cycle(evaluation)]
fn path<S: Axes, Q: Asks>(
    alloc: Global,
    source: &S,
    start: Seq<u32>,
    steps: &[Step],
    tests: &Q,
) -> Result<Seq<u32>, NoMemory>
    requires rows { AreRows (S.document source.now) start }
    requires tests { All (StepAsks (Q.kinds tests.now)) steps.now }
    ensures { IfOk result (λ found. found ≡ spec.path (S.document source.now) start (map (spec.walk_of (S.document source.now)) steps.now)) }
{
    first_steps(alloc, source, start, steps, steps.len(), tests)
}

/// The rows of the first so many steps of a path.
#[cycle(evaluation)]
pub fn first_steps<S: Axes, Q: Asks>(
    alloc: Global,
    source: &S,
    start: Seq<u32>,
    steps: &[Step],
    count: usize,
    tests: &Q,
) -> Result<Seq<u32>, NoMemory>
    requires rows { AreRows (S.document source.now) start }
    requires count { count ≤ length steps.now }
    requires tests { All (StepAsks (Q.kinds tests.now)) steps.now }
    ensures { IfOk result (λ found. found ≡ spec.path (S.document source.now) start (map (spec.walk_of (S.document source.now)) (take count steps.now))) }
{
    let mut rows = start;
    let mut i = 0;
    while i < count {
        if i + 1 < count && is_all_below(&steps[i]) && is_tested_child(&steps[i + 1]) {
            rows = all_below(alloc, source, rows.as_slice(), &steps[i + 1], tests)?;
            i += 2;
        } else {
            rows = after(alloc, source, rows.as_slice(), &steps[i], tests)?;
            i += 1;
        }
    }
    Ok(rows)
}

/// The rows below the rows that pass the test and the predicates of the step, whatever its axis.
#[cycle(evaluation)]
fn all_below<S: Axes, Q: Asks>(
    alloc: Global,
    source: &S,
    rows: &[u32],
    step: &Step,
    tests: &Q,
) -> Result<Seq<u32>, NoMemory>
    requires rows { AllBelow (length (S.document source.now)) rows.now }
    requires tests { StepAsks (Q.kinds tests.now) step.now }
    ensures { IfOk result (λ found. found ≡ spec.kept (map (spec.denote (S.document source.now)) (out-Step step.now).predicates)
        (spec.rows_in (S.document source.now) rows.now (λ x. axis_list (S.document source.now) x axis.Descendant (out-Step step.now).test))) }
{
    let mut found = axis_from(alloc, source, rows, Axis::Descendant, &step.test)?;
    filtered(alloc, source, &mut found, step.predicates.as_slice(), tests)?;
    Ok(Seq::from_vec(found))
}

/// The rows of a step from the rows together. Predicates that ask about the row alone are asked once for each row that
/// is found.
#[cycle(evaluation)]
fn after<S: Axes, Q: Asks>(
    alloc: Global,
    source: &S,
    rows: &[u32],
    step: &Step,
    tests: &Q,
) -> Result<Seq<u32>, NoMemory>
    requires rows { AllBelow (length (S.document source.now)) rows.now }
    requires tests { StepAsks (Q.kinds tests.now) step.now }
    ensures { IfOk result (λ found. found ≡ spec.rows_in (S.document source.now) rows.now (spec.walk_of (S.document source.now) step.now)) }
{
    if are_tests(step.predicates.as_slice()) {
        let mut found = axis_from(alloc, source, rows, step.axis, &step.test)?;
        filtered(alloc, source, &mut found, step.predicates.as_slice(), tests)?;
        return Ok(Seq::from_vec(found));
    }
    from_each(alloc, source, rows, step, tests)
}

/// The rows of a step from each of the rows.
#[cycle(evaluation)]
fn from_each<S: Axes, Q: Asks>(
    alloc: Global,
    source: &S,
    rows: &[u32],
    step: &Step,
    tests: &Q,
) -> Result<Seq<u32>, NoMemory>
    requires rows { AllBelow (length (S.document source.now)) rows.now }
    requires tests { StepAsks (Q.kinds tests.now) step.now }
    ensures { IfOk result (λ found. found ≡ spec.rows_in (S.document source.now) rows.now (spec.walk_of (S.document source.now) step.now)) }
{
    let most = 2 * source.len() as usize;
    let mut found = Vec::new(alloc);
    for x in rows {
        let walked = walk(alloc, source, *x, step, tests)?;
        found = add_list(found, walked, most)?;
    }
    Ok(Seq::from_vec(ordered(found)))
}

/// The rows of a step from one row, in the order of its axis.
#[cycle(evaluation)]
pub fn walk<S: Axes, Q: Asks>(
    alloc: Global,
    source: &S,
    x: u32,
    step: &Step,
    tests: &Q,
) -> Result<Vec<u32>, NoMemory>
    requires row { x < length (S.document source.now) }
    requires tests { StepAsks (Q.kinds tests.now) step.now }
    ensures { IfOk result (λ rows. rows.items ≡ spec.walk_of (S.document source.now) step.now x) }
{
    let mut rows = step_rows(alloc, source, x, step)?;
    filtered(alloc, source, &mut rows, step.predicates.as_slice(), tests)?;
    Ok(rows)
}
