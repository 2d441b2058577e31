//! What predicates keep of lists of rows. A predicate leads back to the value of an expression.
ghost use Rattle.std.specs.Prelude.{◌≡◌, ◌<◌, ◌≤◌, length, map, IfOk, OnOk};
ghost use Rattle.std.specs.List.{All};
ghost use Rattle.xpath_parser.specs.Asking.{AsksOnly};
ghost use Rattle.xpath_parser.specs.Conversions.{rows_of};
ghost use Rattle.xpath_parser.specs.Denote as spec;
ghost use Rattle.xpath_eval.specs.inner.Places.{context};
ghost use Rattle.doc_model.specs.RowLists.{AllBelow};
ghost use Rattle.xpath_eval.specs.Rows.{AreRows};

use crate::counts::only;
use crate::evaluation::value_at;
use crate::forms::{keeps, put_if, rows_of_nodes};
use crate::place::Place;
use crate::tests_of_rows::is_no_number;
use crate::truths::is_true;
use doc_model::Axes;
use std::alloc::Global;
use test_registry::Asks;
use text_base::{NoMemory, Seq};
use xpath_parser::Expr;
use xpath_values::Value;

/// The rows of a value at which the predicates hold.
#[cycle(evaluation)]
pub fn filter<S: Axes, Q: Asks>(
    alloc: Global,
    source: &S,
    value: Value,
    predicates: &[Expr],
    tests: &Q,
) -> Result<Seq<u32>, NoMemory>
    requires rows { AreRows (S.document source.now) (rows_of value) }
    requires tests { All (AsksOnly (Q.kinds tests.now)) predicates.now }
    ensures { IfOk result (λ found. found ≡ spec.kept (map (spec.denote (S.document source.now)) predicates.now) (rows_of value)) }
{
    let mut rows = rows_of_nodes(alloc, source, value)?;
    filtered(alloc, source, &mut rows, predicates, tests)?;
    Ok(Seq::from_vec(rows))
}

/// Leaves the rows at which each predicate holds, in turn.
#[cycle(evaluation)]
pub fn filtered<S: Axes, Q: Asks>(
    alloc: Global,
    source: &S,
    rows: &mut Vec<u32>,
    predicates: &[Expr],
    tests: &Q,
) -> Result<(), NoMemory>
    requires within { AllBelow (length (S.document source.now)) rows.old.items }
    requires few { length rows.old.items ≤ length (S.document source.now) }
    requires tests { All (AsksOnly (Q.kinds tests.now)) predicates.now }
    ensures { OnOk result (rows.new.items ≡ spec.kept (map (spec.denote (S.document source.now)) predicates.now) rows.old.items) }
{
    for predicate in predicates {
        kept(alloc, source, predicate, rows, tests)?;
    }
    Ok(())
}

/// Leaves the rows at which the predicate holds. A number that is written out is looked up, with no walk over the rows.
#[cycle(evaluation)]
fn kept<S: Axes, Q: Asks>(
    alloc: Global,
    source: &S,
    predicate: &Expr,
    rows: &mut Vec<u32>,
    tests: &Q,
) -> Result<(), NoMemory>
    requires within { AllBelow (length (S.document source.now)) rows.old.items }
    requires few { length rows.old.items ≤ length (S.document source.now) }
    requires tests { AsksOnly (Q.kinds tests.now) predicate.now }
    ensures { OnOk result (rows.new.items ≡ spec.kept_from (spec.denote (S.document source.now) predicate.now) (length rows.old.items) 1 rows.old.items) }
{
    if let Expr::Number(n) = predicate {
        only(n, rows);
        return Ok(());
    }
    tried(alloc, source, predicate, rows, tests)
}

/// Leaves the rows at which the predicate holds, asked row by row.
#[cycle(evaluation)]
fn tried<S: Axes, Q: Asks>(
    alloc: Global,
    source: &S,
    predicate: &Expr,
    rows: &mut Vec<u32>,
    tests: &Q,
) -> Result<(), NoMemory>
    requires within { AllBelow (length (S.document source.now)) rows.old.items }
    requires few { length rows.old.items ≤ length (S.document source.now) }
    requires tests { AsksOnly (Q.kinds tests.now) predicate.now }
    ensures { OnOk result (rows.new.items ≡ spec.kept_from (spec.denote (S.document source.now) predicate.now) (length rows.old.items) 1 rows.old.items) }
{
    let size = rows.len() as u32;
    let mut position = 0;
    let mut end = 0;
    while position < size {
        let row = rows[position as usize];
        position += 1;
        let wanted = holds(
            alloc,
            source,
            predicate,
            Place {
                row,
                position,
                size,
            },
            tests,
        )?;
        end = put_if(rows, end, row, wanted);
    }
    rows.truncate(end);
    Ok(())
}

/// Whether a predicate holds at a place. Of one that is seen to be no number it is asked whether it is true.
#[cycle(evaluation)]
fn holds<S: Axes, Q: Asks>(
    alloc: Global,
    source: &S,
    predicate: &Expr,
    place: Place,
    tests: &Q,
) -> Result<bool, NoMemory>
    requires row { place.row < length (S.document source.now) }
    requires tests { AsksOnly (Q.kinds tests.now) predicate.now }
    ensures { IfOk result (λ b. b ≡ spec.keeps place.position (spec.denote (S.document source.now) predicate.now (context place))) }
{
    if is_no_number(predicate) {
        return is_true(alloc, source, predicate, place, tests);
    }
    let value = value_at(alloc, source, predicate, place, tests)?;
    Ok(keeps(place.position, &value))
}
