//! The value of an expression at a row.
ghost use Rattle.std.specs.Prelude.{◌≡◌, ◌<◌, length, IfOk};
ghost use Rattle.test_registry.specs.View.{known};
ghost use Rattle.xpath_parser.specs.Asking.{AsksNone, AsksOnly};
ghost use Rattle.xpath_parser.specs.Conversions.{rows_of};
ghost use Rattle.xpath_parser.specs.Denote.{denote};
ghost use Rattle.xpath_parser.specs.Typed.{expression};
ghost use Rattle.xpath_eval.specs.Rows.{AreRows};

use crate::evaluation::value_at;
use crate::place::Place;
use doc_model::Axes;
use std::alloc::Global;
use test_registry::Tests;
use text_base::NoMemory;
use xpath_parser::Typed;
use xpath_values::Value;

/// The value of the expression at a row, which is the context row, at position 1 of a context of size 1. It asks the
/// stored tests that the expression calls. The rows of a node-set are in document order, each once.
pub fn eval_with<S: Axes>(
    alloc: Global,
    source: &S,
    e: &Typed,
    node: u32,
    tests: &Tests,
) -> Result<Value, NoMemory>
    requires row { node < length (S.document source.now) }
    requires tests { AsksOnly (known tests.now) (expression e.now) }
    ensures value { IfOk result (λ v. v ≡ denote (S.document source.now) (expression e.now) (record { row = node; position = 1; size = 1 })) }
    ensures rows { IfOk result (λ v. AreRows (S.document source.now) (rows_of v)) }
{
    value_at(
        alloc,
        source,
        e.expr(),
        Place {
            row: node,
            position: 1,
            size: 1,
        },
        tests,
    )
}

/// The same of an expression of XPath 1.0 alone, which calls no stored test.
pub fn eval<S: Axes>(alloc: Global, source: &S, e: &Typed, node: u32) -> Result<Value, NoMemory>
    requires row { node < length (S.document source.now) }
    requires tests { AsksNone (expression e.now) }
    ensures value { IfOk result (λ v. v ≡ denote (S.document source.now) (expression e.now) (record { row = node; position = 1; size = 1 })) }
    ensures rows { IfOk result (λ v. AreRows (S.document source.now) (rows_of v)) }
{
    value_at(
        alloc,
        source,
        e.expr(),
        Place {
            row: node,
            position: 1,
            size: 1,
        },
        &Tests::new(alloc),
    )
}
