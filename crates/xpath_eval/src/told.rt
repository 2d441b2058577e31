//! Whether an expression is true, where that is told with no memory.
ghost use Rattle.std.specs.Prelude.{◌≡◌, ◌<◌, length, nat_lt, IfSome};
ghost use Rattle.doc_model.specs.Axes.{axis_list};
ghost use Rattle.xpath_parser.specs.declared.expression.Step.{out-Step};
ghost use Rattle.xpath_parser.specs.Conversions as conversions;
ghost use Rattle.xpath_parser.specs.Denote as spec;
ghost use Rattle.xpath_eval.specs.inner.Places.{context};

use crate::counts::lone_path;
use crate::place::Place;
use crate::quick::{compared, step_name};
use crate::words::call_told;
use doc_model::{Axes, attribute_named};
use xpath_parser::{Expr, Step};

/// Whether a step without predicates gives a row from a row. An attribute is looked up by its name.
fn gives_any<S: Axes>(source: &S, x: u32, step: &Step) -> bool
    requires { x < length (S.document source.now) }
    ensures { result ≡ nat_lt 0 (length (axis_list (S.document source.now) x (out-Step step.now).axis (out-Step step.now).test)) }
{
    match step_name(step) {
        Some(name) => attribute_named(source, x, &name).is_some(),
        None => source.axis_any(x, step.axis, &step.test),
    }
}

/// Whether an expression is true at a place, where it is one step without predicates, one comparison of texts, numbers and
/// attributes of the row, or the test of one word of an attribute of the row.
pub fn told<S: Axes>(source: &S, e: &Expr, place: Place) -> Option<bool>
    requires { place.row < length (S.document source.now) }
    ensures { IfSome result (λ b. b ≡ conversions.truth_of (spec.denote (S.document source.now) e.now (context place))) }
{
    if let Some(step) = lone_path(e) {
        return Some(gives_any(source, place.row, step));
    }
    match e {
        Expr::Joined(first, operands) => {
            compared(source, first.get(), operands.as_slice(), place)
        }
        Expr::Call(func, es) => call_told(source, *func, es.as_slice(), place),
        _ => None,
    }
}
