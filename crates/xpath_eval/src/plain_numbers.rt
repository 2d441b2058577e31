//! Numbers that are told with no memory: those that are written out, counts of one step, and sums, differences, products
//! and remainders of such numbers.
ghost use Rattle.std.specs.Prelude.{◌≡◌, ◌<◌, length, map, IfSome};
ghost use Rattle.doc_model.specs.Document.{Document};
ghost use Rattle.xpath_values.specs.declared.value.Value.TheVariants.{Num};
ghost use Rattle.xpath_parser.specs.Denote as spec;
ghost use Rattle.xpath_parser.specs.Functions as functions;
ghost use Rattle.xpath_eval.specs.inner.Places.{context};

use crate::counts::{axis_number, is_count, lone_step};
use crate::forms::literal_number;
use crate::place::Place;
use doc_model::Axes;
use xpath_parser::{Expr, Func, Infix, Operand};
use xpath_values::{XNum, add, mul, rem, sub};

/// The number of an operator between two numbers.
fn computed(op: Infix, a: XNum, b: XNum) -> Option<XNum>
    ensures { IfSome result (λ n. (doc : Document) → spec.applied doc op (Num a) (Num b) ≡ Num n) }
{
    match op {
        Infix::Compare(_) => None,
        Infix::Add => Some(add(a, b)),
        Infix::Sub => Some(sub(a, b)),
        Infix::Mul => Some(mul(a, b)),
        Infix::Mod => Some(rem(a, b)),
    }
}

/// The value of a call, where it is the count of one step without predicates.
fn counted<S: Axes>(source: &S, func: Func, es: &[Expr], place: Place) -> Option<XNum>
    requires { place.row < length (S.document source.now) }
    ensures { IfSome result (λ n. functions.called (S.document source.now) func
        (map (λ e. spec.denote (S.document source.now) e (context place)) es.now) (context place) ≡ Num n) }
{
    if !is_count(func) {
        return None;
    }
    match lone_step(es) {
        Some(step) => Some(axis_number(source, place.row, step)),
        None => None,
    }
}

/// The value of an expression, where it is such a number.
#[cycle(plain_numbers)]
pub fn number_at<S: Axes>(source: &S, e: &Expr, place: Place) -> Option<XNum>
    requires { place.row < length (S.document source.now) }
    ensures { IfSome result (λ n. spec.denote (S.document source.now) e.now (context place) ≡ Num n) }
{
    match e {
        Expr::Number(n) => Some(literal_number(n)),
        Expr::Call(func, es) => counted(source, *func, es.as_slice(), place),
        Expr::Joined(first, operands) => match number_at(source, first.get(), place) {
            Some(value) => number_joined(source, value, operands.as_slice(), place),
            None => None,
        },
        _ => None,
    }
}

/// The value of a number joined with operands, from the left, where each is such a number.
#[cycle(plain_numbers)]
fn number_joined<S: Axes>(
    source: &S,
    first: XNum,
    operands: &[Operand],
    place: Place,
) -> Option<XNum>
    requires { place.row < length (S.document source.now) }
    ensures { IfSome result (λ n. spec.joined (S.document source.now) (Num first)
        (map (λ o. spec.arm_at (S.document source.now) o (context place)) operands.now) ≡ Num n) }
{
    let mut value = first;
    for operand in operands {
        match number_at(source, &operand.value, place) {
            None => return None,
            Some(right) => match computed(operand.op, value, right) {
                None => return None,
                Some(next) => value = next,
            },
        }
    }
    Some(value)
}
