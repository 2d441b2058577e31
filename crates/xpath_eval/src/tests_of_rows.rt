//! Predicates that ask about the row alone, whatever its position. They may be asked once for each row, after the rows
//! of all context rows have been put together.
ghost use Rattle.std.specs.Prelude.{◌≡◌, IsTrue};
ghost use Rattle.xpath_eval.specs.inner.Tests.{AreTests, EachOperandPlaceless, EndsCompared, EachPlaceless, IsNoNumber, IsPlaceless, IsPlacelessStart, IsTest, compares, gives_number, is_placed};

use xpath_parser::{Expr, Func, Infix, Operand, Start};

/// Whether a function asks for the position or the size of the context.
fn asks_for_place(func: Func) -> bool
    ensures { result ≡ is_placed func }
{
    matches!(func, Func::Last | Func::Position)
}

/// Whether a function gives a number.
fn gives_number(func: Func) -> bool
    ensures { result ≡ gives_number func }
{
    matches!(
        func,
        Func::Last
            | Func::Position
            | Func::Count
            | Func::StringLength
            | Func::Number
            | Func::Sum
            | Func::Floor
            | Func::Ceiling
            | Func::Round
    )
}

/// Whether an expression is seen to have one value at all positions: it asks for none, but in predicates.
#[cycle(placeless)]
fn is_placeless(e: &Expr) -> bool
    ensures { IsTrue result → IsPlaceless e.now }
{
    match e {
        Expr::Or(es) => are_placeless(es.as_slice()),
        Expr::And(es) => are_placeless(es.as_slice()),
        Expr::Joined(first, operands) => {
            is_placeless(first.get()) && operands_are_placeless(operands.as_slice())
        }
        Expr::Minus(_, operand) => is_placeless(operand.get()),
        Expr::Union(es) => are_placeless(es.as_slice()),
        Expr::Path(start, _) => starts_placeless(start),
        Expr::Filter(filtered, _) => is_placeless(filtered.get()),
        Expr::Literal(_) => true,
        Expr::Number(_) => true,
        Expr::Call(func, es) => !asks_for_place(*func) && are_placeless(es.as_slice()),
    }
}

/// Whether a path is seen to start at the same rows at all positions.
#[cycle(placeless)]
fn starts_placeless(start: &Start) -> bool
    ensures { IsTrue result → IsPlacelessStart start.now }
{
    match start {
        Start::Here => true,
        Start::Root => true,
        Start::From(e) => is_placeless(e.get()),
    }
}

/// Whether all of the expressions are.
#[cycle(placeless)]
fn are_placeless(es: &[Expr]) -> bool
    ensures { IsTrue result → EachPlaceless es.now }
{
    for e in es {
        if !is_placeless(e) {
            return false;
        }
    }
    true
}

/// Whether the values of all operands are.
#[cycle(placeless)]
fn operands_are_placeless(operands: &[Operand]) -> bool
    ensures { IsTrue result → EachOperandPlaceless operands.now }
{
    for operand in operands {
        if !is_placeless(&operand.value) {
            return false;
        }
    }
    true
}

fn is_compared(op: Infix) -> bool
    ensures { result ≡ compares op }
{
    match op {
        Infix::Compare(_) => true,
        Infix::Add | Infix::Sub | Infix::Mul | Infix::Mod => false,
    }
}

/// Whether the last of the operands is compared.
fn ends_compared(operands: &[Operand]) -> bool
    ensures { IsTrue result → EndsCompared operands.now }
{
    if operands.len() == 0 {
        return false;
    }
    let last = &operands[operands.len() - 1];
    is_compared(last.op)
}

/// Whether the value of an expression is seen to be no number.
pub fn is_no_number(e: &Expr) -> bool
    ensures { IsTrue result → IsNoNumber e.now }
{
    match e {
        Expr::Or(_) => true,
        Expr::And(_) => true,
        Expr::Joined(_, operands) => ends_compared(operands.as_slice()),
        Expr::Minus(_, _) => false,
        Expr::Union(_) => true,
        Expr::Path(_, _) => true,
        Expr::Filter(_, _) => true,
        Expr::Literal(_) => true,
        Expr::Number(_) => false,
        Expr::Call(func, _) => !gives_number(*func),
    }
}

fn is_test(e: &Expr) -> bool
    ensures { IsTrue result → IsTest e.now }
{
    is_no_number(e) && is_placeless(e)
}

/// Whether all of the predicates are seen to ask about the row alone.
pub fn are_tests(es: &[Expr]) -> bool
    ensures { IsTrue result → AreTests es.now }
{
    for e in es {
        if !is_test(e) {
            return false;
        }
    }
    true
}
