//! The shape of an expression, and whether its parts have the shapes that they must have.
ghost use Rattle.std.specs.Prelude.{◌≡◌, ◌&&◌, map};
ghost use Rattle.std.specs.List.{list_all};
ghost use Rattle.xpath_parser.specs.Shapes as spec;
ghost use Rattle.xpath_parser.specs.inner.Typings.{start_right, step_right, operand_typed, operand_right, fits};

use crate::expression::{Expr, Func, Infix, Operand, Start, Step};
use crate::faults::takes;
use xpath_values::Shape;

fn is_nodes(shape: Shape) -> bool
    ensures { result ≡ spec.is_nodes shape }
{
    matches!(shape, Shape::Nodes)
}

fn infix_shape(op: Infix) -> Shape
    ensures { result ≡ spec.infix_shape op }
{
    match op {
        Infix::Compare(_) => Shape::Bool,
        _ => Shape::Num,
    }
}

/// Whether what was found of an expression is right, and nodes.
fn right_nodes(found: (Shape, bool)) -> bool
    ensures { result ≡ (found.1 && spec.is_nodes found.0) }
{
    found.1 && is_nodes(found.0)
}

/// The shape of operands that are joined, by that of the first.
fn joined_shape(first: Shape, operands: &[Operand]) -> Shape
    ensures { result ≡ spec.joined_shape first (map operand_typed operands.now) }
{
    match operands.first() {
        Some(operand) => infix_shape(operand.op),
        None => first,
    }
}

/// What a function gives, XPath 1.0, section 4.
fn function_shape(function: Func) -> Shape
    ensures { result ≡ spec.function_shape function }
{
    match function {
        Func::Id => Shape::Nodes,
        Func::Last | Func::Position | Func::Count | Func::StringLength => Shape::Num,
        Func::Number | Func::Sum | Func::Floor | Func::Ceiling | Func::Round => Shape::Num,
        Func::StartsWith | Func::Contains | Func::Boolean | Func::Not => Shape::Bool,
        Func::True | Func::False | Func::Lang | Func::Stored(_) => Shape::Bool,
        _ => Shape::Str,
    }
}

/// Whether a function's arguments must be nodes.
fn wants_nodes(function: Func) -> bool
    ensures { result ≡ spec.wants_nodes function }
{
    matches!(
        function,
        Func::Count | Func::LocalName | Func::NamespaceUri | Func::Name | Func::Sum
    )
}

/// Whether an expression is typed right, and nodes where they are wanted.
#[cycle(typing)]
fn fits(e: &Expr, wanted: bool) -> bool
    ensures { result ≡ fits wanted e.now }
{
    let (shape, right) = typing(e);
    right && (!wanted || is_nodes(shape))
}

/// Whether all of the expressions are so.
#[cycle(typing)]
fn all_fit(es: &[Expr], wanted: bool) -> bool
    ensures { result ≡ list_all (fits wanted) es.now }
{
    for e in es {
        if !fits(e, wanted) {
            return false;
        }
    }
    true
}

/// Whether all of the operands are typed right.
#[cycle(typing)]
fn operands_right(operands: &[Operand]) -> bool
    ensures { result ≡ list_all operand_right operands.now }
{
    for operand in operands {
        if !fits(&operand.value, false) {
            return false;
        }
    }
    true
}

/// Whether the predicates of all of the steps are typed right.
#[cycle(typing)]
fn steps_right(steps: &[Step]) -> bool
    ensures { result ≡ list_all step_right steps.now }
{
    for step in steps {
        if !all_fit(step.predicates.as_slice(), false) {
            return false;
        }
    }
    true
}

/// Whether it is typed right where a path starts.
#[cycle(typing)]
fn start_right(start: &Start) -> bool
    ensures { result ≡ start_right start.now }
{
    match start {
        Start::Here => true,
        Start::Root => true,
        Start::From(e) => fits(e.get(), true),
    }
}

/// The shape of an expression, and whether all in it is typed right.
#[cycle(typing)]
pub fn typing(e: &Expr) -> (Shape, bool)
    ensures shape { result.0 ≡ (spec.typing e.now).shape }
    ensures right { result.1 ≡ (spec.typing e.now).right }
{
    match e {
        Expr::Or(es) => (Shape::Bool, all_fit(es.as_slice(), false)),
        Expr::And(es) => (Shape::Bool, all_fit(es.as_slice(), false)),
        Expr::Joined(first, operands) => {
            let found = typing(first.get());
            let operands = operands.as_slice();
            (
                joined_shape(found.0, operands),
                found.1 && operands_right(operands),
            )
        }
        Expr::Minus(_, e) => (Shape::Num, typing(e.get()).1),
        Expr::Union(es) => (Shape::Nodes, all_fit(es.as_slice(), true)),
        Expr::Path(start, steps) => (
            Shape::Nodes,
            start_right(start) && steps_right(steps.as_slice()),
        ),
        Expr::Filter(e, predicates) => {
            let found = typing(e.get());
            (
                found.0,
                right_nodes(found) && all_fit(predicates.as_slice(), false),
            )
        }
        Expr::Literal(_) => (Shape::Str, true),
        Expr::Number(_) => (Shape::Num, true),
        Expr::Call(function, es) => (
            function_shape(*function),
            takes(*function, es.len()) && all_fit(es.as_slice(), wants_nodes(*function)),
        ),
    }
}
