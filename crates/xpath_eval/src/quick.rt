//! Comparisons that are answered with no memory.
ghost use Rattle.std.specs.Prelude.{◌≡◌, ◌<◌, length, filter, map, IsTrue, IfSome};
ghost use Rattle.std.specs.Str.{chars};
ghost use Rattle.doc_model.specs.Attributes.{is_attribute_of};
ghost use Rattle.doc_model.specs.Document.{rows};
ghost use Rattle.doc_model.specs.declared.Axis.TheVariants as axis_is;
ghost use Rattle.xpath_values.specs.declared.value.Value.TheVariants.{Nodes, Bool as Truth};
ghost use Rattle.xpath_parser.specs.Conversions as conversions;
ghost use Rattle.xpath_parser.specs.Denote as spec;
ghost use Rattle.xpath_eval.specs.inner.Places.{context};
ghost use Rattle.xpath_eval.specs.inner.Sides as sides;
ghost use Rattle.xpath_eval.specs.inner.Sides.{IsSide};
ghost use Rattle.xpath_eval.specs.inner.Steps.{IsAttributePath, IsAttributeStep};

use crate::counts::lone_path;
use crate::place::Place;
use crate::plain_numbers::number_at;
use doc_model::{Axes, Axis, NodeTest, attribute_named};
use xpath_parser::{Expr, Infix, Operand, Step};
use xpath_values::{Atom, Compare, compare_atoms};

/// What a comparison sees of a value.
#[derive(Clone, Copy)]
pub enum Side<'a> {
    /// A node-set without rows.
    Nothing,
    /// A number, a text, or the string value of the one row of a node-set.
    One(Atom<'a>),
}

fn is_attribute_axis(axis: Axis) -> bool
    ensures { IsTrue result → axis ≡ axis_is.Attribute }
{
    matches!(axis, Axis::Attribute)
}

/// The name that a step to an attribute asks for.
pub fn step_name(step: &Step) -> Option<&str>
    ensures { IfSome result (λ n. IsAttributeStep step.now (chars n.now)) }
{
    if !is_attribute_axis(step.axis) {
        return None;
    }
    match &step.test {
        NodeTest::Name(name) => Some(name.as_str()),
        _ => None,
    }
}

/// The name of the attribute, where an expression is one step to it without predicates.
pub fn attribute_name(e: &Expr) -> Option<&str>
    ensures { IfSome result (λ n. IsAttributePath e.now (chars n.now)) }
{
    match lone_path(e) {
        Some(step) => step_name(step),
        None => None,
    }
}

/// What a comparison sees of the attribute of a row that has the name.
fn attribute_side<'a, S: Axes>(source: &'a S, x: u32, name: &str) -> Side<'a>
    requires { x < length (S.document source.now) }
    ensures { IsSide (S.document source.now) (Nodes (filter (is_attribute_of (S.document source.now) x (chars name.now)) (rows (S.document source.now)))) result }
{
    match attribute_named(source, x, &name) {
        Some(y) => Side::One(Atom::Str(source.text(y))),
        None => Side::Nothing,
    }
}

/// What a comparison sees of an expression, where it is a text, one step to an attribute or a number that is told with no
/// memory.
fn side_of<'a, S: Axes>(source: &'a S, e: &'a Expr, place: Place) -> Option<Side<'a>>
    requires { place.row < length (S.document source.now) }
    ensures { IfSome result (λ s. IsSide (S.document source.now) (spec.denote (S.document source.now) e.now (context place)) s) }
{
    if let Some(name) = attribute_name(e) {
        return Some(attribute_side(source, place.row, name));
    }
    match e {
        Expr::Literal(text) => Some(Side::One(Atom::Str(text.as_str()))),
        _ => match number_at(source, e, place) {
            Some(number) => Some(Side::One(Atom::Num(number))),
            None => None,
        },
    }
}

/// Whether a comparison holds, XPath 1.0, section 3.4. With a node-set that has no rows none does.
fn sides_fit(op: Compare, a: Side<'_>, b: Side<'_>) -> bool
    ensures { result ≡ sides.sides_fit op a.entry b.entry }
{
    match (a, b) {
        (Side::One(a), Side::One(b)) => compare_atoms(op, a, b),
        _ => false,
    }
}

/// Whether a comparison of two expressions holds, where both are seen with no memory.
fn fits_at<S: Axes>(source: &S, op: Compare, a: &Expr, b: &Expr, place: Place) -> Option<bool>
    requires { place.row < length (S.document source.now) }
    ensures { IfSome result (λ r. r ≡ conversions.fits (S.document source.now) op
        (spec.denote (S.document source.now) a.now (context place)) (spec.denote (S.document source.now) b.now (context place))) }
{
    let left = side_of(source, a, place)?;
    let right = side_of(source, b, place)?;
    Some(sides_fit(op, left, right))
}

/// The truth of a value joined with operands, where that is one comparison which is told with no memory.
pub fn compared<S: Axes>(
    source: &S,
    first: &Expr,
    operands: &[Operand],
    place: Place,
) -> Option<bool>
    requires { place.row < length (S.document source.now) }
    ensures { IfSome result (λ b. spec.joined (S.document source.now) (spec.denote (S.document source.now) first.now (context place))
        (map (λ o. spec.arm_at (S.document source.now) o (context place)) operands.now) ≡ Truth b) }
{
    if operands.len() != 1 {
        return None;
    }
    let operand = &operands[0];
    match operand.op {
        Infix::Compare(op) => fits_at(source, op, first, &operand.value, place),
        _ => None,
    }
}
