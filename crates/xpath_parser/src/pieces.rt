//! What the rules are made of.
ghost use Rattle.std.specs.Prelude.{◌≡◌, ◌∷◌, [], IfOk, option_copied};
ghost use Rattle.xpath_parser.specs.Grammar as grammar;
ghost use Rattle.xpath_parser.specs.Reader as spec;
ghost use Rattle.xpath_parser.specs.inner.Parsing.{joins_at, listed};

use crate::expression::{Expr, Infix, Step};
use crate::term::{NodeType, Term};
use doc_model::{Axis, NodeTest};
use std::alloc::Global;
use text_base::{Boxed, NoMemory, Seq, Txt};
use xpath_values::Compare;

pub fn test_of_type(kind: NodeType) -> NodeTest
    ensures { result ≡ grammar.test_of_type kind }
{
    match kind {
        NodeType::Node => NodeTest::Node,
        NodeType::Text => NodeTest::Text,
        NodeType::Comment => NodeTest::Comment,
        NodeType::Instruction => NodeTest::Instruction,
    }
}

/// What `//` stands for.
pub fn any_below(alloc: Global) -> Step
    ensures { result ≡ grammar.any_below }
{
    Step {
        axis: Axis::DescendantOrSelf,
        test: NodeTest::Node,
        predicates: Seq::new(alloc),
    }
}

pub fn only_any_below(alloc: Global) -> Result<Seq<Step>, NoMemory>
    ensures { IfOk result (λ found. found ≡ grammar.any_below ∷ []) }
{
    let mut found = Seq::new(alloc);
    found.push(any_below(alloc))?;
    Ok(found)
}

/// The empty text.
pub fn no_text(alloc: Global) -> Txt
    ensures { result ≡ [] }
{
    Txt::from_string(String::new(alloc))
}

pub fn begins_step(term: Option<&Term>) -> bool
    ensures { result ≡ spec.begins_step_at (option_copied term.entry) }
{
    matches!(
        term,
        Some(
            Term::Dot
                | Term::DotDot
                | Term::At
                | Term::Axis(_)
                | Term::AnyName
                | Term::Name(_)
                | Term::Prefixed
                | Term::NodeType(_)
        )
    )
}

pub fn begins_primary(term: Option<&Term>) -> bool
    ensures { result ≡ spec.begins_primary_at (option_copied term.entry) }
{
    matches!(
        term,
        Some(
            Term::OpenRound
                | Term::Function(_)
                | Term::UnknownFunction
                | Term::Literal(_)
                | Term::Number(_)
                | Term::Fraction
                | Term::TooLarge
                | Term::Variable
        )
    )
}

/// Whether a literal may stand in the brackets of the node type, and stands there.
pub fn takes_literal(kind: NodeType, term: Option<&Term>) -> bool
    ensures { result ≡ spec.takes_literal kind (option_copied term.entry) }
{
    match kind {
        NodeType::Instruction => matches!(term, Some(Term::Literal(_))),
        _ => false,
    }
}

pub fn is_sign(term: Option<&Term>) -> bool
    ensures { result ≡ spec.is_sign (option_copied term.entry) }
{
    matches!(term, Some(Term::Minus))
}

/// How loosely an operator joins: see `tier_of` of the grammar.
fn tier_of(term: &Term) -> usize
    ensures { result ≡ grammar.tier_of term.now }
{
    match term {
        Term::Bar => 1,
        Term::Times | Term::Mod | Term::Div => 3,
        Term::Plus | Term::Minus => 4,
        Term::Less | Term::LessEqual | Term::Greater | Term::GreaterEqual => 5,
        Term::Equal | Term::Unequal => 6,
        Term::And => 7,
        Term::Or => 8,
        Term::CloseRound | Term::CloseSquare | Term::Comma => 9,
        _ => 0,
    }
}

/// Whether the term is an operator of the tier.
pub fn joins(term: Option<&Term>, tier: usize) -> bool
    ensures { result ≡ joins_at tier (option_copied term.entry) }
{
    match term {
        Some(term) => tier_of(term) == tier,
        None => false,
    }
}

/// The operator that a term of the tiers 3 to 6 stands for.
pub fn operator(term: &Term) -> Infix
    ensures { result ≡ grammar.operator term.now }
{
    match term {
        Term::Times => Infix::Mul,
        Term::Plus => Infix::Add,
        Term::Minus => Infix::Sub,
        Term::Less => Infix::Compare(Compare::Less),
        Term::LessEqual => Infix::Compare(Compare::LessEqual),
        Term::Greater => Infix::Compare(Compare::Greater),
        Term::GreaterEqual => Infix::Compare(Compare::GreaterEqual),
        Term::Equal => Infix::Compare(Compare::Equal),
        Term::Unequal => Infix::Compare(Compare::Unequal),
        _ => Infix::Mod,
    }
}

/// An expression with its predicates, if it has any.
pub fn filtered(alloc: Global, found: Expr, predicates: Seq<Expr>) -> Result<Expr, NoMemory>
    ensures { IfOk result (λ e. e ≡ grammar.filtered found predicates) }
{
    if predicates.is_empty() {
        return Ok(found);
    }
    Ok(Expr::Filter(Boxed::new(alloc, found)?, predicates))
}

/// An operand with its signs, if it has any.
pub fn negated(alloc: Global, count: u32, operand: Expr) -> Result<Expr, NoMemory>
    ensures { IfOk result (λ e. e ≡ grammar.negated count operand) }
{
    if count == 0 {
        return Ok(operand);
    }
    Ok(Expr::Minus(count, Boxed::new(alloc, operand)?))
}

/// The operands of tier 1, 7 or 8 as one expression.
pub fn list_of(tier: usize, operands: Seq<Expr>) -> Expr
    ensures { result ≡ listed tier operands }
{
    match tier {
        1 => Expr::Union(operands),
        7 => Expr::And(operands),
        _ => Expr::Or(operands),
    }
}
