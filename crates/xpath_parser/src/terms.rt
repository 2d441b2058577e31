//! The lexical rule of XPath 1.0, section 3.7.
ghost use Rattle.std.specs.Prelude.{◌≡◌, [], None, IfOk, drop, map};
ghost use Rattle.test_registry.specs.View.{known};
ghost use Rattle.xpath_lexer.specs.declared.token.XKind.TheVariants as kind;
ghost use Rattle.xpath_lexer.specs.Places.{lexeme_of};
ghost use Rattle.text_base.specs.Names.{named_in};
ghost use Rattle.xpath_parser.specs.Terms as spec;

use crate::expression::Func;
use crate::names::{axis_named, function_named, node_type_named};
use crate::numbers::number_term;
use crate::term::Term;
use std::alloc::Global;
use test_registry::Tests;
use text_base::{NoMemory, Seq, Txt};
use xpath_lexer::{XKind, XTok};

/// A name at an operator's place.
#[tactic(auto, unfolding(crate::specs::Terms::operator_names))]
fn operator_term(name: &str) -> Term
    ensures { result ≡ spec.operator_term (named_in spec.operator_names name.now) }
{
    if name == "or" {
        Term::Or
    } else if name == "and" {
        Term::And
    } else if name == "mod" {
        Term::Mod
    } else if name == "div" {
        Term::Div
    } else {
        Term::Unknown
    }
}

/// A name before `::`.
fn axis_term(name: &str) -> Term
    ensures { result ≡ spec.axis_term (named_in spec.axis_names name.now) }
{
    match axis_named(name) {
        Some(axis) => Term::Axis(axis),
        None => Term::Unknown,
    }
}

/// The function of that name, or the stored test.
fn function_of(tests: &Tests, name: &str) -> Option<Func>
    ensures { result ≡ spec.function_of (known tests.now) name.now }
{
    if let Some(function) = function_named(name) {
        return Some(function);
    }
    match tests.find(name) {
        Some(kind) => Some(Func::Stored(kind)),
        None => None,
    }
}

/// A name before `(`.
fn called_term(tests: &Tests, name: &str) -> Term
    ensures { result ≡ spec.called_term_over (known tests.now) (named_in spec.node_type_names name.now) name.now }
{
    if let Some(kind) = node_type_named(name) {
        return Term::NodeType(kind);
    }
    match function_of(tests, name) {
        Some(function) => Term::Function(function),
        None => Term::UnknownFunction,
    }
}

/// A name, by what stands before and after it.
fn name_term(
    alloc: Global,
    tests: &Tests,
    after: bool,
    name: &str,
    next: Option<XKind>,
) -> Result<Term, NoMemory>
    ensures { IfOk result (λ t. t ≡ spec.term_of_over (known tests.now) after kind.Name name.now next) }
{
    if after {
        return Ok(operator_term(name));
    }
    match next {
        Some(XKind::DoubleColon) => Ok(axis_term(name)),
        Some(XKind::OpenRound) => Ok(called_term(tests, name)),
        _ => Ok(Term::Name(Txt::of(alloc, name)?)),
    }
}

fn star_term(after: bool) -> Term
    ensures { result ≡ spec.term_of after kind.Star [] None }
{
    if after { Term::Times } else { Term::AnyName }
}

/// What a token is. `after` says that the token before it is there and is none of `@`, `::`, `(`,
/// `[`, `,` and an operator.
fn term_of(
    alloc: Global,
    tests: &Tests,
    after: bool,
    kind: XKind,
    text: &str,
    next: Option<XKind>,
) -> Result<Term, NoMemory>
    ensures { IfOk result (λ t. t ≡ spec.term_of_over (known tests.now) after kind text.now next) }
{
    Ok(match kind {
        XKind::Name => name_term(alloc, tests, after, text, next)?,
        XKind::Star => star_term(after),
        XKind::Literal => Term::Literal(Txt::of(alloc, text)?),
        XKind::Number => number_term(text),
        XKind::Prefixed => Term::Prefixed,
        XKind::Variable => Term::Variable,
        XKind::OpenRound => Term::OpenRound,
        XKind::CloseRound => Term::CloseRound,
        XKind::OpenSquare => Term::OpenSquare,
        XKind::CloseSquare => Term::CloseSquare,
        XKind::Dot => Term::Dot,
        XKind::DotDot => Term::DotDot,
        XKind::At => Term::At,
        XKind::Comma => Term::Comma,
        XKind::DoubleColon => Term::DoubleColon,
        XKind::Slash => Term::Slash,
        XKind::DoubleSlash => Term::DoubleSlash,
        XKind::Bar => Term::Bar,
        XKind::Plus => Term::Plus,
        XKind::Minus => Term::Minus,
        XKind::Equal => Term::Equal,
        XKind::Unequal => Term::Unequal,
        XKind::Less => Term::Less,
        XKind::LessEqual => Term::LessEqual,
        XKind::Greater => Term::Greater,
        XKind::GreaterEqual => Term::GreaterEqual,
    })
}

/// Whether the term is none of `@`, `::`, `(`, `[`, `,` and an operator.
fn is_operand(term: &Term) -> bool
    ensures { result ≡ spec.is_operand term.now }
{
    match term {
        Term::At | Term::DoubleColon | Term::OpenRound | Term::OpenSquare | Term::Comma => false,
        Term::Slash | Term::DoubleSlash | Term::Bar | Term::Plus | Term::Minus => false,
        Term::Equal | Term::Unequal => false,
        Term::Less | Term::LessEqual | Term::Greater | Term::GreaterEqual => false,
        Term::Or | Term::And | Term::Times | Term::Mod | Term::Div => false,
        _ => true,
    }
}

/// The kind of the token at a place, if one is there.
fn kind_at(tokens: &[XTok], at: usize) -> Option<XKind>
    ensures { result ≡ spec.next_kind (map lexeme_of (drop at tokens.now)) }
{
    match tokens.get(at) {
        Some(token) => Some(token.kind),
        None => None,
    }
}

/// The terms of tokens.
pub fn terms_of(alloc: Global, tokens: &[XTok], tests: &Tests) -> Result<Seq<Term>, NoMemory>
    ensures { IfOk result (λ ts. ts ≡ spec.terms_over (known tests.now) (map lexeme_of tokens.now)) }
{
    let mut found = Seq::new(alloc);
    let mut after = false;
    for at in 0..tokens.len() {
        let token = &tokens[at];
        let next = kind_at(tokens, at + 1);
        let term = term_of(alloc, tests, after, token.kind, token.value.as_str(), next)?;
        after = is_operand(&term);
        found.push(term)?;
    }
    Ok(found)
}
