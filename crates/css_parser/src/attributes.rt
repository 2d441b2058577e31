//! Elements and attributes, after Selectors Level 3, sections 5 and 6.3.
ghost use Rattle.std.specs.Prelude.{◌≡◌, ◌+◌, ◌<◌, ◌≤◌, true, length, IfOk, IfSome, Some};
ghost use Rattle.css_parser.specs.Simples as spec;
ghost use Rattle.css_parser.specs.Places.{value_at};
ghost use Rattle.css_parser.specs.inner.Reading.{Ends, EndsElement};

use crate::pieces::{ElementRead, Piece, Plain, Read};
use crate::places::{is_name, is_word, no_text, skip, stands, value_at};
use css_lexer::{CssKind, CssToken};
use css_selectors::Op;
use std::alloc::Global;
use text_base::{NoMemory, Txt};

/// The place behind the prefix at a place, or that place.
fn past_prefix(tokens: &[CssToken], at: usize) -> usize
    requires { at ≤ length tokens.now }
    ensures end { result ≡ spec.past_prefix tokens.now at }
    ensures order { at ≤ result }
    ensures within { result ≤ length tokens.now }
{
    if stands(tokens, at, CssKind::Bar) {
        at + 1
    } else if is_name(tokens, at) && stands(tokens, at + 1, CssKind::Bar) {
        at + 2
    } else {
        at
    }
}

/// The name at a place, or None for `*`.
fn name_at(alloc: Global, tokens: &[CssToken], at: usize) -> Result<Option<Txt>, NoMemory>
    ensures { IfOk result (λ name. name ≡ spec.name_at tokens.now at) }
{
    if stands(tokens, at, CssKind::Ident) {
        Ok(Some(value_at(alloc, tokens, at)?))
    } else {
        Ok(None)
    }
}

/// The element at a place, if one stands there.
#[tactic(auto, unfolding(crate::specs::Simples::element))]
pub(crate) fn element(
    alloc: Global,
    tokens: &[CssToken],
    at: usize,
) -> Result<Option<ElementRead>, NoMemory>
    requires { at ≤ length tokens.now }
    ensures read { IfOk result (λ read. read ≡ spec.element tokens.now at) }
    ensures ends { IfOk result (EndsElement tokens.now at) }
{
    let from = past_prefix(tokens, at);
    if is_name(tokens, from) {
        let name = name_at(alloc, tokens, from)?;
        Ok(Some(ElementRead {
            name,
            prefixed: at < from,
            end: from + 1,
        }))
    } else {
        Ok(None)
    }
}

/// The operator at a place, if one stands there.
fn op_at(tokens: &[CssToken], at: usize) -> Option<Op>
    ensures op { result ≡ spec.op_at tokens.now at }
    ensures within { IfSome result (λ _. at < length tokens.now) }
{
    if stands(tokens, at, CssKind::Equal) {
        Some(Op::Equals)
    } else if stands(tokens, at, CssKind::WordMatch) {
        Some(Op::Word)
    } else if stands(tokens, at, CssKind::DashMatch) {
        Some(Op::Dash)
    } else if stands(tokens, at, CssKind::PrefixMatch) {
        Some(Op::Prefix)
    } else if stands(tokens, at, CssKind::SuffixMatch) {
        Some(Op::Suffix)
    } else if stands(tokens, at, CssKind::PartMatch) {
        Some(Op::Substring)
    } else {
        None
    }
}

fn attribute_piece(prefixed: bool, name: Txt, op: Op, value: Txt) -> Piece
    ensures { result ≡ spec.attribute_piece prefixed name op value }
{
    if prefixed {
        Piece::Prefixed
    } else {
        Piece::Plain(Plain::Attr(name, op, value))
    }
}

/// What stands behind an operator: a word and `]`.
fn compared(
    alloc: Global,
    tokens: &[CssToken],
    prefixed: bool,
    name: Txt,
    op: Op,
    at: usize,
) -> Result<Option<Read>, NoMemory>
    requires { at ≤ length tokens.now }
    ensures read { IfOk result (λ read. read ≡ spec.compared tokens.now prefixed name (Some op) at) }
    ensures ends { IfOk result (Ends tokens.now at) }
{
    let word = skip(tokens, at);
    if !is_word(tokens, word) {
        return Ok(None);
    }
    let close = skip(tokens, word + 1);
    if stands(tokens, close, CssKind::CloseSquare) {
        let value = value_at(alloc, tokens, word)?;
        Ok(Some(Read {
            piece: attribute_piece(prefixed, name, op, value),
            end: close + 1,
        }))
    } else {
        Ok(None)
    }
}

/// What stands behind the name of an attribute.
fn behind_name(
    alloc: Global,
    tokens: &[CssToken],
    prefixed: bool,
    name: Txt,
    at: usize,
) -> Result<Option<Read>, NoMemory>
    requires { at ≤ length tokens.now }
    ensures read { IfOk result (λ read. read ≡ spec.behind_name tokens.now prefixed name at) }
    ensures ends { IfOk result (Ends tokens.now at) }
{
    if stands(tokens, at, CssKind::CloseSquare) {
        let empty = no_text(alloc);
        return Ok(Some(Read {
            piece: attribute_piece(prefixed, name, Op::Exists, empty),
            end: at + 1,
        }));
    }
    match op_at(tokens, at) {
        Some(op) => compared(alloc, tokens, prefixed, name, op, at + 1),
        None => Ok(None),
    }
}

/// The attribute at a place where `[` stands, if it is one.
#[tactic(auto, unfolding(crate::specs::Simples::attribute))]
pub(crate) fn attribute(
    alloc: Global,
    tokens: &[CssToken],
    at: usize,
) -> Result<Option<Read>, NoMemory>
    requires { at < length tokens.now }
    ensures read { IfOk result (λ read. read ≡ spec.attribute tokens.now at) }
    ensures ends { IfOk result (Ends tokens.now at) }
{
    let from = skip(tokens, at + 1);
    let place = past_prefix(tokens, from);
    if stands(tokens, place, CssKind::Ident) {
        let name = value_at(alloc, tokens, place)?;
        behind_name(alloc, tokens, from < place, name, skip(tokens, place + 1))
    } else {
        Ok(None)
    }
}
