//! Simple selectors and pseudo-elements, after Selectors Level 3, sections 6 and 7.
ghost use Rattle.std.specs.Prelude.{◌≡◌, ◌+◌, ◌<◌, ◌≤◌, true, length, IfOk};
ghost use Rattle.css_parser.specs.Simples as spec;
ghost use Rattle.css_parser.specs.Names.{nth_called};
ghost use Rattle.css_parser.specs.inner.Reading.{AreInside, Ends};

use crate::arguments::{
    attr_argument, contains_argument, lang_argument, nth_argument, other_argument,
};
use crate::attributes::attribute;
use crate::names::{class_called, nth_called};
use crate::pieces::{Piece, Plain, Read, Word};
use crate::places::{stands, text_at, value_at};
use css_lexer::{CssKind, CssToken};
use css_selectors::Tail;
use std::alloc::Global;
use text_base::NoMemory;

/// The word of a choice, by the name of its Function.
#[tactic(auto, unfolding(crate::specs::Simples::word_called))]
pub(crate) fn word_called(name: &str) -> Option<Word>
    ensures { result ≡ spec.word_called name.now }
{
    if name.eq_ignore_ascii_case("is") {
        Some(Word::Is)
    } else if name.eq_ignore_ascii_case("where") {
        Some(Word::Where)
    } else if name.eq_ignore_ascii_case("not") {
        Some(Word::Not)
    } else if name.eq_ignore_ascii_case("has") {
        Some(Word::Has)
    } else {
        None
    }
}

/// Whether a Function of this name is read by the choice alone.
fn is_choice(name: &str) -> bool
    ensures { result ≡ spec.is_choice name.now }
{
    match word_called(name) {
        Some(_) => true,
        None => false,
    }
}

/// The argument and the `)` of a pseudo-class.
fn class_with(
    alloc: Global,
    text: &str,
    tokens: &[CssToken],
    name: &str,
    at: usize,
) -> Result<Option<Read>, NoMemory>
    requires inside { AreInside text.now tokens.now }
    requires within { at ≤ length tokens.now }
    ensures read { IfOk result (λ read. read ≡ spec.class_with text.now tokens.now name.now (nth_called name.now) at) }
    ensures ends { IfOk result (Ends tokens.now at) }
{
    if let Some(position) = nth_called(name) {
        return nth_argument(alloc, text, tokens, position, at);
    }
    if name.eq_ignore_ascii_case("contains") {
        contains_argument(alloc, tokens, at)
    } else if name.eq_ignore_ascii_case("lang") {
        lang_argument(alloc, tokens, at)
    } else if !is_choice(name) {
        Ok(other_argument(tokens, Piece::Unknown, at))
    } else {
        Ok(None)
    }
}

/// The pseudo-class at a place where `:` stands, if it is one.
#[tactic(auto, unfolding(crate::specs::Simples::pseudo_class))]
fn pseudo_class(
    alloc: Global,
    text: &str,
    tokens: &[CssToken],
    at: usize,
) -> Result<Option<Read>, NoMemory>
    requires inside { AreInside text.now tokens.now }
    requires within { at < length tokens.now }
    ensures read { IfOk result (λ read. read ≡ spec.pseudo_class text.now tokens.now at) }
    ensures ends { IfOk result (Ends tokens.now at) }
{
    if stands(tokens, at + 1, CssKind::Ident) {
        Ok(Some(Read {
            piece: class_called(text_at(tokens, at + 1)),
            end: at + 2,
        }))
    } else if stands(tokens, at + 1, CssKind::Function) {
        class_with(alloc, text, tokens, text_at(tokens, at + 1), at + 2)
    } else {
        Ok(None)
    }
}

/// The reading, as one of a pseudo-element that is not known.
fn strange(read: Option<Read>) -> Option<Read>
    ensures { result ≡ spec.strange read }
{
    match read {
        Some(read) => Some(Read {
            piece: Piece::Strange,
            end: read.end,
        }),
        None => None,
    }
}

/// The argument and the `)` of a pseudo-element.
fn element_with(
    alloc: Global,
    text: &str,
    tokens: &[CssToken],
    name: &str,
    at: usize,
) -> Result<Option<Read>, NoMemory>
    requires inside { AreInside text.now tokens.now }
    requires within { at ≤ length tokens.now }
    ensures read { IfOk result (λ read. read ≡ spec.element_with text.now tokens.now name.now (nth_called name.now) at) }
    ensures ends { IfOk result (Ends tokens.now at) }
{
    if let Some(position) = nth_called(name) {
        let read = nth_argument(alloc, text, tokens, position, at)?;
        return Ok(strange(read));
    }
    if name.eq_ignore_ascii_case("attr") {
        attr_argument(alloc, tokens, at)
    } else if is_choice(name) {
        Ok(None)
    } else {
        Ok(other_argument(tokens, Piece::Strange, at))
    }
}

/// The pseudo-element of a name without an argument.
fn element_called(name: &str) -> Piece
    ensures { result ≡ spec.element_called name.now }
{
    if name.eq_ignore_ascii_case("text") {
        Piece::Tail(Tail::Text)
    } else {
        Piece::Strange
    }
}

/// The pseudo-element at a place where `::` stands, if it is one.
#[tactic(auto, unfolding(crate::specs::Simples::pseudo_element))]
fn pseudo_element(
    alloc: Global,
    text: &str,
    tokens: &[CssToken],
    at: usize,
) -> Result<Option<Read>, NoMemory>
    requires inside { AreInside text.now tokens.now }
    requires within { at < length tokens.now }
    ensures read { IfOk result (λ read. read ≡ spec.pseudo_element text.now tokens.now at) }
    ensures ends { IfOk result (Ends tokens.now at) }
{
    if stands(tokens, at + 1, CssKind::Ident) {
        Ok(Some(Read {
            piece: element_called(text_at(tokens, at + 1)),
            end: at + 2,
        }))
    } else if stands(tokens, at + 1, CssKind::Function) {
        element_with(alloc, text, tokens, text_at(tokens, at + 1), at + 2)
    } else {
        Ok(None)
    }
}

/// The id at a place where a Hash stands.
fn id(alloc: Global, tokens: &[CssToken], at: usize) -> Result<Option<Read>, NoMemory>
    requires { at < length tokens.now }
    ensures read { IfOk result (λ read. read ≡ spec.id tokens.now at) }
    ensures ends { IfOk result (Ends tokens.now at) }
{
    let name = value_at(alloc, tokens, at)?;
    Ok(Some(Read {
        piece: Piece::Plain(Plain::Id(name)),
        end: at + 1,
    }))
}

/// The class at a place where `.` stands, if it is one.
fn class(alloc: Global, tokens: &[CssToken], at: usize) -> Result<Option<Read>, NoMemory>
    requires { at < length tokens.now }
    ensures read { IfOk result (λ read. read ≡ spec.class tokens.now at) }
    ensures ends { IfOk result (Ends tokens.now at) }
{
    if stands(tokens, at + 1, CssKind::Ident) {
        let name = value_at(alloc, tokens, at + 1)?;
        Ok(Some(Read {
            piece: Piece::Plain(Plain::Class(name)),
            end: at + 2,
        }))
    } else {
        Ok(None)
    }
}

/// The simple selector that is no choice, or the pseudo-element, at a place, if one stands there.
#[tactic(auto, unfolding(crate::specs::Simples::piece_at))]
pub(crate) fn piece_at(
    alloc: Global,
    text: &str,
    tokens: &[CssToken],
    at: usize,
) -> Result<Option<Read>, NoMemory>
    requires inside { AreInside text.now tokens.now }
    requires within { at ≤ length tokens.now }
    ensures read { IfOk result (λ read. read ≡ spec.piece_at text.now tokens.now at) }
    ensures ends { IfOk result (Ends tokens.now at) }
{
    if stands(tokens, at, CssKind::Hash) {
        id(alloc, tokens, at)
    } else if stands(tokens, at, CssKind::Dot) {
        class(alloc, tokens, at)
    } else if stands(tokens, at, CssKind::OpenSquare) {
        attribute(alloc, tokens, at)
    } else if stands(tokens, at, CssKind::Colon) {
        pseudo_class(alloc, text, tokens, at)
    } else if stands(tokens, at, CssKind::DoubleColon) {
        pseudo_element(alloc, text, tokens, at)
    } else {
        Ok(None)
    }
}
