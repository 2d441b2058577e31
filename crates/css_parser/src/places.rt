//! What stands at a place of a list of tokens.
ghost use Rattle.std.specs.Prelude.{◌≡◌, ◌<◌, ◌≤◌, true, [], length, IfOk};
ghost use Rattle.css_parser.specs.Places as spec;

use css_lexer::{CssKind, CssToken};
use std::alloc::Global;
use text_base::{NoMemory, Txt};

/// A number for each kind, from 1 on.
fn code(kind: CssKind) -> u8
    ensures value { result ≡ spec.code kind }
    ensures some { 0 < result }
{
    match kind {
        CssKind::Space => 1,
        CssKind::Function => 2,
        CssKind::Ident => 3,
        CssKind::Hash => 4,
        CssKind::Quoted => 5,
        CssKind::Digits => 6,
        CssKind::WordMatch => 7,
        CssKind::DashMatch => 8,
        CssKind::PrefixMatch => 9,
        CssKind::SuffixMatch => 10,
        CssKind::PartMatch => 11,
        CssKind::DoubleColon => 12,
        CssKind::Star => 13,
        CssKind::Dot => 14,
        CssKind::Colon => 15,
        CssKind::OpenSquare => 16,
        CssKind::CloseSquare => 17,
        CssKind::CloseRound => 18,
        CssKind::Comma => 19,
        CssKind::Plus => 20,
        CssKind::Greater => 21,
        CssKind::Tilde => 22,
        CssKind::Bar => 23,
        CssKind::Equal => 24,
        CssKind::Minus => 25,
    }
}

/// The number of the kind of the token at a place, or 0 behind the last.
#[tactic(auto, unfolding(crate::specs::Places::code_at), using(crate::proofs::PlaceLemmas::code_within))]
fn code_at(tokens: &[CssToken], at: usize) -> u8
    ensures value { result ≡ spec.code_at tokens.now at }
    ensures within { 0 < result → at < length tokens.now }
{
    match tokens.get(at) {
        Some(token) => code(token.kind),
        None => 0,
    }
}

/// Whether a token of the kind stands at a place.
pub(crate) fn stands(tokens: &[CssToken], at: usize, kind: CssKind) -> bool
    ensures value { result ≡ spec.stands kind tokens.now at }
    ensures within { result ≡ true → at < length tokens.now }
{
    code_at(tokens, at) == code(kind)
}

/// The value of the token at a place as a text, or the empty text behind the last.
#[tactic(auto, unfolding(crate::specs::Places::text_at))]
pub(crate) fn text_at(tokens: &[CssToken], at: usize) -> &str
    ensures { result.now ≡ spec.text_at tokens.now at }
{
    match tokens.get(at) {
        Some(token) => token.value.as_str(),
        None => "",
    }
}

/// The empty text.
pub(crate) fn no_text(alloc: Global) -> Txt
    ensures { result ≡ [] }
{
    Txt::from_string(String::new(alloc))
}

/// A copy of the value of the token at a place.
#[tactic(auto, unfolding(crate::specs::Places::value_at))]
pub(crate) fn value_at(alloc: Global, tokens: &[CssToken], at: usize) -> Result<Txt, NoMemory>
    ensures { IfOk result (λ value. value ≡ spec.value_at tokens.now at) }
{
    match tokens.get(at) {
        Some(token) => Txt::of(alloc, token.value.as_str()),
        None => Ok(no_text(alloc)),
    }
}

/// The first place from a place on at which no Space stands.
#[tactic(auto, unfolding(crate::specs::Places::skip), using(crate::proofs::PlaceLemmas::skip_step, crate::proofs::PlaceLemmas::skip_stop))]
pub(crate) fn skip(tokens: &[CssToken], from: usize) -> usize
    requires { from ≤ length tokens.now }
    ensures end { result ≡ spec.skip tokens.now from }
    ensures order { from ≤ result }
    ensures within { result ≤ length tokens.now }
{
    let mut at = from;
    while stands(tokens, at, CssKind::Space) {
        at += 1;
    }
    at
}

/// Whether an Ident or `*` stands at a place.
pub(crate) fn is_name(tokens: &[CssToken], at: usize) -> bool
    ensures value { result ≡ spec.is_name tokens.now at }
    ensures within { result ≡ true → at < length tokens.now }
{
    stands(tokens, at, CssKind::Ident) || stands(tokens, at, CssKind::Star)
}

/// Whether an Ident or a Quoted stands at a place.
pub(crate) fn is_word(tokens: &[CssToken], at: usize) -> bool
    ensures value { result ≡ spec.is_word tokens.now at }
    ensures within { result ≡ true → at < length tokens.now }
{
    stands(tokens, at, CssKind::Ident) || stands(tokens, at, CssKind::Quoted)
}
