//! What stands between a Function and its `)`.
ghost use Rattle.std.specs.Prelude.{◌≡◌, ◌+◌, ◌^◌, ◌<◌, ◌≤◌, true, length, IfOk, IfSome, OnOk, ◌++◌};
ghost use Rattle.css_parser.specs.Simples as spec;
ghost use Rattle.css_parser.specs.inner.Reading.{AreInside, Ends, depth_behind};

use crate::nth::{Line, MOST_NUMBER, Number, nth};
use crate::pieces::{Piece, Plain, Read};
use crate::places::{is_word, skip, stands, value_at};
use css_lexer::{CssKind, CssToken};
use css_selectors::{Nth, Tail};
use std::alloc::{AllocError, Global};
use text_base::NoMemory;

/// The first place from a place on at which `)` stands, or the number of the tokens.
#[tactic(auto, using(crate::proofs::PlaceLemmas::close_step, crate::proofs::PlaceLemmas::close_stop, crate::proofs::PlaceLemmas::close_end))]
fn round_close(tokens: &[CssToken], from: usize) -> usize
    requires { from ≤ length tokens.now }
    ensures end { result ≡ spec.round_close tokens.now from }
    ensures order { from ≤ result }
    ensures within { result ≤ length tokens.now }
{
    let mut at = from;
    while at < tokens.len() && !stands(tokens, at, CssKind::CloseRound) {
        at += 1;
    }
    at
}

/// Adds the written text of a token, or one space for white space.
fn push_written(text: &[u8], token: &CssToken, out: &mut Vec<u8>) -> Result<(), AllocError>
    requires order { token.now.from ≤ token.now.to }
    requires within { token.now.to ≤ length text.now }
    ensures { OnOk result (out.new.items ≡ out.old.items ++ spec.written text.now token.now) }
{
    match token.kind {
        CssKind::Space => out.push(b' ')?,
        _ => out.extend_from_slice(&text[token.from..token.to])?,
    }
    Ok(())
}

/// The written texts of the tokens between two places.
#[tactic(auto, using(crate::proofs::ArgumentLemmas::written_none, crate::proofs::ArgumentLemmas::written_more, crate::proofs::ArgumentLemmas::inside_at))]
fn written(
    alloc: Global,
    text: &str,
    tokens: &[CssToken],
    from: usize,
    to: usize,
) -> Result<Vec<u8>, NoMemory>
    requires inside { AreInside text.now tokens.now }
    requires order { from ≤ to }
    requires within { to ≤ length tokens.now }
    ensures { IfOk result (λ out. out.items ≡ spec.written_up_to text.now tokens.now from to) }
{
    let mut out = Vec::new(alloc);
    let mut at = from;
    while at < to {
        match push_written(text.as_bytes(), &tokens[at], &mut out) {
            Ok(()) => {}
            Err(_) => return Err(NoMemory),
        }
        at += 1;
    }
    Ok(out)
}

fn is_small(number: Number) -> bool
    ensures { result ≡ spec.is_small number }
{
    number.size <= MOST_NUMBER
}

fn signed(number: Number) -> i64
    ensures { result ≡ spec.signed number }
{
    let size = number.size as i64;
    if number.minus { -size } else { size }
}

fn nth_piece(position: Nth, line: Line) -> Piece
    ensures { result ≡ spec.nth_piece position line }
{
    if is_small(line.a) && is_small(line.b) {
        Piece::Plain(Plain::Nth(position, signed(line.a), signed(line.b)))
    } else {
        Piece::Large(position)
    }
}

/// The argument `an+b` and `)`, from a place on.
#[tactic(auto, unfolding(crate::specs::Simples::nth_argument))]
pub(crate) fn nth_argument(
    alloc: Global,
    text: &str,
    tokens: &[CssToken],
    position: Nth,
    at: usize,
) -> Result<Option<Read>, NoMemory>
    requires inside { AreInside text.now tokens.now }
    requires within { at ≤ length tokens.now }
    ensures read { IfOk result (λ read. read ≡ spec.nth_argument text.now tokens.now position at) }
    ensures ends { IfOk result (Ends tokens.now at) }
{
    let close = round_close(tokens, at);
    if !stands(tokens, close, CssKind::CloseRound) {
        return Ok(None);
    }
    let argument = written(alloc, text, tokens, at, close)?;
    match nth(argument.as_slice()) {
        Some(line) => Ok(Some(Read {
            piece: nth_piece(position, line),
            end: close + 1,
        })),
        None => Ok(None),
    }
}

/// The piece, where behind the word at a place stands `)`.
fn closed(tokens: &[CssToken], piece: Piece, at: usize) -> Option<Read>
    requires { at < length tokens.now }
    ensures read { result ≡ spec.closed tokens.now piece at }
    ensures ends { Ends tokens.now at result }
{
    let close = skip(tokens, at + 1);
    if stands(tokens, close, CssKind::CloseRound) {
        Some(Read {
            piece,
            end: close + 1,
        })
    } else {
        None
    }
}

/// The argument of `contains`, and `)`.
pub(crate) fn contains_argument(
    alloc: Global,
    tokens: &[CssToken],
    at: usize,
) -> Result<Option<Read>, NoMemory>
    requires { at ≤ length tokens.now }
    ensures read { IfOk result (λ read. read ≡ spec.contains_argument tokens.now at) }
    ensures ends { IfOk result (Ends tokens.now at) }
{
    let word = skip(tokens, at);
    if is_word(tokens, word) {
        let value = value_at(alloc, tokens, word)?;
        Ok(closed(tokens, Piece::Plain(Plain::Contains(value)), word))
    } else {
        Ok(None)
    }
}

/// The argument of `lang`, and `)`.
pub(crate) fn lang_argument(
    alloc: Global,
    tokens: &[CssToken],
    at: usize,
) -> Result<Option<Read>, NoMemory>
    requires { at ≤ length tokens.now }
    ensures read { IfOk result (λ read. read ≡ spec.lang_argument tokens.now at) }
    ensures ends { IfOk result (Ends tokens.now at) }
{
    let word = skip(tokens, at);
    if is_word(tokens, word) {
        let value = value_at(alloc, tokens, word)?;
        Ok(closed(tokens, Piece::Plain(Plain::Lang(value)), word))
    } else {
        Ok(None)
    }
}

/// The argument of the pseudo-element `attr`, and `)`.
pub(crate) fn attr_argument(
    alloc: Global,
    tokens: &[CssToken],
    at: usize,
) -> Result<Option<Read>, NoMemory>
    requires { at ≤ length tokens.now }
    ensures read { IfOk result (λ read. read ≡ spec.attr_argument tokens.now at) }
    ensures ends { IfOk result (Ends tokens.now at) }
{
    let word = skip(tokens, at);
    if stands(tokens, word, CssKind::Ident) {
        let value = value_at(alloc, tokens, word)?;
        Ok(closed(tokens, Piece::Tail(Tail::Attr(value)), word))
    } else {
        Ok(None)
    }
}

/// How many Functions are open behind a token, or None where it closes one that is not open.
fn depth_behind(tokens: &[CssToken], at: usize, depth: usize) -> Option<usize>
    requires { depth < 2 ^ 63 }
    ensures depth { result ≡ depth_behind tokens.now at depth }
    ensures step { IfSome result (λ more. more ≤ depth + 1) }
{
    if stands(tokens, at, CssKind::Function) {
        Some(depth + 1)
    } else if stands(tokens, at, CssKind::CloseRound) {
        if depth == 0 { None } else { Some(depth - 1) }
    } else {
        Some(depth)
    }
}

/// The place of the `)` that ends tokens with balanced Function and `)`, or the number of the
/// tokens.
#[tactic(auto, using(crate::proofs::ArgumentLemmas::balanced_at, crate::proofs::ArgumentLemmas::balanced_end, crate::proofs::ArgumentLemmas::balanced_on, crate::proofs::ArgumentLemmas::no_counts))]
fn balanced_close(tokens: &[CssToken], from: usize) -> usize
    requires { from ≤ length tokens.now }
    ensures end { result ≡ spec.balanced_close tokens.now from }
    ensures order { from ≤ result }
    ensures within { result ≤ length tokens.now }
{
    let mut depth = 0;
    let mut at = from;
    while at < tokens.len() {
        match depth_behind(tokens, at, depth) {
            Some(more) => depth = more,
            None => return at,
        }
        at += 1;
    }
    at
}

/// The piece, where tokens with balanced Function and `)` and then `)` stand at a place.
#[tactic(auto, unfolding(crate::specs::Simples::other_argument))]
pub(crate) fn other_argument(tokens: &[CssToken], piece: Piece, at: usize) -> Option<Read>
    requires { at ≤ length tokens.now }
    ensures read { result ≡ spec.other_argument tokens.now piece at }
    ensures ends { Ends tokens.now at result }
{
    let close = balanced_close(tokens, at);
    if stands(tokens, close, CssKind::CloseRound) {
        Some(Read {
            piece,
            end: close + 1,
        })
    } else {
        None
    }
}
