ghost use Rattle.std.specs.Prelude.{◌≡◌, ◌+◌, ◌<◌, ◌≤◌, length, slice_index};
ghost use Rattle.text_base.specs.Text.{run_end};
ghost use Rattle.xpath_lexer.specs.inner.Sizes as spec;

use crate::token::XKind;
use text_base::{ByteKind, Space4, is_digit, is_name_byte, is_name_start};

/// The runs of bytes that tokens are made of.
#[derive(Clone, Copy)]
pub enum Run {
    Name,
    Digits,
    Space,
    /// Every byte but this one.
    Until(u8),
}

/// The byte at a place, or 0 past the end.
fn byte_at(text: &[u8], at: usize) -> u8
    ensures value { result ≡ slice_index text.now at }
    ensures inside { 0 < result → at < length text.now }
{
    if at < text.len() { text[at] } else { 0 }
}

fn has(run: Run, byte: u8) -> bool
    ensures { result ≡ spec.has run byte }
{
    match run {
        Run::Name => is_name_byte(byte),
        Run::Digits => is_digit(byte),
        Run::Space => Space4.has(byte),
        Run::Until(end) => byte != end,
    }
}

/// Where the run ends that begins at a place.
#[tactic(auto, using(text_base::proofs::Runs::run_end_step, text_base::proofs::Runs::run_end_stop, text_base::proofs::Runs::run_end_end))]
pub fn end_of(text: &[u8], run: Run, from: usize) -> usize
    requires { from ≤ length text.now }
    ensures end { result ≡ run_end (spec.has run) text.now from }
    ensures order { from ≤ result }
    ensures within { result ≤ length text.now }
{
    let mut at = from;
    while at < text.len() && has(run, text[at]) {
        at += 1;
    }
    at
}

/// `:` and a name after a name, or nothing.
fn prefix_size(kind: XKind, joined: XKind, text: &[u8]) -> (XKind, usize)
    ensures size { result ≡ spec.prefix_size kind joined text.now }
    ensures within { result.1 ≤ length text.now }
{
    if byte_at(text, 0) == b':' && is_name_start(byte_at(text, 1)) {
        (joined, end_of(text, Run::Name, 1))
    } else {
        (kind, 0)
    }
}

fn star_size(text: &[u8]) -> (XKind, usize)
    ensures size { result ≡ spec.star_size text.now }
    ensures within { result.1 ≤ length text.now }
{
    if byte_at(text, 0) == b':' && byte_at(text, 1) == b'*' {
        (XKind::Prefixed, 2)
    } else {
        prefix_size(XKind::Name, XKind::Prefixed, text)
    }
}

fn name_size(text: &[u8]) -> (XKind, usize)
    requires { 0 < length text.now }
    ensures size { result ≡ spec.name_size text.now }
    ensures within { result.1 ≤ length text.now }
{
    let name = end_of(text, Run::Name, 1);
    let (kind, more) = star_size(&text[name..]);
    (kind, name + more)
}

/// A point and digits after digits, or nothing.
fn fraction_size(text: &[u8]) -> usize
    ensures size { result ≡ spec.fraction_size text.now }
    ensures within { result ≤ length text.now }
{
    if byte_at(text, 0) == b'.' {
        end_of(text, Run::Digits, 1)
    } else {
        0
    }
}

fn number_size(text: &[u8]) -> (XKind, usize)
    requires { 0 < length text.now }
    ensures size { result ≡ spec.number_size text.now }
    ensures within { result.1 ≤ length text.now }
{
    let digits = end_of(text, Run::Digits, 1);
    (XKind::Number, digits + fraction_size(&text[digits..]))
}

fn literal_size(quote: u8, text: &[u8]) -> Option<(XKind, usize)>
    requires { 0 < length text.now }
    ensures { result ≡ spec.literal_size quote text.now }
{
    let end = end_of(text, Run::Until(quote), 1);
    if end < text.len() {
        Some((XKind::Literal, end + 1))
    } else {
        None
    }
}

fn variable_size(text: &[u8]) -> Option<(XKind, usize)>
    ensures { result ≡ spec.variable_size text.now }
{
    if !is_name_start(byte_at(text, 1)) {
        return None;
    }
    let name = end_of(text, Run::Name, 2);
    let (kind, more) = prefix_size(XKind::Variable, XKind::Variable, &text[name..]);
    Some((kind, name + more))
}

fn pair_size(one: XKind, both: XKind, second: u8, text: &[u8]) -> (XKind, usize)
    ensures { result ≡ spec.pair_size one both second text.now }
{
    if byte_at(text, 1) == second {
        (both, 2)
    } else {
        (one, 1)
    }
}

fn only_pair_size(both: XKind, second: u8, text: &[u8]) -> Option<(XKind, usize)>
    ensures { result ≡ spec.only_pair_size both second text.now }
{
    if byte_at(text, 1) == second {
        Some((both, 2))
    } else {
        None
    }
}

fn point_size(text: &[u8]) -> (XKind, usize)
    ensures { result ≡ spec.point_size text.now }
{
    if byte_at(text, 1) == b'.' {
        (XKind::DotDot, 2)
    } else if is_digit(byte_at(text, 1)) {
        (XKind::Number, end_of(text, Run::Digits, 1))
    } else {
        (XKind::Dot, 1)
    }
}

fn mark_size(byte: u8, text: &[u8]) -> Option<(XKind, usize)>
    ensures { result ≡ spec.mark_size byte text.now }
{
    match byte {
        b'(' => Some((XKind::OpenRound, 1)),
        b')' => Some((XKind::CloseRound, 1)),
        b'[' => Some((XKind::OpenSquare, 1)),
        b']' => Some((XKind::CloseSquare, 1)),
        b'.' => Some(point_size(text)),
        b'@' => Some((XKind::At, 1)),
        b',' => Some((XKind::Comma, 1)),
        b':' => only_pair_size(XKind::DoubleColon, b':', text),
        b'$' => variable_size(text),
        b'/' => Some(pair_size(XKind::Slash, XKind::DoubleSlash, b'/', text)),
        b'|' => Some((XKind::Bar, 1)),
        b'+' => Some((XKind::Plus, 1)),
        b'-' => Some((XKind::Minus, 1)),
        b'=' => Some((XKind::Equal, 1)),
        b'!' => only_pair_size(XKind::Unequal, b'=', text),
        b'<' => Some(pair_size(XKind::Less, XKind::LessEqual, b'=', text)),
        b'>' => Some(pair_size(XKind::Greater, XKind::GreaterEqual, b'=', text)),
        b'*' => Some((XKind::Star, 1)),
        _ => None,
    }
}

/// What the token at the front of a text is, and how many bytes it has.
#[tactic(auto, unfolding(crate::specs::inner::Sizes::token_size))]
pub fn token_size(text: &[u8]) -> Option<(XKind, usize)>
    ensures { result ≡ spec.token_size text.now }
{
    let byte = byte_at(text, 0);
    if is_name_start(byte) {
        return Some(name_size(text));
    }
    if is_digit(byte) {
        return Some(number_size(text));
    }
    if byte == b'"' || byte == b'\'' {
        return literal_size(byte, text);
    }
    mark_size(byte, text)
}
