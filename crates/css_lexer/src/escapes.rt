ghost use Rattle.std.specs.Prelude.{◌≡◌, ◌+◌, ◌<◌, ◌≤◌, ◌++◌, ℕ, true, min, length, slice_index, IfOk, OnOk};
ghost use Rattle.std.specs.Char.{digit_value};
ghost use Rattle.std.specs.String.{string_bytes};
ghost use Rattle.text_base.specs.Text.{IsPlace};
ghost use Rattle.css_lexer.specs.Escapes.{is_hex, is_break, hex_len, blank_len, hex_value, char_of, escape_len, escape_value, is_escapable};

use std::alloc::AllocError;
use text_base::{byte_at, is_white};

fn is_hex(byte: u8) -> bool
    ensures { result ≡ is_hex byte }
{
    (byte >= b'0' && byte <= b'9')
        || (byte >= b'A' && byte <= b'F')
        || (byte >= b'a' && byte <= b'f')
}

/// Whether a byte is a line feed, a carriage return or a form feed.
pub(crate) fn is_break(byte: u8) -> bool
    ensures { result ≡ is_break byte }
{
    byte == b'\n' || byte == b'\r' || byte == 12
}

fn blank_len(text: &str, at: usize) -> usize
    requires { at ≤ length text.now }
    ensures { result ≡ blank_len text.now at }
{
    let first = byte_at(text, at);
    if first == b'\r' && byte_at(text, at + 1) == b'\n' {
        2
    } else if is_white(first) {
        1
    } else {
        0
    }
}

/// The character of an escape's number.
fn char_of(code: u32) -> char
    ensures { result ≡ char_of code }
{
    if code == 0 {
        return '\u{fffd}';
    }
    match char::from_u32(code) {
        Some(c) => c,
        None => '\u{fffd}',
    }
}

fn digit(byte: u8) -> u32
    requires { is_hex byte ≡ true }
    ensures value { result ≡ digit_value byte }
    ensures small { result < 16 }
{
    if byte <= b'9' {
        byte as u32 - 48
    } else if byte <= b'F' {
        byte as u32 - 55
    } else {
        byte as u32 - 87
    }
}

/// How many hexadecimal digits an escape has.
#[tactic(auto, using(text_base::proofs::Runs::run_end_step, text_base::proofs::Runs::run_end_stop, text_base::proofs::Runs::run_end_end, text_base::proofs::Runs::run_end_from))]
fn hex_len(text: &str, at: usize) -> usize
    requires { at + 1 ≤ length text.now }
    ensures len { result ≡ hex_len text.now at }
    ensures fits { at + 1 + result ≤ length text.now }
    ensures short { result ≤ 6 }
{
    let bytes = text.as_bytes();
    let mut n = 0;
    while n < 6 && at + 1 + n < bytes.len() && is_hex(bytes[at + 1 + n]) {
        n += 1;
    }
    n
}

/// Whether a byte stands at a place that may be escaped as itself.
fn is_escapable(text: &str, at: usize) -> bool
    ensures { result ≡ is_escapable text.now at }
{
    at < text.len() && !is_break(byte_at(text, at))
}

/// How many bytes an escape takes, or 0 where it is none.
pub(crate) fn escape_len(text: &str, at: usize) -> usize
    requires { at < length text.now }
    ensures { result ≡ escape_len text.now at }
{
    let byte = byte_at(text, at + 1);
    if is_hex(byte) {
        let digits = hex_len(text, at);
        1 + digits + blank_len(text, at + 1 + digits)
    } else if byte >= 128 {
        1
    } else if is_escapable(text, at + 1) {
        2
    } else {
        0
    }
}

/// The number that hexadecimal digits spell, or 110000 hexadecimal where it is larger.
#[tactic(auto, using(crate::proofs::EscapeLemmas::one_digit))]
fn capped_value(text: &str, from: usize, to: usize) -> u32
    requires order { from ≤ to }
    requires within { to ≤ length text.now }
    requires hex { (k : ℕ) → from ≤ k → k < to → is_hex (slice_index text.now k) ≡ true }
    ensures { result ≡ min 0x110000 (hex_value text.now from to) }
{
    let bytes = text.as_bytes();
    let mut value = 0;
    let mut at = from;
    while at < to {
        value = (16 * value + digit(bytes[at])).min(0x110000);
        at += 1;
    }
    value
}

/// Adds what an escape stands for, and says how long it is.
#[tactic(auto, using(crate::proofs::EscapeLemmas::capped_char, crate::proofs::EscapeLemmas::digits_are, crate::proofs::EscapeLemmas::escape_place))]
pub(crate) fn push_escape(text: &str, at: usize, out: &mut String) -> Result<usize, AllocError>
    requires within { at < length text.now }
    requires escape { slice_index text.now at ≡ 92 }
    ensures len { IfOk result (λ n. n ≡ escape_len text.now at) }
    ensures value { OnOk result (string_bytes out.new ≡ string_bytes out.old ++ escape_value text.now at) }
    ensures place { IfOk result (λ n. IsPlace text.now (at + n)) }
{
    let byte = byte_at(text, at + 1);
    if is_hex(byte) {
        let digits = hex_len(text, at);
        out.push(char_of(capped_value(text, at + 1, at + 1 + digits)))?;
    } else if byte < 128 && is_escapable(text, at + 1) {
        out.push(byte as char)?;
    }
    Ok(escape_len(text, at))
}
