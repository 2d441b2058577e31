ghost use Rattle.std.specs.Prelude.{◌≡◌, ◌+◌, ◌<◌, ◌≤◌, ◌++◌, ◌⊎◌, min, length, drop, slice_range, IfOk, IfSome};
ghost use Rattle.std.specs.String.{string_bytes};
ghost use Rattle.std.specs.Char.{digit_value};
ghost use Rattle.std.specs.List.{list_all};
ghost use Rattle.text_base.specs.Text.{IsPlace};
ghost use Rattle.char_refs.specs.Kinds.{is_body_byte};
ghost use Rattle.char_refs.specs.References.{is_digit_in, number, char_of, digits_char, body_char, reference_of, decoded_past, decoded};

use crate::tables::{char_named, given_for};
use std::alloc::{AllocError, Global};
use text_base::{ByteKind, NoMemory, byte_at, bytes_from, find_byte, is_letter, part, run_end};

/// A letter, a digit or a number sign.
#[derive(Clone, Copy)]
struct BodyByte;

impl ByteKind for BodyByte {
    ghost use Rattle.char_refs.specs.Kinds.{is_body_byte, body_narrow};

    ghost test = { λ _. is_body_byte };

    fn has(&self, byte: u8) -> bool {
        is_letter(byte) || (byte >= b'0' && byte <= b'9') || byte == b'#'
    }

    ghost keeps_characters = { λ _. body_narrow };
}

/// The value of a digit or a letter, and 36 for any other byte.
fn digit(byte: u8) -> u32
    ensures value { result ≡ digit_value byte }
    ensures small { result ≤ 36 }
{
    if byte >= b'0' && byte <= b'9' {
        byte as u32 - 48
    } else if byte >= b'A' && byte <= b'Z' {
        byte as u32 - 55
    } else if byte >= b'a' && byte <= b'z' {
        byte as u32 - 87
    } else {
        36
    }
}

/// The number that digits spell, or 110000 hexadecimal where it is larger.
#[tactic(auto, using(crate::proofs::Numbers::one_digit))]
fn capped_number(digits: &[u8], base: u32) -> u32
    requires { (base ≡ 10) ⊎ (base ≡ 16) }
    ensures { result ≡ min 0x110000 (number base digits.now) }
{
    let mut value = 0;
    for byte in digits {
        value = (base * value + digit(*byte)).min(0x110000);
    }
    value
}

/// The character of a number, where all numbers past the last character are one.
#[tactic(auto, using(crate::proofs::Numbers::capped_char))]
fn char_of(number: u32) -> char
    ensures { result ≡ char_of number }
{
    match given_for(number) {
        Some(c) => c,
        None => {
            if number == 0 {
                return '\u{fffd}';
            }
            match char::from_u32(number) {
                Some(c) => c,
                None => '\u{fffd}',
            }
        }
    }
}

/// Whether all bytes are digits.
fn all_digits(digits: &[u8], base: u32) -> bool
    ensures { result ≡ list_all (is_digit_in base) digits.now }
{
    digits.iter().all(|byte| digit(*byte) < base)
}

/// The character of one or more digits.
#[tactic(auto, using(crate::proofs::Numbers::no_digit, crate::proofs::Numbers::other_digit, crate::proofs::Numbers::char_of_digits))]
fn digits_char(digits: &[u8], base: u32) -> Option<char>
    requires { (base ≡ 10) ⊎ (base ≡ 16) }
    ensures { result ≡ digits_char base digits.now }
{
    if digits.len() == 0 {
        return None;
    }
    if all_digits(digits, base) {
        Some(char_of(capped_number(digits, base)))
    } else {
        None
    }
}

/// The character of what stands between `&` and `;`.
#[tactic(auto, using(text_base::proofs::Boundaries::in_text))]
fn body_char(body: &str) -> Option<char>
    ensures { result ≡ body_char body.now }
{
    if byte_at(body, 0) == b'#' {
        let second = byte_at(body, 1);
        if second == b'x' || second == b'X' {
            digits_char(bytes_from(body, 2), 16)
        } else {
            digits_char(bytes_from(body, 1), 10)
        }
    } else {
        char_named(body)
    }
}

/// The character of the reference that stands at a place, and how many bytes the reference has.
/// The place is a character boundary. A reference is `&#` with one or more digits and `;`, `&#x` or
/// `&#X` with one or more hexadecimal digits and `;`, or `&`, a listed name and `;`.
#[tactic(auto, using(text_base::proofs::Boundaries::past_byte, crate::proofs::ReferenceLemmas::no_sign, crate::proofs::ReferenceLemmas::no_end, crate::proofs::ReferenceLemmas::whole_some, crate::proofs::ReferenceLemmas::whole_none))]
pub fn reference(text: &str, at: usize) -> Option<(char, usize)>
    requires { IsPlace text.now at }
    ensures reference { result ≡ reference_of (drop at text.now) }
    ensures moves { IfSome result (λ r. 0 < r.1) }
    ensures place { IfSome result (λ r. IsPlace text.now (at + r.1)) }
{
    if byte_at(text, at) != b'&' {
        return None;
    }
    let end = run_end(text, &BodyByte, at + 1);
    if byte_at(text, end) != b';' {
        return None;
    }
    match body_char(part(text, at + 1, end)) {
        Some(c) => Some((c, end + 1 - at)),
        None => None,
    }
}

/// Adds what stands up to the next `&` and what this begins, and says where to go on.
#[tactic(auto, using(text_base::proofs::Boundaries::past_byte, crate::proofs::DecodingLemmas::no_more, crate::proofs::DecodingLemmas::with_reference, crate::proofs::DecodingLemmas::with_sign))]
fn push_piece(raw: &str, from: usize, out: &mut String) -> Result<usize, AllocError>
    requires within { from < length raw.now }
    requires place { IsPlace raw.now from }
    ensures kept { IfOk result (λ n. string_bytes out.new ++ decoded_past (drop n raw.now) 0 ≡ string_bytes out.old ++ decoded_past (drop from raw.now) 0) }
    ensures moves { IfOk result (λ n. from < n) }
    ensures place { IfOk result (λ n. IsPlace raw.now n) }
{
    let sign = find_byte(raw, b'&', from);
    out.push_str(part(raw, from, sign))?;
    if sign >= raw.len() {
        return Ok(sign);
    }
    match reference(raw, sign) {
        Some(r) => {
            out.push(r.0)?;
            Ok(sign + r.1)
        }
        None => {
            out.push('&')?;
            Ok(sign + 1)
        }
    }
}

/// The text, from left to right each reference by its character and all else as it is.
#[tactic(auto, using(text_base::proofs::Boundaries::at_start))]
pub fn decode_refs(alloc: Global, raw: &str) -> Result<String, NoMemory>
    ensures { IfOk result (λ s. string_bytes s ≡ decoded raw.now) }
{
    let mut out = String::new(alloc);
    let mut from = 0;
    while from < raw.len() {
        from = push_piece(raw, from, &mut out)?;
    }
    Ok(out)
}
