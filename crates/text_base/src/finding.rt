ghost use Rattle.std.specs.Prelude.{◌≡◌, ◌+◌, ◌<◌, ◌≤◌, ◌↔◌, IsTrue, true, length, drop, slice_index, slice_range};
ghost use Rattle.std.specs.Str.{IsAscii, bytes_eq};
ghost use Rattle.text_base.specs.Text.{is_not_byte, run_end, find_where, begins_with, IsPlace};

use memchr::{memchr, memmem};

/// The byte at a place, or 0 past the end.
pub fn byte_at(text: &str, at: usize) -> u8
    ensures { result ≡ slice_index text.now at }
{
    let bytes = text.as_bytes();
    if at < bytes.len() { bytes[at] } else { 0 }
}

/// Whether two texts are the same. Most differ in length or in their first byte, so these are looked at first.
pub fn is_same(a: &str, b: &str) -> bool
    ensures { result ≡ bytes_eq a.now b.now }
{
    a.len() == b.len() && byte_at(a, 0) == byte_at(b, 0) && a == b
}

/// The bytes from a place on.
pub fn bytes_from(text: &str, from: usize) -> &[u8]
    requires { from ≤ length text.now }
    ensures { result.now ≡ drop from text.now }
{
    &text.as_bytes()[from..]
}

/// The first place from `from` on at which the byte stands, or the text's length.
#[tactic(auto, using(crate::proofs::Runs::not_found, crate::proofs::Runs::found_at, crate::proofs::Boundaries::find_byte_place))]
pub fn find_byte(text: &str, byte: u8, from: usize) -> usize
    requires { from ≤ length text.now }
    ensures end { result ≡ run_end (is_not_byte byte) text.now from }
    ensures order { from ≤ result }
    ensures within { result ≤ length text.now }
    ensures boundary { byte < 128 → IsPlace text.now result }
{
    match memchr(byte, bytes_from(text, from)) {
        Some(k) => from + k,
        None => text.len(),
    }
}

/// The first place from `from` on at which the bytes stand, or the text's length.
#[tactic(auto, using(crate::proofs::Places::needle_none, crate::proofs::Places::needle_at, crate::proofs::Places::needle_place, crate::proofs::Places::past_needle))]
pub fn find_text(text: &str, needle: &[u8], from: usize) -> usize
    requires within { from ≤ length text.now }
    requires some { 0 < length needle.now }
    ensures end { result ≡ find_where (begins_with needle.now) text.now from }
    ensures order { from ≤ result }
    ensures fits { result < length text.now → result + length needle.now ≤ length text.now }
    ensures place { IsAscii needle.now → IsPlace text.now result }
    ensures past { IsAscii needle.now → result < length text.now → IsPlace text.now (result + length needle.now) }
    ensures within { result ≤ length text.now }
{
    match memmem::find(bytes_from(text, from), needle) {
        Some(k) => from + k,
        None => text.len(),
    }
}

/// The part of a text between two places.
#[tactic(auto, using(crate::proofs::Boundaries::boundary))]
pub fn part(text: &str, from: usize, to: usize) -> &str
    requires order { from ≤ to }
    requires start { IsPlace text.now from }
    requires end { IsPlace text.now to }
    ensures { result.now ≡ slice_range text.now from to }
{
    &text[from..to]
}
