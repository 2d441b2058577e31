ghost use Rattle.std.specs.Prelude.{◌≡◌, ◌+◌, ◌<◌, ◌≤◌, ◌++◌, true, false, length, drop, slice_index, OnOk, IfOk, IfSome, IsSome, Ok, None, ◌≢◌};
ghost use Rattle.std.specs.String.{string_bytes};
ghost use Rattle.std.specs.Str.Lossy.{utf8_valid_len};
ghost use Rattle.text_base.specs.Text.{run_end, is_not_byte, IsPlace};
ghost use Rattle.text_base.specs.inner.Newlines.{newlines_after};
ghost use Rattle.text_base.specs.Decoding.{newlines, without_mark, decoded, Gives};

use crate::finding::{byte_at, find_byte, part};
use crate::reasons::{PageFault, PageReason};
use memchr::memchr;
use std::alloc::{AllocError, Global};

/// How many of the bytes are the start of a text.
fn valid_len(bytes: &[u8]) -> usize
    ensures { result ≡ utf8_valid_len bytes.now }
{
    match str::from_utf8(bytes) {
        Ok(_) => bytes.len(),
        Err(e) => e.valid_up_to(),
    }
}

/// Writes a line and its newline, and says where the next begins.
#[tactic(auto, using(crate::proofs::NewlineLemmas::last_line, crate::proofs::NewlineLemmas::line_with_lf, crate::proofs::NewlineLemmas::line_with_cr, crate::proofs::NewlineLemmas::past_cr, crate::proofs::Boundaries::past_byte))]
fn push_line(text: &str, from: usize, out: &mut String) -> Result<usize, AllocError>
    requires within { from < length text.now }
    requires place { IsPlace text.now from }
    ensures kept { IfOk result (λ n. string_bytes out.new ++ newlines_after false (drop n text.now) ≡ string_bytes out.old ++ newlines_after false (drop from text.now)) }
    ensures moves { IfOk result (λ n. from < n) }
    ensures place { IfOk result (λ n. IsPlace text.now n) }
{
    let cr = find_byte(text, b'\r', from);
    out.push_str(part(text, from, cr))?;
    if cr >= text.len() {
        return Ok(cr);
    }
    out.push('\n')?;
    if byte_at(text, cr + 1) == b'\n' {
        Ok(cr + 2)
    } else {
        Ok(cr + 1)
    }
}

/// The text with each CR LF and each CR as one LF.
#[tactic(auto, using(crate::proofs::Boundaries::at_start))]
fn with_newlines(alloc: Global, text: &str) -> Result<String, AllocError>
    ensures { IfOk result (λ s. string_bytes s ≡ newlines text.now) }
{
    let mut out = String::new(alloc);
    let mut from = 0;
    while from < text.len() {
        from = push_line(text, from, &mut out)?;
    }
    Ok(out)
}

/// The text without one mark at its start.
#[tactic(auto, using(crate::proofs::NewlineLemmas::past_mark))]
fn without_mark(text: &str) -> &str
    ensures { result.now ≡ without_mark text.now }
{
    if byte_at(text, 0) == 0xef && byte_at(text, 1) == 0xbb && byte_at(text, 2) == 0xbf {
        part(text, 3, text.len())
    } else {
        text
    }
}

/// The first byte 0, or the length.
#[tactic(auto, using(crate::proofs::NewlineLemmas::zero_none, crate::proofs::NewlineLemmas::zero_some))]
fn zero_place(bytes: &[u8]) -> usize
    ensures { result ≡ run_end (is_not_byte 0) bytes.now 0 }
{
    match memchr(0, bytes) {
        Some(k) => k,
        None => bytes.len(),
    }
}

/// The page's own bytes as its text, where they decode to themselves.
pub fn plain_page(bytes: &[u8]) -> Option<&str>
    ensures text { IfSome result (λ text. text.now ≡ bytes.now) }
    ensures some { IsSome result → decoded bytes.now ≡ Ok bytes.now }
    ensures none { result ≡ None → decoded bytes.now ≢ Ok bytes.now }
{
    if zero_place(bytes) < bytes.len() {
        return None;
    }
    match str::from_utf8(bytes) {
        Ok(text) => {
            if without_mark(text).len() < text.len() || find_byte(text, b'\r', 0) < text.len() {
                return None;
            }
            Some(text)
        }
        Err(_) => None,
    }
}

/// The text of a page, or its first fault.
#[tactic(auto, using(crate::proofs::NewlineLemmas::decoded_nul, crate::proofs::NewlineLemmas::decoded_bad, crate::proofs::NewlineLemmas::decoded_text))]
pub fn decode_page(alloc: Global, bytes: &[u8]) -> Result<String, PageFault>
    ensures { Gives string_bytes result (decoded bytes.now) }
{
    let zero_at = zero_place(bytes);
    match str::from_utf8(bytes) {
        Ok(text) => {
            if zero_at < bytes.len() {
                return Err(PageFault {
                    reason: PageReason::Nul,
                    at: zero_at,
                });
            }
            match with_newlines(alloc, without_mark(text)) {
                Ok(page) => Ok(page),
                Err(_) => Err(PageFault {
                    reason: PageReason::Memory,
                    at: 0,
                }),
            }
        }
        Err(e) => {
            let bad_at = e.valid_up_to();
            if zero_at < bad_at {
                Err(PageFault {
                    reason: PageReason::Nul,
                    at: zero_at,
                })
            } else {
                Err(PageFault {
                    reason: PageReason::NotUtf8,
                    at: bad_at,
                })
            }
        }
    }
}
