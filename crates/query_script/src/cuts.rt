//! Texts cut at bytes outside quotes, and texts without blanks at their ends.
ghost use Rattle.std.specs.Prelude.{◌==◌, ◌&&◌, ◌≡◌, map, filter, IfOk};
ghost use Rattle.std.specs.List.{list_all};
ghost use Rattle.query_script.specs.Cuts.{quote_after, pieces, is_blank, skip_front, skip_back, trimmed, is_written, fields_of};
ghost use Rattle.query_script.specs.inner.Reader.{cuts_of};

use std::alloc::Global;
use text_base::{NoMemory, byte_at, part};

/// Where a text is cut: between fields or between steps.
#[derive(Clone, Copy)]
pub(crate) enum Cut {
    Fields,
    Points,
}

fn cuts(cut: Cut, byte: u8) -> bool
    ensures { result ≡ cuts_of cut byte }
{
    match cut {
        Cut::Fields => byte == b';' || byte == b'\n',
        Cut::Points => byte == b'.',
    }
}

/// The quote that is open after a byte, or 0, where this quote was open before it, or none and then 0.
pub fn quote_after(quote: u8, byte: u8) -> u8
    ensures { result ≡ quote_after quote byte }
{
    if quote == 0 {
        if byte == b'"' || byte == b'\'' {
            return byte;
        }
        return 0;
    }
    if byte == quote {
        return 0;
    }
    quote
}

fn is_cut(cut: Cut, quote: u8, byte: u8) -> bool
    ensures { result ≡ ((quote == 0) && cuts_of cut byte) }
{
    quote == 0 && cuts(cut, byte)
}

/// The pieces of a text, with no copy.
pub(crate) fn pieces(alloc: Global, text: &str, cut: Cut) -> Result<Vec<&str>, NoMemory>
    ensures { IfOk result (λ v. map (λ p. p.now) v.items ≡ pieces (cuts_of cut) 0 text.now) }
{
    let mut done = Vec::new(alloc);
    let mut start: usize = 0;
    let mut quote: u8 = 0;
    for at in 0..text.len() {
        let byte = byte_at(text, at);
        if is_cut(cut, quote, byte) {
            done.push(part(text, start, at))?;
            start = at + 1;
            continue;
        }
        quote = quote_after(quote, byte);
    }
    done.push(part(text, start, text.len()))?;
    Ok(done)
}

/// Whether a byte is a space, a tab or a carriage return.
fn is_blank(byte: u8) -> bool
    ensures { result ≡ is_blank byte }
{
    byte == b' ' || byte == b'\t' || byte == b'\r'
}

#[tactic(auto, using(crate::proofs::TrimLemmas::front_one, crate::proofs::TrimLemmas::front_stop, crate::proofs::TrimLemmas::front_empty, crate::proofs::TrimLemmas::past_blank))]
fn skip_front(text: &str) -> &str
    ensures { result.now ≡ skip_front text.now }
{
    let mut rest = text;
    while !rest.is_empty() {
        if !is_blank(byte_at(rest, 0)) {
            return rest;
        }
        rest = part(rest, 1, rest.len());
    }
    rest
}

#[tactic(auto, using(crate::proofs::TrimLemmas::back_part, text_base::proofs::Boundaries::at_start, crate::proofs::TrimLemmas::back_stop, crate::proofs::TrimLemmas::back_empty, crate::proofs::TrimLemmas::blank_ascii, text_base::proofs::Boundaries::before_ascii))]
fn skip_back(text: &str) -> &str
    ensures { result.now ≡ skip_back text.now }
{
    let mut rest = text;
    while !rest.is_empty() {
        if !is_blank(byte_at(rest, rest.len() - 1)) {
            return rest;
        }
        rest = part(rest, 0, rest.len() - 1);
    }
    rest
}

/// The text without the blanks at its two ends. Blanks are spaces, tabs and carriage returns.
pub fn trimmed(text: &str) -> &str
    ensures { result.now ≡ trimmed text.now }
{
    skip_back(skip_front(text))
}

#[tactic(auto, using(std::proofs::lemmas::List::Folds::list_all_at))]
fn all_blank(text: &str) -> bool
    ensures { result ≡ list_all is_blank text.now }
{
    for byte in text.as_bytes() {
        if !is_blank(*byte) {
            return false;
        }
    }
    true
}

/// The pieces that are not blanks alone, in their order.
pub fn written<'t>(alloc: Global, all: &[&'t str]) -> Result<Vec<&'t str>, NoMemory>
    ensures { IfOk result (λ v. map (λ p. p.now) v.items ≡ filter is_written (map (λ p. p.now) all.now)) }
{
    let mut some = Vec::new(alloc);
    for piece in all {
        if all_blank(piece) {
            continue;
        }
        some.push(*piece)?;
    }
    Ok(some)
}

/// The pieces of a script that are fields, with no copy: what stands between two semicolons or line feeds outside quotes, where
/// it is not blanks alone.
pub fn field_pieces(alloc: Global, text: &str) -> Result<Vec<&str>, NoMemory>
    ensures { IfOk result (λ v. map (λ p. p.now) v.items ≡ fields_of text.now) }
{
    let all = pieces(alloc, text, Cut::Fields)?;
    written(alloc, all.as_slice())
}
