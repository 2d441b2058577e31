//! Texts cut at bytes outside quotes, where braces keep a block in one piece.
ghost use Rattle.std.specs.Prelude.{◌≡◌, ◌+◌, ◌==◌, ◌&&◌, not, true, false, map, IfOk, MatchOption};
ghost use Rattle.page_records.specs.Braces.{open_after, stands, before_outside, after_outside, block_pieces, entries_of};
ghost use Rattle.query_script.specs.Cuts.{ends_field};
ghost use Rattle.page_records.specs.inner.Places.{test_of, last_close};

use query_script::{quote_after, written};
use std::alloc::Global;
use text_base::{NoMemory, byte_at, part};

/// A brace that is looked for outside quotes.
#[derive(Clone, Copy)]
pub(crate) enum Brace {
    Open,
    Close,
}

fn is_brace(brace: Brace, byte: u8) -> bool
    ensures { result ≡ test_of brace byte }
{
    match brace {
        Brace::Open => byte == b'{',
        Brace::Close => byte == b'}',
    }
}

fn is_outside(quote: u8, brace: Brace, byte: u8) -> bool
    ensures { result ≡ ((quote == 0) && test_of brace byte) }
{
    quote == 0 && is_brace(brace, byte)
}

/// What stands before the first such brace outside quotes and after it.
pub(crate) fn split_outside(text: &str, brace: Brace) -> Option<(&str, &str)>
    ensures { MatchOption result (stands (test_of brace) 0 text.now ≡ false) (λ sides. (stands (test_of brace) 0 text.now ≡ true) × (sides.0.now ≡ before_outside (test_of brace) 0 text.now) × (sides.1.now ≡ after_outside (test_of brace) 0 text.now)) }
{
    let mut quote: u8 = 0;
    for at in 0..text.len() {
        let byte = byte_at(text, at);
        if is_outside(quote, brace, byte) {
            return Some((part(text, 0, at), part(text, at + 1, text.len())));
        }
        quote = quote_after(quote, byte);
    }
    None
}

/// The place after the last `}` outside quotes, or 0 where there is none.
fn last_close(text: &str) -> usize
    ensures { result ≡ last_close 0 0 0 text.now }
{
    let mut end: usize = 0;
    let mut quote: u8 = 0;
    for at in 0..text.len() {
        let byte = byte_at(text, at);
        if is_outside(quote, Brace::Close, byte) {
            end = at + 1;
        }
        quote = quote_after(quote, byte);
    }
    end
}

/// Whether a `{` outside quotes is open after a byte.
fn open_after(begun: bool, quote: u8, byte: u8) -> bool
    ensures { result ≡ open_after begun quote byte }
{
    if quote != 0 {
        return begun;
    }
    if byte == b'{' {
        return true;
    }
    if byte == b'}' {
        return false;
    }
    begun
}

/// Whether the text is cut at a byte, where a `{` is open there or not, and a `}` outside quotes comes later or not.
fn is_cut(begun: bool, quote: u8, byte: u8, later: bool) -> bool
    ensures { result ≡ ((quote == 0) && (ends_field byte && not (begun && later))) }
{
    if quote != 0 {
        return false;
    }
    (byte == b';' || byte == b'\n') && !(begun && later)
}

/// The pieces of a text, with no copy.
fn block_pieces(alloc: Global, text: &str) -> Result<Vec<&str>, NoMemory>
    ensures { IfOk result (λ v. map (λ p. p.now) v.items ≡ block_pieces false 0 text.now) }
{
    let last = last_close(text);
    let mut done = Vec::new(alloc);
    let mut start: usize = 0;
    let mut quote: u8 = 0;
    let mut begun = false;
    for at in 0..text.len() {
        let byte = byte_at(text, at);
        if is_cut(begun, quote, byte, at + 1 < last) {
            done.push(part(text, start, at))?;
            start = at + 1;
            continue;
        }
        begun = open_after(begun, quote, byte);
        quote = quote_after(quote, byte);
    }
    done.push(part(text, start, text.len()))?;
    Ok(done)
}

/// The pieces of a script that are fields or blocks.
pub fn entry_pieces(alloc: Global, text: &str) -> Result<Vec<&str>, NoMemory>
    ensures { IfOk result (λ v. map (λ p. p.now) v.items ≡ entries_of text.now) }
{
    let all = block_pieces(alloc, text)?;
    written(alloc, all.as_slice())
}
