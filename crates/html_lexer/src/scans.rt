ghost use Rattle.std.specs.Prelude.{◌≡◌, ◌≤◌, length};
ghost use Rattle.text_base.specs.Text.{find_where, IsPlace};
ghost use Rattle.html_lexer.specs.Names.{closes};
ghost use Rattle.html_lexer.specs.Steps.{is_opener, opens, raw_end};

use crate::names::{closes, is_raw};
use text_base::{byte_at, find_byte, is_letter};

fn is_opener(byte: u8) -> bool
    ensures { result ≡ is_opener byte }
{
    is_letter(byte) || byte == b'/' || byte == b'!' || byte == b'?'
}

/// Where the text ends that begins at a place, outside raw text.
#[tactic(auto, using(crate::proofs::PlainLemmas::plain_to_end, crate::proofs::PlainLemmas::plain_here, crate::proofs::PlainLemmas::plain_on))]
pub fn plain_end(text: &str, from: usize) -> usize
    requires { from ≤ length text.now }
    ensures end { result ≡ find_where opens text.now from }
    ensures order { from ≤ result }
    ensures within { result ≤ length text.now }
    ensures boundary { IsPlace text.now result }
{
    let mut at = from;
    loop {
        let next = find_byte(text, b'<', at);
        if next >= text.len() {
            return next;
        }
        if is_opener(byte_at(text, next + 1)) {
            return next;
        }
        at = next + 1;
    }
}

/// Where the end tag stands that ends raw text of this name, or the text's length.
#[tactic(auto, using(crate::proofs::RawLemmas::raw_to_end, crate::proofs::RawLemmas::raw_here, crate::proofs::RawLemmas::raw_on))]
fn close_place(text: &str, name: &str, from: usize) -> usize
    requires { from ≤ length text.now }
    ensures end { result ≡ find_where (closes name.now) text.now from }
    ensures order { from ≤ result }
    ensures within { result ≤ length text.now }
    ensures boundary { IsPlace text.now result }
{
    let mut at = from;
    loop {
        let next = find_byte(text, b'<', at);
        if next >= text.len() {
            return next;
        }
        if closes(text, next, name) {
            return next;
        }
        at = next + 1;
    }
}

/// Where the raw text ends that begins at a place after a start tag of this name, and the place
/// after any other.
pub fn raw_end(text: &str, name: &str, from: usize) -> usize
    requires within { from ≤ length text.now }
    requires place { IsPlace text.now from }
    ensures end { result ≡ raw_end text.now name.now from }
    ensures order { from ≤ result }
    ensures within { result ≤ length text.now }
    ensures boundary { IsPlace text.now result }
{
    if is_raw(name) {
        close_place(text, name, from)
    } else {
        from
    }
}
