//! Lines and columns of places in a text.
ghost use Rattle.std.specs.Prelude.{◌≡◌, ◌+◌, ◌≤◌, length, take, drop};
ghost use Rattle.std.specs.List.{count_by, after_last};
ghost use Rattle.std.specs.Str.{chars};
ghost use Rattle.text_base.specs.Text.{IsPlace};
ghost use Rattle.refusal_texts.specs.Places.{is_inner, is_newline, outer};
ghost use Rattle.refusal_texts.specs.Places as spec;

use text_base::part;

/// Line and column of the end of a text, from 1.
#[derive(Clone, Copy)]
pub struct Position {
    pub line: usize,
    pub column: usize,
}

/// Whether the byte is one of a character after its first one.
fn is_inner(byte: u8) -> bool
    ensures { result ≡ is_inner byte }
{
    byte >= 128 && byte < 192
}

/// The place itself, or the next one at which the text may be cut; the text's end where it stands past that.
pub fn outer(text: &str, place: usize) -> usize
    ensures place { IsPlace text.now result }
    ensures before { take result text.now ≡ take (outer text.now place) text.now }
    ensures after { drop result text.now ≡ drop (outer text.now place) text.now }
{
    let bytes = text.as_bytes();
    if place >= bytes.len() {
        return bytes.len();
    }
    let mut at = place;
    while at < bytes.len() && is_inner(bytes[at]) {
        at += 1;
    }
    at
}

/// The part of a text before a place.
#[tactic(auto, using(text_base::proofs::Boundaries::at_start, crate::proofs::Parts::before_part))]
pub fn before(text: &str, place: usize) -> &str
    ensures { chars result.now ≡ spec.before text.now place }
{
    part(text, 0, outer(text, place))
}

/// The part of a text from a place on.
#[tactic(auto, using(crate::proofs::Parts::after_part))]
pub fn after(text: &str, place: usize) -> &str
    ensures { chars result.now ≡ spec.after text.now place }
{
    part(text, outer(text, place), text.len())
}

/// Line and column of the end of a text.
pub fn end_of(text: &str) -> Position
    ensures line { result.line ≡ count_by is_newline (chars text.now) + 1 }
    ensures column { result.column ≡ length (after_last is_newline (chars text.now)) + 1 }
{
    let mut line = 1;
    let mut column = 1;
    for c in text.chars() {
        if c == '\n' {
            line += 1;
            column = 1;
        } else {
            column += 1;
        }
    }
    Position { line, column }
}
