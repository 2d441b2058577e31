ghost use Rattle.std.specs.Prelude.{◌≡◌, ◌+◌, ◌<◌, ◌≤◌, ◌++◌, ℕ, List, length, slice_index, IfOk, OnOk};
ghost use Rattle.std.specs.String.{string_bytes};
ghost use Rattle.std.specs.Str.{chars};
ghost use Rattle.text_base.specs.Text.{IsPlace};
ghost use Rattle.css_lexer.specs.Contents.{newline_len, lost_len, slashed_len, slashed_value, unit_len, unit_value, Reads};
ghost use Rattle.css_lexer.specs.inner.Pushing.{Pushes};

use crate::escapes::{is_break, push_escape};
use std::alloc::{AllocError, Global};
use text_base::{ByteKind, NoMemory, Txt, byte_at, is_digit, is_letter, part, run_end};

/// What the content of a token is: a name, or what stands between two quotes.
#[derive(Clone, Copy)]
pub(crate) enum Content {
    Name,
    Double,
    Single,
}

impl ByteKind for Content {
    ghost use Rattle.css_lexer.specs.Contents.{is_plain};
    ghost use Rattle.css_lexer.specs.inner.Kinds.{plain_wide};

    ghost test = { is_plain };

    fn has(&self, byte: u8) -> bool {
        match self {
            Content::Name => {
                is_letter(byte) || is_digit(byte) || byte == b'-' || byte == b'_' || byte >= 128
            }
            Content::Double => !(byte == b'"' || is_break(byte) || byte == b'\\'),
            Content::Single => !(byte == b'\'' || is_break(byte) || byte == b'\\'),
        }
    }

    ghost keeps_characters = { plain_wide };
}

fn newline_len(text: &str, at: usize) -> usize
    requires { at ≤ length text.now }
    ensures { result ≡ newline_len text.now at }
{
    let first = byte_at(text, at);
    if first == b'\r' && byte_at(text, at + 1) == b'\n' {
        2
    } else if is_break(first) {
        1
    } else {
        0
    }
}

/// How long the newline at a place is that a backslash before it takes away.
fn lost_len(text: &str, content: Content, at: usize) -> usize
    requires { at ≤ length text.now }
    ensures { result ≡ lost_len content text.now at }
{
    match content {
        Content::Name => 0,
        Content::Double => newline_len(text, at),
        Content::Single => newline_len(text, at),
    }
}

/// Adds what a backslash and what it takes with it stand for, and says how many bytes they are.
#[tactic(auto, using(crate::proofs::ContentLemmas::lost_place, crate::proofs::ContentLemmas::no_bytes))]
fn push_slashed(
    text: &str,
    content: Content,
    at: usize,
    out: &mut String,
) -> Result<usize, AllocError>
    requires within { at < length text.now }
    requires slash { slice_index text.now at ≡ 92 }
    ensures len { IfOk result (λ n. n ≡ slashed_len content text.now at) }
    ensures value { OnOk result (string_bytes out.new ≡ string_bytes out.old ++ slashed_value content text.now at) }
    ensures place { IfOk result (λ n. IsPlace text.now (at + n)) }
{
    let lost = lost_len(text, content, at + 1);
    if lost > 0 {
        return Ok(1 + lost);
    }
    push_escape(text, at, out)
}

/// Adds a run of bytes that stand for themselves, or what a backslash takes with it, and says how
/// many bytes were read.
#[tactic(auto, using(text_base::proofs::Boundaries::in_text))]
fn push_unit(text: &str, content: Content, at: usize, out: &mut String) -> Result<usize, AllocError>
    requires within { at ≤ length text.now }
    requires place { IsPlace text.now at }
    ensures len { IfOk result (λ n. n ≡ unit_len content text.now at) }
    ensures value { OnOk result (string_bytes out.new ≡ string_bytes out.old ++ unit_value content text.now at) }
    ensures place { IfOk result (λ n. IsPlace text.now (at + n)) }
{
    if byte_at(text, at) == b'\\' {
        push_slashed(text, content, at, out)
    } else {
        let end = run_end(text, &content, at);
        out.push_str(part(text, at, end))?;
        let n = end - at;
        Ok(n)
    }
}

/// Adds what the content from a place on stands for, and says where it ends.
fn push_content(
    text: &str,
    content: Content,
    from: usize,
    out: &mut String,
) -> Result<usize, AllocError>
    requires within { from ≤ length text.now }
    requires place { IsPlace text.now from }
    ensures pushes { IfOk result (λ end. Pushes content text.now from (string_bytes out.old) end (string_bytes out.new)) }
    ensures place { IfOk result (λ end. IsPlace text.now end) }
    ensures order { IfOk result (λ end. from ≤ end) }
{
    let mut at = from;
    loop {
        let n = push_unit(text, content, at, out)?;
        if n == 0 {
            return Ok(at);
        }
        at += n;
    }
}

/// Where some content ends, and its value.
#[derive(Drop)]
pub(crate) struct Read {
    pub(crate) end: usize,
    pub(crate) value: Txt,
}

/// The content from a place on.
pub(crate) fn read_content(
    alloc: Global,
    text: &str,
    content: Content,
    from: usize,
) -> Result<Read, NoMemory>
    requires within { from ≤ length text.now }
    requires place { IsPlace text.now from }
    ensures reads { IfOk result (λ read. (value : List ℕ) × Reads content text.now from read.end value × (read.value ≡ chars value)) }
    ensures place { IfOk result (λ read. IsPlace text.now read.end) }
    ensures order { IfOk result (λ read. from ≤ read.end) }
{
    let mut out = String::new(alloc);
    match push_content(text, content, from, &mut out) {
        Ok(end) => Ok(Read {
            end,
            value: Txt::from_string(out),
        }),
        Err(_) => Err(NoMemory),
    }
}
