ghost use Rattle.std.specs.Prelude.{◌≡◌, ◌≢◌, ◌++◌, ◌<◌, ◌≤◌, ◌⊎◌, ◌||◌, [], ◌∷◌, OnOk, IfOk, length, slice_index, string_bytes, encode_utf8_all, ◌==◌, true, false};
ghost use Rattle.std.specs.List.{list_any};
ghost use Rattle.text_base.specs.Text.{IsPlace, run_end, is_not_byte};
ghost use Rattle.css_printed.specs.Literals.{is_apostrophe, is_double, quoted_runs, quoted, listed, literal_text};
ghost use Rattle.css_translate.specs.inner.Runs.{WritesRun, further};

use crate::pushing::{push, push_all};
use std::alloc::Global;
use text_base::{NoMemory, Txt, byte_at, find_byte, part};

/// Whether the byte stands in the text.
fn has_byte(text: &str, byte: u8) -> bool
    ensures { result ≡ list_any (λ c. c == byte) text.now }
{
    find_byte(text, byte, 0) < text.len()
}

/// Where the apostrophes end that begin at the place.
fn apostrophes_end(text: &str, from: usize) -> usize
    requires within { from < length text.now }
    requires first { slice_index text.now from ≡ 39 }
    ensures end { result ≡ run_end is_apostrophe text.now from }
    ensures moves { from < result }
    ensures within { result ≤ length text.now }
    ensures place { IsPlace text.now result }
{
    let bytes = text.as_bytes();
    let mut at = from + 1;
    while at < bytes.len() && bytes[at] == b'\'' {
        at += 1;
    }
    at
}

fn push_quoted(out: &mut String, quote: &str, content: &str) -> Result<(), NoMemory>
    ensures { OnOk result (string_bytes out.new ≡ string_bytes out.old ++ (quote.now ++ (content.now ++ quote.now))) }
{
    push_all(out, &[quote, content, quote][..])
}

/// Appends the run that begins at the place, and gives where it ends.
fn push_run(out: &mut String, text: &str, from: usize) -> Result<usize, NoMemory>
    requires within { from < length text.now }
    requires place { IsPlace text.now from }
    ensures { IfOk result (λ to. WritesRun text.now from to (string_bytes out.old) (string_bytes out.new)) }
{
    if byte_at(text, from) == b'\'' {
        let to = apostrophes_end(text, from);
        push_quoted(out, "\"", part(text, from, to))?;
        Ok(to)
    } else {
        let to = find_byte(text, b'\'', from);
        push_quoted(out, "'", part(text, from, to))?;
        Ok(to)
    }
}

/// Appends all runs, with commas between.
fn push_runs(out: &mut String, text: &str) -> Result<(), NoMemory>
    requires { text.now ≢ [] }
    ensures { OnOk result (string_bytes out.new ≡ string_bytes out.old ++ listed (quoted_runs text.now)) }
{
    let mut at = push_run(out, text, 0)?;
    while at < text.len() {
        push(out, ", ")?;
        at = push_run(out, text, at)?;
    }
    Ok(())
}

fn push_concat(out: &mut String, text: &str) -> Result<(), NoMemory>
    requires apostrophe { list_any is_apostrophe text.now ≡ true }
    requires double { list_any is_double text.now ≡ true }
    ensures { OnOk result (string_bytes out.new ≡ string_bytes out.old ++ literal_text text.now) }
{
    push(out, "concat(")?;
    push_runs(out, text)?;
    push(out, ")")
}

/// Appends the literal of a text.
pub fn push_literal(out: &mut String, text: &str) -> Result<(), NoMemory>
    ensures { OnOk result (string_bytes out.new ≡ string_bytes out.old ++ literal_text text.now) }
{
    if !has_byte(text, b'\'') {
        push_quoted(out, "'", text)
    } else if !has_byte(text, b'"') {
        push_quoted(out, "\"", text)
    } else {
        push_concat(out, text)
    }
}

/// Appends the literal of a value.
pub fn push_value(out: &mut String, value: &Txt) -> Result<(), NoMemory>
    ensures { OnOk result (string_bytes out.new ≡ string_bytes out.old ++ literal_text (encode_utf8_all value.now)) }
{
    push_literal(out, value.as_str())
}

/// The literal of XPath that stands for a text: in `'`, or in `"` where the text has a `'`, or a `concat` of its runs
/// where it has both. XPath 1.0, section 3.7.
pub fn literal(alloc: Global, text: &str) -> Result<String, NoMemory>
    ensures { IfOk result (λ t. string_bytes t ≡ literal_text text.now) }
{
    let mut out = String::new(alloc);
    push_literal(&mut out, text)?;
    Ok(out)
}
