//! What is written about a refusal.
ghost use Rattle.std.specs.Prelude.{◌≡◌, ◌++◌, drop, codes, Some, OnOk, string_bytes, decimal};
ghost use Rattle.std.specs.Str.{chars};
ghost use Rattle.std.specs.List.{after_last};
ghost use Rattle.refusal_texts.specs.Places.{is_newline, place_text};
ghost use Rattle.refusal_texts.specs.Shown.{last, mark_line, most_before, shown_line};
ghost use Rattle.refusal_texts.specs.Written.{advice_text, reason_text, refusal_text};

use crate::places::{after, before, end_of};
use crate::refusal::Refusal;
use crate::shown::{MOST_AFTER, MOST_BEFORE, push_from, push_line, push_spaces};
use std::alloc::Global;
use text_base::{NoMemory, char_len};

/// Writes a text.
fn push(out: &mut String, text: &str) -> Result<(), NoMemory>
    ensures { OnOk result (string_bytes out.new ≡ string_bytes out.old ++ text.now) }
{
    out.push_str(text)?;
    Ok(())
}

/// Writes a number.
fn push_number(alloc: Global, out: &mut String, n: usize) -> Result<(), NoMemory>
    ensures { OnOk result (string_bytes out.new ≡ string_bytes out.old ++ decimal n) }
{
    let digits = n.to_string(alloc)?;
    push(out, digits.as_str())
}

/// Writes line and column of a place in bytes, as `3:14`. Both count from 1, and the column counts characters.
pub fn push_place(alloc: Global, out: &mut String, text: &str, place: usize) -> Result<(), NoMemory>
    ensures { OnOk result (string_bytes out.new ≡ string_bytes out.old ++ place_text text.now place) }
{
    let end = end_of(before(text, place));
    push_number(alloc, out, end.line)?;
    push(out, ":")?;
    push_number(alloc, out, end.column)
}

/// `css.Syntax: the tokens do not read as a selector`
fn push_reason(out: &mut String, refusal: &Refusal) -> Result<(), NoMemory>
    ensures { OnOk result (string_bytes out.new ≡ string_bytes out.old ++ reason_text refusal.now) }
{
    let (family, name) = refusal.words();
    push(out, family)?;
    push(out, ".")?;
    push(out, name)?;
    push(out, ": ")?;
    push(out, refusal.sentence())
}

/// `instead: close each bracket`
fn push_advice(out: &mut String, refusal: &Refusal) -> Result<(), NoMemory>
    ensures { OnOk result (string_bytes out.new ≡ string_bytes out.old ++ advice_text refusal.now) }
{
    push(out, "instead: ")?;
    push(out, refusal.advice())
}

/// How many characters of those before the place are not shown: all but the last of its line.
#[tactic(auto, using(crate::proofs::Parts::last_far, crate::proofs::Parts::last_near, crate::proofs::Parts::line_fits))]
fn skipped(before: &str) -> usize
    ensures { drop result (chars before.now) ≡ last most_before (after_last is_newline (chars before.now)) }
{
    let line = end_of(before).column - 1;
    let all = char_len(before) as usize;
    if line > MOST_BEFORE {
        all - MOST_BEFORE
    } else {
        all - line
    }
}

/// The place's line.
fn push_shown(out: &mut String, text: &str, place: usize) -> Result<(), NoMemory>
    ensures { OnOk result (string_bytes out.new ≡ string_bytes out.old ++ shown_line text.now place) }
{
    let before = before(text, place);
    push(out, "    ")?;
    push_from(out, before, skipped(before))?;
    push_line(out, after(text, place), MOST_AFTER)
}

/// The mark below the place.
fn push_mark(out: &mut String, text: &str, place: usize) -> Result<(), NoMemory>
    ensures { OnOk result (string_bytes out.new ≡ string_bytes out.old ++ mark_line text.now place) }
{
    let before = before(text, place);
    push(out, "    ")?;
    push_spaces(out, before, skipped(before))?;
    push(out, "^")
}

/// Why, and what to write instead.
fn push_plain(out: &mut String, refusal: &Refusal) -> Result<(), NoMemory>
    ensures { OnOk result (string_bytes out.new ≡ string_bytes out.old ++ (reason_text refusal.now ++ (codes "\n" ++ advice_text refusal.now))) }
{
    push_reason(out, refusal)?;
    push(out, "\n")?;
    push_advice(out, refusal)
}

/// Where, and why.
fn push_first(
    alloc: Global,
    out: &mut String,
    refusal: &Refusal,
    text: &str,
    place: usize,
) -> Result<(), NoMemory>
    ensures { OnOk result (string_bytes out.new ≡ string_bytes out.old ++ (place_text text.now place ++ (codes ": " ++ reason_text refusal.now))) }
{
    push_place(alloc, out, text, place)?;
    push(out, ": ")?;
    push_reason(out, refusal)
}

/// The place's line and the mark below it.
fn push_lines(out: &mut String, text: &str, place: usize) -> Result<(), NoMemory>
    ensures { OnOk result (string_bytes out.new ≡ string_bytes out.old ++ (shown_line text.now place ++ (codes "\n" ++ mark_line text.now place))) }
{
    push_shown(out, text, place)?;
    push(out, "\n")?;
    push_mark(out, text, place)
}

/// Where and why, the place's line, and what to write instead.
fn push_placed(
    alloc: Global,
    out: &mut String,
    refusal: &Refusal,
    text: &str,
    place: usize,
) -> Result<(), NoMemory>
    ensures { OnOk result (string_bytes out.new ≡ string_bytes out.old ++ refusal_text refusal.now text.now (Some place)) }
{
    push_first(alloc, out, refusal, text, place)?;
    push(out, "\n")?;
    push_lines(out, text, place)?;
    push(out, "\n")?;
    push_advice(out, refusal)
}

/// Writes why a text is refused and what to write instead, a line each, and between them, where a place in bytes is
/// given, the place's line and a mark below it. The last line is without its line feed.
pub fn push_refusal(
    alloc: Global,
    out: &mut String,
    refusal: &Refusal,
    text: &str,
    place: Option<usize>,
) -> Result<(), NoMemory>
    ensures { OnOk result (string_bytes out.new ≡ string_bytes out.old ++ refusal_text refusal.now text.now place) }
{
    match place {
        Some(place) => push_placed(alloc, out, refusal, text, place),
        None => push_plain(out, refusal),
    }
}
