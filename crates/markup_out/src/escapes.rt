//! Texts with references in place of some characters.
ghost use Rattle.std.specs.Prelude.{◌≡◌, OnOk};
ghost use Rattle.std.specs.List.{list_any};
ghost use Rattle.std.specs.Str.{chars};
ghost use Rattle.markup_out.specs.inner.Adding.{Adds};
ghost use Rattle.markup_out.specs.Escapes.{text_escape, value_escape, escape, is_mark, escaped};

use crate::output::Output;
use text_base::NoMemory;

/// A character of a text.
fn push_text_char(out: &mut Output, back: bool, c: char) -> Result<(), NoMemory>
    ensures { OnOk result (Adds out.old out.new (text_escape back c)) }
{
    match c {
        '&' => out.push("&amp;"),
        '<' => out.push("&lt;"),
        '>' => out.push("&gt;"),
        '\u{a0}' => out.push("&nbsp;"),
        '\r' if back => out.push("&#13;"),
        _ => out.push_char(c),
    }
}

/// A character of a value.
fn push_value_char(out: &mut Output, back: bool, c: char) -> Result<(), NoMemory>
    ensures { OnOk result (Adds out.old out.new (value_escape back c)) }
{
    match c {
        '&' => out.push("&amp;"),
        '"' => out.push("&quot;"),
        '\u{a0}' => out.push("&nbsp;"),
        '\r' if back => out.push("&#13;"),
        _ => out.push_char(c),
    }
}

fn push_char(out: &mut Output, back: bool, quoted: bool, c: char) -> Result<(), NoMemory>
    ensures { OnOk result (Adds out.old out.new (escape back quoted c)) }
{
    if quoted {
        push_value_char(out, back, c)
    } else {
        push_text_char(out, back, c)
    }
}

/// Whether the byte begins a character for which a reference may stand: it is that character, or the first of the two
/// bytes of a no-break space.
fn is_mark(b: u8) -> bool
    ensures { result ≡ is_mark b }
{
    matches!(b, b'&' | b'<' | b'>' | b'"' | b'\r' | 0xc2)
}

/// Whether a reference may be wanted in the text.
fn has_mark(text: &str) -> bool
    ensures { result ≡ list_any is_mark text.now }
{
    for b in text.as_bytes() {
        if is_mark(*b) {
            return true;
        }
    }
    false
}

fn push_each(out: &mut Output, back: bool, quoted: bool, text: &str) -> Result<(), NoMemory>
    ensures { OnOk result (Adds out.old out.new (escaped back quoted (chars text.now))) }
{
    for c in text.chars() {
        push_char(out, back, quoted, c)?;
    }
    Ok(())
}

/// Writes a text, or a value, with its characters escaped: as it is shown, or so that HTML reads it back.
pub fn push_escaped(out: &mut Output, back: bool, quoted: bool, text: &str) -> Result<(), NoMemory>
    ensures { OnOk result (Adds out.old out.new (escaped back quoted (chars text.now))) }
{
    if has_mark(text) {
        push_each(out, back, quoted, text)
    } else {
        out.push(text)
    }
}
