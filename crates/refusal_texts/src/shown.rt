//! The line of a place as it is shown.
ghost use Rattle.std.specs.Prelude.{◌≡◌, ◌++◌, OnOk, string_bytes, encode_utf8_all, map, take, drop};
ghost use Rattle.std.specs.List.{before_first};
ghost use Rattle.std.specs.Str.{chars};
ghost use Rattle.refusal_texts.specs.Places.{is_newline};
ghost use Rattle.refusal_texts.specs.Shown.{shown};

use text_base::NoMemory;

/// How many characters of the line are shown before the place, at most.
pub const MOST_BEFORE: usize = 60;

/// How many characters of the line are shown from the place on, at most.
pub const MOST_AFTER: usize = 20;

/// A character as it is shown: a control character of ASCII is a space.
fn shown(c: char) -> char
    ensures { result ≡ shown c }
{
    if c < ' ' || c == '\u{7f}' { ' ' } else { c }
}

/// Writes the characters of a text after the first so many, as they are shown.
#[tactic(auto, using(crate::proofs::Parts::written_more))]
pub fn push_from(out: &mut String, text: &str, skipped: usize) -> Result<(), NoMemory>
    ensures { OnOk result (string_bytes out.new ≡ string_bytes out.old ++ encode_utf8_all (map shown (drop skipped (chars text.now)))) }
{
    for c in text.chars().skip(skipped) {
        out.push(shown(c))?;
    }
    Ok(())
}

/// Writes the characters of a text up to its first line feed, so many at most, as they are shown.
pub fn push_line(out: &mut String, text: &str, most: usize) -> Result<(), NoMemory>
    ensures { OnOk result (string_bytes out.new ≡ string_bytes out.old ++ encode_utf8_all (map shown (take most (before_first is_newline (chars text.now))))) }
{
    for c in text.chars().take(most) {
        if c == '\n' {
            return Ok(());
        }
        out.push(shown(c))?;
    }
    Ok(())
}

/// Writes a space for each character of a text after the first so many.
pub fn push_spaces(out: &mut String, text: &str, skipped: usize) -> Result<(), NoMemory>
    ensures { OnOk result (string_bytes out.new ≡ string_bytes out.old ++ map (λ c. 32) (map shown (drop skipped (chars text.now)))) }
{
    for c in text.chars().skip(skipped) {
        out.push(' ')?;
    }
    Ok(())
}
