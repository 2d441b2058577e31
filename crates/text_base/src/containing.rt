//! How a text begins and ends, and what it contains. None of this takes memory.
ghost use Rattle.std.specs.Prelude.{◌≡◌};
ghost use Rattle.std.specs.Str.{chars};
ghost use Rattle.text_base.specs.Strings as spec;

use crate::finding::find_text;

/// Whether the text has no characters.
#[tactic(auto, using(crate::proofs::ByteParts::no_chars))]
pub fn is_empty(text: &str) -> bool
    ensures { result ≡ spec.is_empty (chars text.now) }
{
    text.is_empty()
}

/// Whether the text begins with the other.
pub fn begins(text: &str, start: &str) -> bool
    ensures { result ≡ spec.starts_with (chars text.now) (chars start.now) }
{
    text.starts_with(start)
}

/// Whether the text ends with the other.
pub fn ends(text: &str, end: &str) -> bool
    ensures { result ≡ spec.ends_with (chars text.now) (chars end.now) }
{
    text.ends_with(end)
}

/// Whether the text contains the other.
pub fn includes(text: &str, part: &str) -> bool
    ensures { result ≡ spec.contains (chars text.now) (chars part.now) }
{
    part.is_empty() || find_text(text, part.as_bytes(), 0) < text.len()
}
