ghost use Rattle.std.specs.Prelude.{◌≡◌, IfOk, string_bytes, encode_utf8_all, map};
ghost use Rattle.std.specs.Str.{chars};
ghost use Rattle.std.specs.Char.{to_ascii_lowercase};
ghost use Rattle.text_base.specs.Text.{is_space4, is_space5};

use crate::NoMemory;
use std::alloc::Global;

/// Whether a character is a space, a tab, a line feed, a carriage return or a form feed.
pub fn is_space5(c: char) -> bool
    ensures { result ≡ is_space5 c }
{
    c == ' ' || c == '\t' || c == '\n' || c == '\r' || c == '\u{c}'
}

/// Whether a character is a space, a tab, a carriage return or a line feed.
pub fn is_space4(c: char) -> bool
    ensures { result ≡ is_space4 c }
{
    c == ' ' || c == '\t' || c == '\n' || c == '\r'
}

/// The text with its ASCII letters in lower case.
pub fn lower_ascii(alloc: Global, text: &str) -> Result<String, NoMemory>
    ensures { IfOk result (λ s. string_bytes s ≡ encode_utf8_all (map to_ascii_lowercase (chars text.now))) }
{
    match text.chars().map(|c| c.to_ascii_lowercase()).collect(alloc) {
        Ok(lower) => Ok(lower),
        Err(_) => Err(NoMemory),
    }
}
