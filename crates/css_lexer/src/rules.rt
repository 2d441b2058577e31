ghost use Rattle.std.specs.Prelude.{◌≡◌, ◌+◌, ◌<◌, ◌≤◌, IfSome, length};
ghost use Rattle.css_lexer.specs.inner.Pushing.{Begins};
ghost use Rattle.css_lexer.specs.Tokens.{starts_name, starts_ident, rule_at, kind_of_two, kind_of_one};

use crate::escapes::escape_len;
use crate::tokens::CssKind;
use text_base::{byte_at, is_letter, is_white};

/// The rules of tokens, in their order.
#[derive(Clone, Copy)]
pub(crate) enum Rule {
    Space,
    /// A Function or an Ident.
    Name,
    Hash,
    /// A string in double quotes.
    Double,
    /// A string in single quotes.
    Single,
    Digits,
    /// One or two characters.
    Symbol,
}

#[tactic(auto, using(text_base::proofs::Boundaries::in_text))]
fn starts_name(text: &str, at: usize) -> bool
    requires { at ≤ length text.now }
    ensures { result ≡ starts_name text.now at }
{
    let byte = byte_at(text, at);
    if byte == b'\\' {
        escape_len(text, at) > 0
    } else {
        is_letter(byte) || byte == b'_' || byte >= 128
    }
}

#[tactic(auto, using(text_base::proofs::Boundaries::in_text))]
fn starts_ident(text: &str, at: usize) -> bool
    requires { at < length text.now }
    ensures { result ≡ starts_ident text.now at }
{
    if byte_at(text, at) == b'-' {
        starts_name(text, at + 1)
    } else {
        starts_name(text, at)
    }
}

/// The first rule that may fit at a place.
pub(crate) fn rule_at(text: &str, at: usize) -> Rule
    requires { at < length text.now }
    ensures rule { result ≡ rule_at text.now at }
    ensures begins { Begins result text.now at }
{
    let byte = byte_at(text, at);
    if is_white(byte) {
        Rule::Space
    } else if starts_ident(text, at) {
        Rule::Name
    } else if byte == b'#' {
        Rule::Hash
    } else if byte == b'"' {
        Rule::Double
    } else if byte == b'\'' {
        Rule::Single
    } else if byte >= b'0' && byte <= b'9' {
        Rule::Digits
    } else {
        Rule::Symbol
    }
}

/// The kind of a token of these two characters.
pub(crate) fn kind_of_two(first: u8, second: u8) -> Option<CssKind>
    ensures kind { result ≡ kind_of_two first second }
    ensures ascii { IfSome result (λ _. second < 128) }
    ensures some { IfSome result (λ _. 0 < second) }
{
    if first == b'~' && second == b'=' {
        Some(CssKind::WordMatch)
    } else if first == b'|' && second == b'=' {
        Some(CssKind::DashMatch)
    } else if first == b'^' && second == b'=' {
        Some(CssKind::PrefixMatch)
    } else if first == b'$' && second == b'=' {
        Some(CssKind::SuffixMatch)
    } else if first == b'*' && second == b'=' {
        Some(CssKind::PartMatch)
    } else if first == b':' && second == b':' {
        Some(CssKind::DoubleColon)
    } else {
        None
    }
}

/// The kind of a token of this one character.
pub(crate) fn kind_of_one(byte: u8) -> Option<CssKind>
    ensures kind { result ≡ kind_of_one byte }
    ensures ascii { IfSome result (λ _. byte < 128) }
    ensures some { IfSome result (λ _. 0 < byte) }
{
    match byte {
        b'*' => Some(CssKind::Star),
        b'.' => Some(CssKind::Dot),
        b':' => Some(CssKind::Colon),
        b'[' => Some(CssKind::OpenSquare),
        b']' => Some(CssKind::CloseSquare),
        b')' => Some(CssKind::CloseRound),
        b',' => Some(CssKind::Comma),
        b'+' => Some(CssKind::Plus),
        b'>' => Some(CssKind::Greater),
        b'~' => Some(CssKind::Tilde),
        b'|' => Some(CssKind::Bar),
        b'=' => Some(CssKind::Equal),
        b'-' => Some(CssKind::Minus),
        _ => None,
    }
}
