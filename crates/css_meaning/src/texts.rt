//! Tests on texts, byte for byte. None takes memory.
ghost use Rattle.std.specs.Prelude.{◌≡◌, ◌==◌, ◌||◌, nat_le, length, slice_index, map};
ghost use Rattle.std.specs.Char.{to_ascii_lowercase};
ghost use Rattle.std.specs.Str.{chars, bytes_eq};
ghost use Rattle.text_base.specs.Strings.{starts_with, is_among};

/// Whether the texts are the same.
pub fn is_text(text: &str, other: &str) -> bool
    ensures { result ≡ bytes_eq (chars text.now) (chars other.now) }
{
    text == other
}

/// Whether the text is one of the others.
pub fn is_one_of(text: &str, others: &[&str]) -> bool
    ensures { result ≡ is_among (chars text.now) (map (λ other. chars other.now) others.now) }
{
    for other in others {
        if is_text(other, text) {
            return true;
        }
    }
    false
}

/// Whether the bytes are the others with their ASCII letters in lower case.
pub fn is_lowered(low: &[u8], bytes: &[u8]) -> bool
    ensures { result ≡ bytes_eq low.now (map to_ascii_lowercase bytes.now) }
{
    if low.len() != bytes.len() {
        return false;
    }
    for i in 0..low.len() {
        if low[i] != bytes[i].to_ascii_lowercase() {
            return false;
        }
    }
    true
}

/// Whether the bytes begin with the others, ASCII letter case ignored.
pub fn begins_in_any_case(bytes: &[u8], start: &[u8]) -> bool
    ensures { result ≡ starts_with (map to_ascii_lowercase bytes.now) (map to_ascii_lowercase start.now) }
{
    start.len() <= bytes.len() && bytes[..start.len()].eq_ignore_ascii_case(start)
}

/// Whether the bytes end before a place, or a `-` stands there.
pub fn stops_or_dash(bytes: &[u8], at: usize) -> bool
    ensures { result ≡ (nat_le (length bytes.now) at || (slice_index bytes.now at == 45)) }
{
    bytes.len() <= at || bytes[at] == b'-'
}
