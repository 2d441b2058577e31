//! The name of a field, and that of a test.
ghost use Rattle.std.specs.Prelude.{◌==◌, ◌≡◌, ◌<◌, true, false, MatchOption};
ghost use Rattle.std.specs.List.{list_all, list_any, before_first, after_first};
ghost use Rattle.query_script.specs.Names.{is_name_start, is_name_byte, is_name, is_test_byte, is_test_name, is_named, label, after_colon};

use crate::cuts::trimmed;
use text_base::{find_byte, is_letter, part};

/// What stands before the first such byte and after it. The byte is ASCII.
#[tactic(auto, using(text_base::proofs::Boundaries::at_start, crate::proofs::SplitLemmas::past_found))]
pub(crate) fn split_at(text: &str, byte: u8) -> Option<(&str, &str)>
    requires { byte < 128 }
    ensures { MatchOption result (list_any (λ c. c == byte) text.now ≡ false) (λ sides. (list_any (λ c. c == byte) text.now ≡ true) × (sides.0.now ≡ before_first (λ c. c == byte) text.now) × (sides.1.now ≡ after_first (λ c. c == byte) text.now)) }
{
    let at = find_byte(text, byte, 0);
    if at >= text.len() {
        return None;
    }
    Some((part(text, 0, at), part(text, at + 1, text.len())))
}

fn is_name_start(byte: u8) -> bool
    ensures { result ≡ is_name_start byte }
{
    is_letter(byte) || byte == b'_'
}

fn is_name_byte(byte: u8) -> bool
    ensures { result ≡ is_name_byte byte }
{
    is_name_start(byte) || (byte >= b'0' && byte <= b'9')
}

#[tactic(auto, using(std::proofs::lemmas::List::Folds::list_all_at))]
fn all_name(text: &[u8]) -> bool
    ensures { result ≡ list_all is_name_byte text.now }
{
    for byte in text {
        if !is_name_byte(*byte) {
            return false;
        }
    }
    true
}

fn is_name(text: &[u8]) -> bool
    ensures { result ≡ is_name text.now }
{
    let [first, rest @ ..] = text else {
        return false;
    };
    is_name_start(*first) && all_name(rest)
}

fn is_test_byte(byte: u8) -> bool
    ensures { result ≡ is_test_byte byte }
{
    is_name_byte(byte) || byte == b'-'
}

#[tactic(auto, using(std::proofs::lemmas::List::Folds::list_all_at))]
fn all_test(text: &[u8]) -> bool
    ensures { result ≡ list_all is_test_byte text.now }
{
    for byte in text {
        if !is_test_byte(*byte) {
            return false;
        }
    }
    true
}

/// Whether a step may write it as the name of a test.
pub(crate) fn is_test_name(text: &[u8]) -> bool
    ensures { result ≡ is_test_name text.now }
{
    let [first, rest @ ..] = text else {
        return false;
    };
    is_name_start(*first) && all_test(rest)
}

/// The name of a field and what stands after its colon, where there are both: before the piece's first colon stands a name,
/// with blanks around it or not.
pub fn name_and_rest(piece: &str) -> Option<(&str, &str)>
    ensures { MatchOption result (is_named piece.now ≡ false) (λ sides. (is_named piece.now ≡ true) × (sides.0.now ≡ label piece.now) × (sides.1.now ≡ after_colon piece.now)) }
{
    let (before, rest) = split_at(piece, b':')?;
    let name = trimmed(before);
    if !is_name(name.as_bytes()) {
        return None;
    }
    Some((name, rest))
}
