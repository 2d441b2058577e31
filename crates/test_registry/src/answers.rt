//! What tests of each kind answer. Nothing here takes memory.
ghost use Rattle.std.specs.Prelude.{◌≡◌};
ghost use Rattle.test_registry.specs.declared.kinds.TestKind.TheVariants.{SameFolded, EndsWith, HasWord, Near};
ghost use Rattle.test_registry.specs.Meets.{meets, number_of, are_near};

use crate::kinds::TestKind;
use text_base::{NotSpace4, Space4, part, run_end};

/// Whether the texts are equal but for the case of ASCII letters.
#[tactic(auto, using(crate::proofs::Equal::same_folded))]
pub fn same_folded(a: &str, b: &str) -> bool
    ensures { result ≡ meets SameFolded a.now b.now }
{
    a.eq_ignore_ascii_case(b)
}

/// Whether the first text ends with the second.
#[tactic(auto, using(std::proofs::lemmas::Str::Pattern::ends_text, text_base::proofs::TextTests::std_ends))]
pub fn ends_with(a: &str, b: &str) -> bool
    ensures { result ≡ meets EndsWith a.now b.now }
{
    a.ends_with(b)
}

/// Whether the second text is a word of the first: a maximal run without white space of XML.
pub fn has_word(a: &str, b: &str) -> bool
    ensures { result ≡ meets HasWord a.now b.now }
{
    let mut at = 0;
    while at < a.len() {
        let start = run_end(a, &Space4, at);
        if start >= a.len() {
            return false;
        }
        let end = run_end(a, &NotSpace4, start);
        if part(a, start, end) == b {
            return true;
        }
        at = end;
    }
    false
}

/// The number that one to nine ASCII digits write.
fn number_of(text: &str) -> Option<u32>
    ensures { result ≡ number_of text.now }
{
    let bytes = text.as_bytes();
    if bytes.len() < 1 || bytes.len() > 9 {
        return None;
    }
    let mut value = 0u32;
    for byte in bytes {
        if !byte.is_ascii_digit() {
            return None;
        }
        value = value * 10 + (*byte - b'0') as u32;
    }
    Some(value)
}

/// Whether there are two numbers, and they differ by at most so much.
fn are_near(most: u32, m: Option<u32>, n: Option<u32>) -> bool
    ensures { result ≡ are_near most m n }
{
    match (m, n) {
        (Some(m), Some(n)) => m.abs_diff(n) <= most,
        _ => false,
    }
}

/// Whether both texts are numbers of one to nine digits that differ by at most so much.
pub fn near(most: u32, a: &str, b: &str) -> bool
    ensures { result ≡ meets (Near most) a.now b.now }
{
    are_near(most, number_of(a), number_of(b))
}
