//! Numbers of XPath 1.0, section 3.7.
ghost use Rattle.std.specs.Prelude.{◌≡◌, ◌==◌, if◌then◌else◌, nat_le, Some, None, pos};
ghost use Rattle.std.specs.List.{list_any};
ghost use Rattle.text_base.specs.Text.{digits_value};
ghost use Rattle.xpath_values.specs.Numbers.{largest_whole};
ghost use Rattle.xpath_parser.specs.Terms.{number_term};

use crate::term::Term;
use xpath_values::LARGEST_WHOLE;

/// The value of digits, if it is at most the largest whole number.
fn digits_value(digits: &[u8]) -> Option<i64>
    ensures { result ≡ (if nat_le (digits_value digits.now) largest_whole then Some (pos (digits_value digits.now)) else None) }
{
    let mut value = 0u64;
    for digit in digits {
        value = value * 10 + digit.saturating_sub(b'0') as u64;
        if value > LARGEST_WHOLE {
            return None;
        }
    }
    Some(value as i64)
}

fn has_point(text: &[u8]) -> bool
    ensures { result ≡ list_any (λ b. b == 46) text.now }
{
    text.iter().any(|byte| *byte == b'.')
}

/// A number's term.
pub fn number_term(text: &str) -> Term
    ensures { result ≡ number_term text.now }
{
    if has_point(text.as_bytes()) {
        return Term::Fraction;
    }
    match digits_value(text.as_bytes()) {
        Some(value) => Term::Number(value),
        None => Term::TooLarge,
    }
}
