ghost use Rattle.std.specs.Prelude.{◌≡◌};
ghost use Rattle.std.specs.Str.{chars};
ghost use Rattle.xpath_values.specs.Numbers as spec;
ghost use Rattle.xpath_values.specs.inner.Reading as reading;

use crate::numbers::{LARGEST_WHOLE, neg, whole};
use crate::value::XNum;
use text_base::is_space4;

/// How far the characters of a number are read.
#[derive(Clone, Copy)]
pub enum Reading {
    /// White space alone.
    Front,
    Sign,
    /// At least one digit; whether a sign stands before them, and their value.
    Digits(bool, u64),
    /// White space after the digits.
    After(bool, u64),
    Unfit,
}

/// The value with one digit more, or any value out of the range.
fn more(value: u64, digit: char) -> u64
    requires { reading.is_digit_true digit }
    ensures { result ≡ reading.more value digit }
{
    if value > LARGEST_WHOLE {
        value
    } else {
        value * 10 + (digit as u64 - 48)
    }
}

fn next(state: Reading, c: char) -> Reading
    ensures { result ≡ reading.next state c }
{
    match state {
        Reading::Front if is_space4(c) => Reading::Front,
        Reading::Front if c == '-' => Reading::Sign,
        Reading::Front if c.is_ascii_digit() => Reading::Digits(false, more(0, c)),
        Reading::Sign if c.is_ascii_digit() => Reading::Digits(true, more(0, c)),
        Reading::Digits(minus, value) if c.is_ascii_digit() => Reading::Digits(
            minus,
            more(value, c),
        ),
        Reading::Digits(minus, value) | Reading::After(minus, value) if is_space4(c) => {
            Reading::After(minus, value)
        }
        _ => Reading::Unfit,
    }
}

fn signed(minus: bool, value: u64) -> XNum
    ensures { result ≡ reading.signed minus value }
{
    if value > LARGEST_WHOLE {
        return XNum::NaN;
    }
    let number = whole(value as i64);
    if minus { neg(number) } else { number }
}

fn number(state: Reading) -> XNum
    ensures { result ≡ reading.number state }
{
    match state {
        Reading::Digits(minus, value) | Reading::After(minus, value) => signed(minus, value),
        _ => XNum::NaN,
    }
}

/// The number that a string stands for: white space, an optional `-`, digits and white space give
/// their whole number, and anything else, or a number outside the range, gives NaN.
pub fn to_number(text: &str) -> XNum
    ensures { result ≡ spec.to_number (chars text.now) }
{
    let mut state = Reading::Front;
    for c in text.chars() {
        state = next(state, c);
    }
    number(state)
}
