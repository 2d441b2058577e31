//! The argument of the pseudo-classes of position, after Selectors Level 3, section 6.6.5.1.
ghost use Rattle.std.specs.Prelude.{◌≡◌, ℕ, ◌+◌, ◌<◌, ◌≤◌, ◌^◌, true, false, length, slice_index};
ghost use Rattle.css_selectors.specs.WellMade.{most_number};
ghost use Rattle.text_base.specs.Text.{is_digit};
ghost use Rattle.css_parser.specs.Nth as spec;

use text_base::is_digit;

/// A number with a sign, all beyond 1,000,000 in size taken as 1,000,001.
#[derive(Clone, Copy)]
pub(crate) struct Number {
    pub(crate) minus: bool,
    pub(crate) size: u32,
}

/// The a and b of `an+b`.
#[derive(Clone, Copy)]
pub(crate) struct Line {
    pub(crate) a: Number,
    pub(crate) b: Number,
}

/// The most that a number may be in size.
pub(crate) const MOST_NUMBER: u32 = 1_000_000;

/// What every number beyond it is taken as.
const BEYOND: u32 = MOST_NUMBER + 1;

/// The byte at a place, or 0 past the end.
fn byte_of(s: &[u8], at: usize) -> u8
    ensures value { result ≡ slice_index s.now at }
    ensures within { 0 < result → at < length s.now }
{
    if at < s.len() { s[at] } else { 0 }
}

fn is_sign(byte: u8) -> bool
    ensures { result ≡ spec.is_sign byte }
{
    byte == b'+' || byte == b'-'
}

/// The first place from a place on at which no space stands.
#[tactic(auto, unfolding(crate::specs::Nth::past_blanks), using(text_base::proofs::Runs::run_end_step, text_base::proofs::Runs::run_end_stop, text_base::proofs::Runs::run_end_end))]
fn past_blanks(s: &[u8], from: usize) -> usize
    requires { from ≤ length s.now }
    ensures end { result ≡ spec.past_blanks s.now from }
    ensures order { from ≤ result }
    ensures within { result ≤ length s.now }
{
    let mut at = from;
    while at < s.len() && s[at] == b' ' {
        at += 1;
    }
    at
}

/// The first place from a place on at which no digit stands.
#[tactic(auto, unfolding(crate::specs::Nth::past_digits), using(text_base::proofs::Runs::run_end_step, text_base::proofs::Runs::run_end_stop, text_base::proofs::Runs::run_end_end))]
fn past_digits(s: &[u8], from: usize) -> usize
    requires { from ≤ length s.now }
    ensures end { result ≡ spec.past_digits s.now from }
    ensures order { from ≤ result }
    ensures within { result ≤ length s.now }
    ensures digits { (k : ℕ) → from ≤ k → k < result → is_digit (slice_index s.now k) ≡ true }
{
    let mut at = from;
    while at < s.len() && is_digit(s[at]) {
        at += 1;
    }
    at
}

/// The number that the digits between two places spell, all beyond 1,000,000 taken as 1,000,001.
#[tactic(auto, unfolding(crate::specs::Nth::size), using(crate::proofs::NthLemmas::no_digits, crate::proofs::NthLemmas::one_digit))]
fn size(s: &[u8], from: usize, to: usize) -> u32
    requires order { from ≤ to }
    requires within { to ≤ length s.now }
    requires digits { (k : ℕ) → from ≤ k → k < to → is_digit (slice_index s.now k) ≡ true }
    ensures value { result ≡ spec.size s.now from to }
    ensures capped { result ≤ 1 + most_number }
{
    let mut value = 0;
    let mut at = from;
    while at < to {
        value = (value * 10 + (s[at] as u32 - 48)).min(BEYOND);
        at += 1;
    }
    value
}

/// Whether from a place on stand spaces alone.
fn ends(s: &[u8], at: usize) -> bool
    requires { at ≤ length s.now }
    ensures { result ≡ spec.ends s.now at }
{
    past_blanks(s, at) == s.len()
}

/// Whether the lower-case letter, or its upper case, stands at a place.
fn is_letter_at(s: &[u8], at: usize, letter: u8) -> bool
    requires some { 32 < letter }
    requires ascii { letter < 128 }
    ensures value { result ≡ spec.is_letter_at s.now at letter }
    ensures within { result ≡ true → at < length s.now }
{
    let byte = byte_of(s, at);
    byte == letter || (byte < 128 && byte + 32 == letter)
}

fn is_odd(s: &[u8], at: usize) -> bool
    requires { at ≤ length s.now }
    ensures { result ≡ spec.is_odd s.now at }
{
    is_letter_at(s, at, b'o')
        && is_letter_at(s, at + 1, b'd')
        && is_letter_at(s, at + 2, b'd')
        && ends(s, at + 3)
}

fn is_even(s: &[u8], at: usize) -> bool
    requires { at ≤ length s.now }
    ensures { result ≡ spec.is_even s.now at }
{
    is_letter_at(s, at, b'e')
        && is_letter_at(s, at + 1, b'v')
        && is_letter_at(s, at + 2, b'e')
        && is_letter_at(s, at + 3, b'n')
        && ends(s, at + 4)
}

/// A number that ends the text, from its first digit on.
fn last_number(minus: bool, s: &[u8], at: usize) -> Option<Number>
    requires { at ≤ length s.now }
    ensures { result ≡ spec.last_number minus s.now at }
{
    let end = past_digits(s, at);
    if at < end && ends(s, end) {
        Some(Number {
            minus,
            size: size(s, at, end),
        })
    } else {
        None
    }
}

/// What stands behind the `n`: nothing, or a sign and digits.
fn behind_n(s: &[u8], at: usize) -> Option<Number>
    requires { at ≤ length s.now }
    ensures { result ≡ spec.behind_n s.now at }
{
    let sign = past_blanks(s, at);
    if sign == s.len() {
        return Some(Number {
            minus: false,
            size: 0,
        });
    }
    if is_sign(s[sign]) {
        last_number(s[sign] == b'-', s, past_blanks(s, sign + 1))
    } else {
        None
    }
}

/// The number before the `n`.
fn factor(minus: bool, s: &[u8], from: usize, to: usize) -> Number
    requires order { from ≤ to }
    requires within { to ≤ length s.now }
    requires digits { (k : ℕ) → from ≤ k → k < to → is_digit (slice_index s.now k) ≡ true }
    ensures { result ≡ spec.factor minus s.now from to }
{
    if from == to {
        Number { minus, size: 1 }
    } else {
        Number {
            minus,
            size: size(s, from, to),
        }
    }
}

fn with_b(a: Number, b: Option<Number>) -> Option<Line>
    ensures { result ≡ spec.with_b a b }
{
    match b {
        Some(b) => Some(Line { a, b }),
        None => None,
    }
}

/// What stands behind an optional sign.
fn behind_sign(minus: bool, s: &[u8], at: usize) -> Option<Line>
    requires { at ≤ length s.now }
    ensures { result ≡ spec.behind_sign minus s.now at }
{
    let end = past_digits(s, at);
    if is_letter_at(s, end, b'n') {
        with_b(factor(minus, s, at, end), behind_n(s, end + 1))
    } else {
        let zero = Number {
            minus: false,
            size: 0,
        };
        with_b(zero, last_number(minus, s, at))
    }
}

fn linear(s: &[u8], at: usize) -> Option<Line>
    requires { at ≤ length s.now }
    ensures { result ≡ spec.linear s.now at }
{
    let first = byte_of(s, at);
    if is_sign(first) {
        behind_sign(first == b'-', s, at + 1)
    } else {
        behind_sign(false, s, at)
    }
}

/// A line of numbers without signs.
fn plain_line(a: u32, b: u32) -> Line
    ensures { result ≡ spec.line (spec.number false a) (spec.number false b) }
{
    Line {
        a: Number {
            minus: false,
            size: a,
        },
        b: Number {
            minus: false,
            size: b,
        },
    }
}

/// The a and b of `an+b`, or none where the text is nothing of the kind.
pub(crate) fn nth(s: &[u8]) -> Option<Line>
    ensures { result ≡ spec.nth s.now }
{
    let at = past_blanks(s, 0);
    if is_odd(s, at) {
        Some(plain_line(2, 1))
    } else if is_even(s, at) {
        Some(plain_line(2, 0))
    } else {
        linear(s, at)
    }
}
