ghost use Rattle.std.specs.Prelude.{◌≡◌};
ghost use Rattle.xpath_values.specs.Numbers as spec;
ghost use Rattle.xpath_values.specs.Compares as compares;

use crate::value::{Compare, XNum};

/// The largest whole number, 2^53 - 1.
pub const LARGEST_WHOLE: u64 = 9_007_199_254_740_991;

/// The whole number, or NaN where it is outside the range.
pub fn whole(z: i64) -> XNum
    ensures { result ≡ spec.whole z }
{
    if z.unsigned_abs() <= LARGEST_WHOLE {
        XNum::Whole(z)
    } else {
        XNum::NaN
    }
}

/// NaN where there is no number.
fn fitting(z: Option<i64>) -> XNum
    ensures { result ≡ spec.whole_or_none z }
{
    match z {
        Some(z) => whole(z),
        None => XNum::NaN,
    }
}

/// The sum; NaN where a side is NaN or the sum is out of the range.
pub fn add(a: XNum, b: XNum) -> XNum
    ensures { result ≡ spec.num_add a b }
{
    match (a, b) {
        (XNum::Whole(a), XNum::Whole(b)) => fitting(a.checked_add(b)),
        _ => XNum::NaN,
    }
}

/// The difference; NaN where a side is NaN or the difference is out of the range.
pub fn sub(a: XNum, b: XNum) -> XNum
    ensures { result ≡ spec.num_sub a b }
{
    match (a, b) {
        (XNum::Whole(a), XNum::Whole(b)) => fitting(a.checked_sub(b)),
        _ => XNum::NaN,
    }
}

/// The product; NaN where a side is NaN or the product is out of the range.
pub fn mul(a: XNum, b: XNum) -> XNum
    ensures { result ≡ spec.num_mul a b }
{
    match (a, b) {
        (XNum::Whole(a), XNum::Whole(b)) => fitting(a.checked_mul(b)),
        _ => XNum::NaN,
    }
}

fn remainder(a: i64, b: i64) -> XNum
    ensures { result ≡ spec.whole_rem a b }
{
    if b == 0 {
        XNum::NaN
    } else if b == -1 {
        XNum::Whole(0)
    } else {
        whole(a % b)
    }
}

/// The remainder, with the sign of the left side; NaN where a side is NaN or the right side is 0.
pub fn rem(a: XNum, b: XNum) -> XNum
    ensures { result ≡ spec.num_rem a b }
{
    match (a, b) {
        (XNum::Whole(a), XNum::Whole(b)) => remainder(a, b),
        _ => XNum::NaN,
    }
}

/// The number with the other sign.
pub fn neg(a: XNum) -> XNum
    ensures { result ≡ spec.num_neg a }
{
    match a {
        XNum::Whole(a) => fitting(a.checked_neg()),
        XNum::NaN => XNum::NaN,
    }
}

pub fn whole_fits(op: Compare, a: i64, b: i64) -> bool
    ensures { result ≡ compares.whole_fits op a b }
{
    match op {
        Compare::Equal => a == b,
        Compare::Unequal => a != b,
        Compare::Less => a < b,
        Compare::LessEqual => a <= b,
        Compare::Greater => a > b,
        Compare::GreaterEqual => a >= b,
    }
}

/// Whether a comparison holds between two numbers: NaN is unequal to every number, and no order holds with it.
pub fn num_fits(op: Compare, a: XNum, b: XNum) -> bool
    ensures { result ≡ compares.num_fits op a b }
{
    match (a, b) {
        (XNum::Whole(a), XNum::Whole(b)) => whole_fits(op, a, b),
        _ => op == Compare::Unequal,
    }
}
