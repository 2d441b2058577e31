//! The positions that `an+b` names. Selectors Level 3, section 6.6.5.2.
ghost use Rattle.std.specs.Prelude.{◌≡◌};
ghost use Rattle.css_meaning.specs.Nth as spec;

/// Whether `a*n + b` is the position for some n of 0 or more, in exact whole numbers. Its time does
/// not depend on the numbers.
pub fn is_nth(a: i64, b: i64, position: u32) -> bool
    ensures { result ≡ spec.is_nth a b position }
{
    let position = i64::from(position);
    let gap = b.abs_diff(position);
    if gap == 0 {
        return true;
    }
    if b < position {
        a > 0 && gap % a.unsigned_abs() == 0
    } else {
        a < 0 && gap % a.unsigned_abs() == 0
    }
}
