//! Parts of a text, XPath 1.0, section 4.2.
ghost use Rattle.std.specs.Prelude.{◌≡◌};
ghost use Rattle.std.specs.Str.{chars};
ghost use Rattle.xpath_values.specs.declared.value.XNum.TheVariants.{Whole};
ghost use Rattle.xpath_values.specs.Strings as spec;

use crate::texts::nothing;
use text_base::char_sub;
use xpath_values::XNum;

/// What stands before the first place of the other, or the empty text.
pub fn before<'a>(text: &'a str, mark: &str) -> &'a str
    ensures { chars result.now ≡ spec.str_before (chars text.now) (chars mark.now) }
{
    match text.split_once(mark) {
        Some((front, _)) => front,
        None => nothing(),
    }
}

/// What stands behind the first place of the other, or the empty text.
pub fn after<'a>(text: &'a str, mark: &str) -> &'a str
    ensures { chars result.now ≡ spec.str_after (chars text.now) (chars mark.now) }
{
    match text.split_once(mark) {
        Some((_, back)) => back,
        None => nothing(),
    }
}

fn places_from(text: &str, from: i64) -> &str
    ensures { chars result.now ≡ spec.substring_from (chars text.now) (Whole from) }
{
    char_sub(text, from, None)
}

fn places_of(text: &str, from: i64, len: i64) -> &str
    ensures { chars result.now ≡ spec.substring_of (chars text.now) (Whole from) (Whole len) }
{
    char_sub(text, from, Some(len))
}

/// The characters at the positions from a number on, which count from 1.
pub fn part_from(text: &str, from: XNum) -> &str
    ensures { chars result.now ≡ spec.substring_from (chars text.now) from }
{
    match from {
        XNum::Whole(from) => places_from(text, from),
        XNum::NaN => nothing(),
    }
}

/// The characters at the positions from a number on, and below its sum with another.
pub fn part_of(text: &str, from: XNum, len: XNum) -> &str
    ensures { chars result.now ≡ spec.substring_of (chars text.now) from len }
{
    match (from, len) {
        (XNum::Whole(from), XNum::Whole(len)) => places_of(text, from, len),
        _ => nothing(),
    }
}
