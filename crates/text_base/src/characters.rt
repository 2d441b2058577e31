ghost use Rattle.std.specs.Prelude.{◌≡◌, ◌+◌, ◌-◌, ◌<◌, ◌≤◌, ◌↔◌, pos, ◌+ℤ◌, ◌<ℤ◌, ℕ, [], length, take, drop, IsSome};
ghost use Rattle.std.specs.Str.{chars};
ghost use Rattle.text_base.specs.Text.{IsPlace};
ghost use Rattle.text_base.specs.Positions.{at_positions, is_wanted};

use crate::finding::part;

/// How many characters the text has.
pub fn char_len(text: &str) -> u64
    ensures { result ≡ length (chars text.now) }
{
    text.chars().count() as u64
}

/// The place after the character that begins at a place.
fn next_place(text: &str, at: usize) -> usize
    requires within { at < length text.now }
    requires place { IsPlace text.now at }
    ensures place { IsPlace text.now result }
    ensures moves { at < result }
    ensures next { chars (drop result text.now) ≡ drop 1 (chars (drop at text.now)) }
{
    match part(text, at, text.len()).chars().next() {
        Some(c) => at + c.len_utf8(),
        None => text.len(),
    }
}

/// The place after the first so many characters, or the text's length where it has no more.
fn char_place(text: &str, count: u64) -> usize
    ensures place { IsPlace text.now result }
    ensures ahead { chars (take result text.now) ≡ take count (chars text.now) }
    ensures after { chars (drop result text.now) ≡ drop count (chars text.now) }
{
    let mut at = 0;
    let mut left = count;
    while left > 0 && at < text.len() {
        at = next_place(text, at);
        left -= 1;
    }
    at
}

/// How many positions from 1 on are below `from`.
fn positions_below(from: i64) -> u64
    ensures { (p : ℕ) → p < result ↔ pos (p + 1) <ℤ from }
{
    if from > 1 { (from - 1) as u64 } else { 0 }
}

/// How many positions from 1 on are below `from + len`, in exact whole numbers.
fn positions_below_sum(from: i64, len: i64) -> u64
    ensures { (p : ℕ) → p < result ↔ pos (p + 1) <ℤ (from +ℤ len) }
{
    if from <= 0 {
        if len <= 0 {
            0
        } else {
            positions_below(from + len)
        }
    } else if len <= 0 {
        positions_below(from + len)
    } else {
        from as u64 + len as u64 - 1
    }
}

/// The characters at the positions p, counted from 1, with `p >= from` and, where a length is given,
/// `p < from + len`, in exact whole numbers.
pub fn char_sub(text: &str, from: i64, len: Option<i64>) -> &str
    ensures { chars result.now ≡ at_positions (is_wanted from len) 1 (chars text.now) }
{
    let skipped = positions_below(from);
    let rest = part(text, char_place(text, skipped), text.len());
    match len {
        None => rest,
        Some(len) => {
            let end = positions_below_sum(from, len);
            part(rest, 0, char_place(rest, end.saturating_sub(skipped)))
        }
    }
}
