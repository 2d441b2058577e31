//! Texts cut at their last point.
ghost use Rattle.std.specs.Prelude.{◌≡◌, ◌++◌, ◌∷◌, false, MatchOption};
ghost use Rattle.std.specs.List.{list_any};
ghost use Rattle.query_script.specs.Cuts.{is_point};

use text_base::{byte_at, part};

/// What stands before the last point, in quotes or not, and after it.
pub(crate) fn last_point(text: &str) -> Option<(&str, &str)>
    ensures { MatchOption result (list_any is_point text.now ≡ false) (λ sides. (text.now ≡ sides.0.now ++ 46 ∷ sides.1.now) × (list_any is_point sides.1.now ≡ false)) }
{
    let mut at = text.len();
    while at > 0 {
        at -= 1;
        if byte_at(text, at) == b'.' {
            return Some((part(text, 0, at), part(text, at + 1, text.len())));
        }
    }
    None
}
