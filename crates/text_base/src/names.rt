//! Tables of names.
ghost use Rattle.std.specs.Prelude.{◌≡◌};
ghost use Rattle.text_base.specs.Names.{texts};
ghost use Rattle.text_base.specs.Strings as spec;

use crate::finding::is_same;

/// Whether the name is in the table, letter by letter.
pub fn is_among(names: &[&str], name: &str) -> bool
    ensures { result ≡ spec.is_among name.now (texts names.now) }
{
    for entry in names {
        if is_same(entry, name) {
            return true;
        }
    }
    false
}
