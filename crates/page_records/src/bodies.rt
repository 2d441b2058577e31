//! The names of the fields of a body.
ghost use Rattle.std.specs.Prelude.{◌≡◌, true, false, map};
ghost use Rattle.std.specs.List.{list_any};
ghost use Rattle.std.specs.Str.{bytes_eq};
ghost use Rattle.page_records.specs.Blocks.{Differ};

use query_script::Field;
use text_base::Txt;

/// Whether one of the fields has the name.
fn has_name(fields: &[Field], name: &Txt) -> bool
    ensures { result ≡ list_any (bytes_eq name.now) (map (λ f. f.name) fields.now) }
{
    for field in fields {
        if name.is(field.name.as_str()) {
            return true;
        }
    }
    false
}

/// Whether no two fields have the same name.
pub(crate) fn differ(fields: &[Field]) -> bool
    ensures yes { result ≡ true → Differ (map (λ f. f.name) fields.now) }
    ensures no { result ≡ false → Differ (map (λ f. f.name) fields.now) → ⊥ }
{
    let mut at = fields.len();
    while at > 0 {
        at -= 1;
        if has_name(&fields[at + 1..], &fields[at].name) {
            return false;
        }
    }
    true
}
