//! The language of an element. Selectors Level 3, section 6.6.3. Nothing here takes memory.
ghost use Rattle.std.specs.Prelude.{◌≡◌, ◌<◌, ℕ, List, length, IfSome};
ghost use Rattle.std.specs.Str.{chars};
ghost use Rattle.css_meaning.specs.Language as spec;
ghost use Rattle.css_meaning.specs.inner.Nearest.{says};

use crate::attribute_values::is_language;
use crate::attributes::attribute_named;
use css_selectors::Dialect;
use doc_model::Tree;

/// The name of the attribute that names a language.
fn language_name(dialect: Dialect) -> &'static str
    ensures { chars result.now ≡ spec.lang_name dialect }
{
    match dialect {
        Dialect::Generic => "xml:lang",
        Dialect::Html => "lang",
    }
}

/// The attribute that names the language of the row, or of the nearest row above it that has one.
fn nearest_language<T: Tree>(tree: &T, dialect: Dialect, e: u32) -> Option<u32>
    requires { e < length (T.document tree.now) }
    ensures says { (x : List ℕ) → spec.lang_holds (T.document tree.now) dialect x e ≡ says (T.document tree.now) result x }
    ensures row { IfSome result (λ z. z < length (T.document tree.now)) }
{
    let name = language_name(dialect);
    let mut y = e;
    while y > 0 {
        match attribute_named(tree, Dialect::Generic, name, y) {
            Some(z) => return Some(z),
            None => y = tree.parent(y),
        }
    }
    attribute_named(tree, Dialect::Generic, name, y)
}

/// Whether the language of a row is the wanted one, or begins with it and `-`. The nearest attribute
/// upwards decides.
pub fn lang_holds<T: Tree>(tree: &T, dialect: Dialect, wanted: &str, e: u32) -> bool
    requires { e < length (T.document tree.now) }
    ensures { result ≡ spec.lang_holds (T.document tree.now) dialect (chars wanted.now) e }
{
    match nearest_language(tree, dialect, e) {
        Some(z) => is_language(tree.text(z), wanted),
        None => false,
    }
}
