//! The function `lang`, XPath 1.0, section 4.3.
ghost use Rattle.std.specs.Prelude.{◌≡◌, ◌<◌, ℕ, List, length, IfOk, IfSome};
ghost use Rattle.std.specs.Str.{chars};
ghost use Rattle.doc_model.specs.Document.{Document};
ghost use Rattle.xpath_functions.specs.inner.Languages as spec;
ghost use Rattle.xpath_parser.specs.Functions as functions;

use doc_model::{Tree, attribute_named};
use std::alloc::Global;
use text_base::{NoMemory, begins, lower_ascii};
use xpath_values::{Atom, Compare, compare_atoms};

/// Whether a language is the wanted one, or one of its parts: the wanted one, `-` and more. Letter case is ignored.
fn is_language(alloc: Global, wanted: &str, language: &str) -> Result<bool, NoMemory>
    ensures { IfOk result (λ r. (doc : Document) → r ≡ functions.is_language doc (chars wanted.now) (chars language.now)) }
{
    let low = lower_ascii(alloc, language)?;
    let mut start = lower_ascii(alloc, wanted)?;
    if compare_atoms(
        Compare::Equal,
        Atom::Str(low.as_str()),
        Atom::Str(start.as_str()),
    ) {
        return Ok(true);
    }
    start.push_str("-")?;
    Ok(begins(low.as_str(), start.as_str()))
}

/// The attribute `xml:lang` of the row, or of the nearest row above it that has one.
fn nearest_language<T: Tree>(tree: &T, node: u32) -> Option<u32>
    requires { node < length (T.document tree.now) }
    ensures says { (x : List ℕ) → functions.lang (T.document tree.now) x node ≡ spec.says (T.document tree.now) result x }
    ensures row { IfSome result (λ z. z < length (T.document tree.now)) }
{
    let mut y = node;
    while y > 0 {
        match attribute_named(tree, y, &"xml:lang") {
            Some(z) => return Some(z),
            None => y = tree.parent(y),
        }
    }
    attribute_named(tree, y, &"xml:lang")
}

/// Whether the language of a row is the wanted one, or one of its parts.
pub fn speaks<T: Tree>(alloc: Global, tree: &T, wanted: &str, node: u32) -> Result<bool, NoMemory>
    requires { node < length (T.document tree.now) }
    ensures { IfOk result (λ r. r ≡ functions.lang (T.document tree.now) (chars wanted.now) node) }
{
    match nearest_language(tree, node) {
        Some(z) => is_language(alloc, wanted, tree.text(z)),
        None => Ok(false),
    }
}
