//! The attributes of an element by their names. Selectors Level 3, section 6.3. Nothing here takes
//! memory.
ghost use Rattle.std.specs.Prelude.{◌≡◌, ◌<◌, length, filter, IfSome};
ghost use Rattle.std.specs.Option.{option_to_list};
ghost use Rattle.std.specs.Str.{chars};
ghost use Rattle.doc_model.specs.Document.{rows};
ghost use Rattle.css_meaning.specs.Attributes as spec;
ghost use Rattle.css_meaning.specs.Names.{folded};

use crate::attribute_values::value_passes;
use crate::names::Written;
use css_selectors::{Dialect, Op};
use doc_model::Tree;

/// The attribute of a row that has the name, which is written as in a selector.
pub fn attribute_named<T: Tree>(tree: &T, dialect: Dialect, name: &str, e: u32) -> Option<u32>
    requires { e < length (T.document tree.now) }
    ensures named { filter (spec.is_attribute_of (T.document tree.now) e (folded dialect (chars name.now))) (rows (T.document tree.now)) ≡ option_to_list result }
    ensures row { IfSome result (λ z. z < length (T.document tree.now)) }
{
    doc_model::attribute_named(tree, e, &Written { dialect, name })
}

/// Whether the row has the attribute, whose name is as the document has it.
pub fn has_attribute<T: Tree>(tree: &T, name: &str, e: u32) -> bool
    requires { e < length (T.document tree.now) }
    ensures { result ≡ spec.has_attribute (T.document tree.now) e (chars name.now) }
{
    attribute_named(tree, Dialect::Generic, name, e).is_some()
}

/// Whether the row has the attribute that the selector names, with a value as the operator asks.
pub fn attribute_holds<T: Tree>(
    tree: &T,
    dialect: Dialect,
    name: &str,
    op: Op,
    wanted: &str,
    e: u32,
) -> bool
    requires { e < length (T.document tree.now) }
    ensures { result ≡ spec.attribute_holds (T.document tree.now) dialect (chars name.now) op (chars wanted.now) e }
{
    match attribute_named(tree, dialect, name, e) {
        Some(z) => value_passes(op, tree.text(z), wanted),
        None => false,
    }
}
