//! Whether a pseudo-class without an argument holds at a row. Selectors Level 3, section 6.6. Nothing
//! here takes memory.
ghost use Rattle.std.specs.Prelude.{◌≡◌, ◌<◌, length};
ghost use Rattle.css_meaning.specs.Simples as spec;

use crate::contents::{is_empty_element, is_root};
use crate::siblings::{is_only_child, is_only_of_type};
use crate::states::{is_checked, is_disabled, is_enabled, is_link};
use css_selectors::{Dialect, Pseudo};
use doc_model::Tree;

/// What only the HTML dialect has.
fn in_html(dialect: Dialect, held: bool) -> bool
    ensures { result ≡ spec.in_html dialect held }
{
    match dialect {
        Dialect::Generic => false,
        Dialect::Html => held,
    }
}

/// Whether a pseudo-class without an argument holds at the row. Selectors Level 3, section 6.6.
pub fn pseudo_holds<T: Tree>(tree: &T, dialect: Dialect, pseudo: Pseudo, e: u32) -> bool
    requires { e < length (T.document tree.now) }
    ensures { result ≡ spec.pseudo_holds (T.document tree.now) dialect pseudo e }
{
    match pseudo {
        Pseudo::OnlyChild => is_only_child(tree, e),
        Pseudo::OnlyOfType => is_only_of_type(tree, e),
        Pseudo::Empty => is_empty_element(tree, e),
        Pseudo::Root => is_root(tree, e),
        Pseudo::Never => false,
        Pseudo::Link => in_html(dialect, is_link(tree, e)),
        Pseudo::Checked => in_html(dialect, is_checked(tree, e)),
        Pseudo::Enabled => in_html(dialect, is_enabled(tree, e)),
        Pseudo::Disabled => in_html(dialect, is_disabled(tree, e)),
    }
}
