//! The states of an element in the HTML dialect. Selectors Level 3, sections 6.6.1 and 6.6.4.
//! Nothing here takes memory.
ghost use Rattle.std.specs.Prelude.{◌≡◌, ◌<◌, ◌&&◌, [], ◌∷◌, length, codes};
ghost use Rattle.text_base.specs.Strings.{is_among};
ghost use Rattle.css_meaning.specs.Attributes.{has_attribute, has_value};
ghost use Rattle.css_meaning.specs.Simples as spec;

use crate::attributes::{attribute_named, has_attribute};
use crate::texts::is_one_of;
use css_selectors::Dialect;
use doc_model::Tree;

/// Whether a row is the source of a link. Selectors Level 3, section 6.6.1.1.
pub fn is_link<T: Tree>(tree: &T, e: u32) -> bool
    requires { e < length (T.document tree.now) }
    ensures { result ≡ spec.is_link (T.document tree.now) e }
{
    is_one_of(tree.name(e), &["a", "area", "link"]) && has_attribute(tree, "href", e)
}

/// Whether a row is a chosen option.
fn is_chosen<T: Tree>(tree: &T, e: u32) -> bool
    requires { e < length (T.document tree.now) }
    ensures { result ≡ (has_attribute (T.document tree.now) e (codes "selected") && spec.is_one_of (T.document tree.now) (codes "option" ∷ []) e) }
{
    is_one_of(tree.name(e), &["option"]) && has_attribute(tree, "selected", e)
}

/// Whether the type of a row is one that can be ticked.
fn has_ticks<T: Tree>(tree: &T, e: u32) -> bool
    requires { e < length (T.document tree.now) }
    ensures { result ≡ has_value (T.document tree.now) e (codes "type") (λ value. is_among value (codes "checkbox" ∷ codes "radio" ∷ [])) }
{
    match attribute_named(tree, Dialect::Generic, "type", e) {
        Some(z) => is_one_of(tree.text(z), &["checkbox", "radio"]),
        None => false,
    }
}

/// Whether a row is an input that can be ticked.
fn is_box<T: Tree>(tree: &T, e: u32) -> bool
    requires { e < length (T.document tree.now) }
    ensures { result ≡ (spec.is_one_of (T.document tree.now) (codes "input" ∷ []) e && has_value (T.document tree.now) e (codes "type") (λ value. is_among value (codes "checkbox" ∷ codes "radio" ∷ []))) }
{
    is_one_of(tree.name(e), &["input"]) && has_ticks(tree, e)
}

/// Whether a row is a ticked box or radio button.
fn is_ticked<T: Tree>(tree: &T, e: u32) -> bool
    requires { e < length (T.document tree.now) }
    ensures { result ≡ (has_attribute (T.document tree.now) e (codes "checked") && (spec.is_one_of (T.document tree.now) (codes "input" ∷ []) e && has_value (T.document tree.now) e (codes "type") (λ value. is_among value (codes "checkbox" ∷ codes "radio" ∷ [])))) }
{
    is_box(tree, e) && has_attribute(tree, "checked", e)
}

/// Whether a row is a chosen option, or a ticked box or radio button. Selectors Level 3, section
/// 6.6.4.2.
pub fn is_checked<T: Tree>(tree: &T, e: u32) -> bool
    requires { e < length (T.document tree.now) }
    ensures { result ≡ spec.is_checked (T.document tree.now) e }
{
    is_chosen(tree, e) || is_ticked(tree, e)
}

/// Whether a row is one that can be disabled.
fn is_control<T: Tree>(tree: &T, e: u32) -> bool
    requires { e < length (T.document tree.now) }
    ensures { result ≡ spec.is_control (T.document tree.now) e }
{
    let names = [
        "button", "fieldset", "input", "optgroup", "option", "select", "textarea",
    ];
    is_one_of(tree.name(e), &names)
}

/// Whether a row is one that can be disabled, and is. Selectors Level 3, section 6.6.4.1.
pub fn is_disabled<T: Tree>(tree: &T, e: u32) -> bool
    requires { e < length (T.document tree.now) }
    ensures { result ≡ spec.is_disabled (T.document tree.now) e }
{
    is_control(tree, e) && has_attribute(tree, "disabled", e)
}

/// Whether a row is one that can be disabled, and is not. Selectors Level 3, section 6.6.4.1.
pub fn is_enabled<T: Tree>(tree: &T, e: u32) -> bool
    requires { e < length (T.document tree.now) }
    ensures { result ≡ spec.is_enabled (T.document tree.now) e }
{
    is_control(tree, e) && !has_attribute(tree, "disabled", e)
}
