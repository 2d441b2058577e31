//! What a row of a tree is, and how two stand to each other. Nothing here takes memory.
ghost use Rattle.std.specs.Prelude.{◌≡◌, ◌<◌, length};
ghost use Rattle.doc_model.specs.Document as spec;

use crate::Kind;
use crate::tree::Tree;

/// Whether the row is an element.
pub fn is_element<T: Tree>(tree: &T, y: u32) -> bool
    requires { y < length (T.document tree.now) }
    ensures { result ≡ spec.is_element (T.document tree.now) y }
{
    matches!(tree.kind(y), Kind::Element)
}

/// Whether the row is an attribute.
pub fn is_attribute<T: Tree>(tree: &T, y: u32) -> bool
    requires { y < length (T.document tree.now) }
    ensures { result ≡ spec.is_attribute (T.document tree.now) y }
{
    matches!(tree.kind(y), Kind::Attribute)
}

/// Whether the row is a text.
pub fn is_text<T: Tree>(tree: &T, y: u32) -> bool
    requires { y < length (T.document tree.now) }
    ensures { result ≡ spec.is_text (T.document tree.now) y }
{
    matches!(tree.kind(y), Kind::Text)
}

/// Whether `x` is the parent of the row `y`. Row 0 has none.
pub fn is_parent<T: Tree>(tree: &T, x: u32, y: u32) -> bool
    requires { y < length (T.document tree.now) }
    ensures { result ≡ spec.is_parent (T.document tree.now) x y }
{
    y > 0 && tree.parent(y) == x
}

/// Whether the row `y` is below `x`.
pub fn is_below<T: Tree>(tree: &T, x: u32, y: u32) -> bool
    requires row { x < length (T.document tree.now) }
    requires other { y < length (T.document tree.now) }
    ensures { result ≡ spec.below (T.document tree.now) x y }
{
    x < y && y < tree.end(x)
}
