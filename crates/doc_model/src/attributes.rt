//! The attribute of a row that has a name. Nothing here takes memory.
ghost use Rattle.std.specs.Prelude.{◌≡◌, ◌<◌, ℕ, true, List, length, filter, IfSome};
ghost use Rattle.std.specs.Option.{option_to_list};
ghost use Rattle.std.specs.Str.{bytes_eq, chars};
ghost use Rattle.doc_model.specs.Attributes as spec;
ghost use Rattle.doc_model.specs.Document.{is_attribute, rows};

use crate::row_tests::is_attribute;
use crate::tree::Tree;

/// A name that is looked for, and the comparison of a document's names with it.
pub trait WantedName {
    /// Its characters, as a document has them.
    ghost wanted: { Self → List ℕ };

    /// Whether a name of a document is it.
    fn is(&self, name: &str) -> bool
        ensures { result ≡ bytes_eq (chars name.now) (wanted self.now) };
}

/// Whether the names are the same.
fn is_same(name: &str, other: &str) -> bool
    ensures { result ≡ bytes_eq (chars name.now) (chars other.now) }
{
    name == other
}

impl<'a> WantedName for &'a str {
    ghost wanted = { λ n. chars n.now };

    fn is(&self, name: &str) -> bool {
        is_same(name, self)
    }
}

/// Whether an attribute belongs to the row and has the name.
fn is_attribute_of<T: Tree, N: WantedName>(tree: &T, e: u32, name: &N, z: u32) -> bool
    requires row { z < length (T.document tree.now) }
    requires some { 0 < z }
    requires attribute { is_attribute (T.document tree.now) z ≡ true }
    ensures { result ≡ spec.is_attribute_of (T.document tree.now) e (N.wanted name.now) z }
{
    tree.parent(z) == e && name.is(tree.name(z))
}

/// The attribute of a row that has the name, of which there is at most one. The attributes of a row stand directly
/// after it.
pub fn attribute_named<T: Tree, N: WantedName>(tree: &T, e: u32, name: &N) -> Option<u32>
    requires { e < length (T.document tree.now) }
    ensures named { filter (spec.is_attribute_of (T.document tree.now) e (N.wanted name.now)) (rows (T.document tree.now)) ≡ option_to_list result }
    ensures row { IfSome result (λ z. z < length (T.document tree.now)) }
{
    let len = tree.len();
    let mut z = e + 1;
    while z < len && is_attribute(tree, z) {
        if is_attribute_of(tree, e, name, z) {
            return Some(z);
        }
        z += 1;
    }
    None
}
