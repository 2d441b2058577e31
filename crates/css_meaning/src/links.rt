ghost use Rattle.std.specs.Prelude.{◌≡◌, ◌<◌, ℕ, true, false, length, MatchOption};
ghost use Rattle.doc_model.specs.Document.{is_element, is_parent, below};
ghost use Rattle.css_meaning.specs.Links.{linked};
ghost use Rattle.css_meaning.specs.Siblings.{is_earlier, is_nearest_earlier};

use crate::siblings::is_sibling;
use css_selectors::Link;
use doc_model::{Tree, is_below, is_element, is_parent};

/// The nearest element sibling before the row. Selectors Level 3, section 8.3.1. It looks at the
/// row before it and climbs from there, so that it costs no more than what it passes.
pub fn earlier_sibling<T: Tree>(tree: &T, e: u32) -> Option<u32>
    requires { e < length (T.document tree.now) }
    ensures { MatchOption result ((z : ℕ) → is_earlier (T.document tree.now) z e ≡ false) (λ x. is_nearest_earlier (T.document tree.now) x e ≡ true) }
{
    if e == 0 {
        return None;
    }
    let parent = tree.parent(e);
    let mut y = e - 1;
    while parent < y {
        let above = tree.parent(y);
        if above == parent {
            if is_element(tree, y) {
                return Some(y);
            }
            y -= 1;
        } else {
            y = above;
        }
    }
    None
}

/// Whether `x` is an element sibling of the row `y` and stands before it.
fn is_earlier<T: Tree>(tree: &T, x: u32, y: u32) -> bool
    requires row { x < length (T.document tree.now) }
    requires other { y < length (T.document tree.now) }
    ensures { result ≡ is_earlier (T.document tree.now) x y }
{
    is_sibling(tree, y, x) && x < y
}

/// Whether `x` is the nearest element sibling before the row `y`.
fn is_nearest_earlier<T: Tree>(tree: &T, x: u32, y: u32) -> bool
    requires { y < length (T.document tree.now) }
    ensures { result ≡ is_nearest_earlier (T.document tree.now) x y }
{
    match earlier_sibling(tree, y) {
        None => false,
        Some(nearest) => nearest == x,
    }
}

/// Whether the row `x` stands to `y` as the combinator between them says. Selectors Level 3, section
/// 8.
pub fn is_linked<T: Tree>(tree: &T, link: Link, x: u32, y: u32) -> bool
    requires row { x < length (T.document tree.now) }
    requires other { y < length (T.document tree.now) }
    ensures { result ≡ linked (T.document tree.now) link x y }
{
    match link {
        Link::First => false,
        Link::Descendant => is_below(tree, x, y),
        Link::Child => is_parent(tree, x, y),
        Link::Next => is_nearest_earlier(tree, x, y),
        Link::Later => is_earlier(tree, x, y),
    }
}
