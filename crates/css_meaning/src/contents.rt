//! What an element contains, and where it stands. Selectors Level 3, section 6.6.5.
ghost use Rattle.std.specs.Prelude.{◌≡◌, ◌<◌, ◌≤◌, ◌++◌, ◌||◌, ℕ, List, false, length, encode_utf8_all, MatchOption};
ghost use Rattle.std.specs.Str.{chars};
ghost use Rattle.text_base.specs.Strings.{contains, starts_with};
ghost use Rattle.doc_model.specs.Document.{is_element, is_text, is_parent};
ghost use Rattle.doc_model.specs.StringValue.{string_value, texts_below};
ghost use Rattle.css_meaning.specs.Simples as spec;
ghost use Rattle.css_meaning.specs.inner.TextPlaces.{text_at, bytes_from, begins_in};

use doc_model::{Kind, Tree, is_parent, is_text};
use text_base::{bytes_from, includes};

/// Whether the row is an element or a text.
fn is_content<T: Tree>(tree: &T, y: u32) -> bool
    requires { y < length (T.document tree.now) }
    ensures { result ≡ (is_element (T.document tree.now) y || is_text (T.document tree.now) y) }
{
    matches!(tree.kind(y), Kind::Element | Kind::Text)
}

/// Whether `e` is the root element of the document, or another child of the root node. Selectors
/// Level 3, section 6.6.5.1.
pub fn is_root<T: Tree>(tree: &T, e: u32) -> bool
    requires { e < length (T.document tree.now) }
    ensures { result ≡ is_parent (T.document tree.now) 0 e }
{
    is_parent(tree, 0, e)
}

/// Whether no child of `e` is an element or a text. Selectors Level 3, section 6.6.5.12. It takes no
/// memory.
pub fn is_empty_element<T: Tree>(tree: &T, e: u32) -> bool
    requires { e < length (T.document tree.now) }
    ensures { result ≡ spec.is_empty_element (T.document tree.now) e }
{
    let to = tree.end(e);
    let mut y = e + 1;
    while y < to {
        if is_parent(tree, e, y) && is_content(tree, y) {
            return false;
        }
        y = tree.end(y);
    }
    true
}

/// What is left of the wanted bytes after a piece of a text that they begin with, or nothing at all
/// where the piece and they differ.
fn left_behind<'a>(piece: &[u8], wanted: &'a [u8]) -> Option<&'a [u8]>
    ensures { MatchOption result ((rest : List ℕ) → starts_with (piece.now ++ rest) wanted.now ≡ false) (λ left. (rest : List ℕ) → starts_with (piece.now ++ rest) wanted.now ≡ starts_with rest left.now) }
{
    let shared = piece.len().min(wanted.len());
    if piece[..shared] == wanted[..shared] {
        Some(&wanted[shared..])
    } else {
        None
    }
}

/// The bytes of the row, if it is a text row.
fn bytes_of<T: Tree>(tree: &T, y: u32) -> &[u8]
    requires { y < length (T.document tree.now) }
    ensures { result.now ≡ encode_utf8_all (text_at (T.document tree.now) y) }
{
    if is_text(tree, y) {
        tree.text(y).as_bytes()
    } else {
        &[]
    }
}

/// Whether the text rows from one row on and before another, joined, begin with the bytes.
fn goes_on<T: Tree>(tree: &T, from: u32, to: u32, wanted: &[u8]) -> bool
    requires order { from ≤ to }
    requires within { to ≤ length (T.document tree.now) }
    ensures { result ≡ starts_with (bytes_from (T.document tree.now) from to) wanted.now }
{
    let mut left = wanted;
    let mut y = from;
    while y < to && !left.is_empty() {
        match left_behind(bytes_of(tree, y), left) {
            None => return false,
            Some(rest) => left = rest,
        }
        y += 1;
    }
    left.is_empty()
}

/// Whether the piece, joined with the text rows from one row on and before another, begins with the
/// bytes.
fn begins_at<T: Tree>(tree: &T, piece: &[u8], from: u32, to: u32, wanted: &[u8]) -> bool
    requires order { from ≤ to }
    requires within { to ≤ length (T.document tree.now) }
    ensures { result ≡ starts_with (piece.now ++ bytes_from (T.document tree.now) from to) wanted.now }
{
    match left_behind(piece, wanted) {
        None => false,
        Some(left) => goes_on(tree, from, to, left),
    }
}

/// Whether the wanted text begins in a text, and goes on over the text rows from one row on and
/// before another where the text ends first.
fn begins_within<T: Tree>(tree: &T, text: &str, from: u32, to: u32, wanted: &str) -> bool
    requires order { from ≤ to }
    requires within { to ≤ length (T.document tree.now) }
    requires some { 0 < length wanted.now }
    ensures { result ≡ begins_in text.now (bytes_from (T.document tree.now) from to) wanted.now }
{
    if includes(text, wanted) {
        return true;
    }
    // Where it does not stand in the text as a whole, it can begin in as many last bytes only as it
    // has but one.
    let mut at = text.len().saturating_sub(wanted.len() - 1);
    while at < text.len() {
        if begins_at(tree, bytes_from(text, at), from, to, wanted.as_bytes()) {
            return true;
        }
        at += 1;
    }
    false
}

/// Whether the texts below `e`, joined, contain the wanted text, which is not empty.
fn contains_below<T: Tree>(tree: &T, e: u32, wanted: &str) -> bool
    requires row { e < length (T.document tree.now) }
    requires some { 0 < length wanted.now }
    ensures { result ≡ contains (texts_below (T.document tree.now) e) (chars wanted.now) }
{
    let to = tree.end(e);
    let mut y = e + 1;
    while y < to {
        if is_text(tree, y) && begins_within(tree, tree.text(y), y + 1, to, wanted) {
            return true;
        }
        y += 1;
    }
    false
}

/// Whether the string value of `e` contains the wanted text, which may lie over several text rows.
/// It takes no memory.
pub fn contains_text<T: Tree>(tree: &T, e: u32, wanted: &str) -> bool
    requires { e < length (T.document tree.now) }
    ensures { result ≡ contains (string_value (T.document tree.now) e) (chars wanted.now) }
{
    if wanted.is_empty() {
        return true;
    }
    match tree.kind(e) {
        Kind::Root | Kind::Element => contains_below(tree, e, wanted),
        Kind::Attribute | Kind::Text | Kind::Comment => includes(tree.text(e), wanted),
    }
}
