//! The string value of a row, after XPath 1.0, section 5.
ghost use Rattle.std.specs.Prelude.{◌≡◌, ◌<◌, ◌++◌, ℕ, [], length, if◌then◌else◌, string_bytes, encode_utf8_all, IfOk, OnOk};
ghost use Rattle.std.specs.Str.{chars, IsUtf8};
ghost use Rattle.doc_model.specs.Document.{row, is_text};
ghost use Rattle.doc_model.specs.StringValue as spec;

use crate::Kind;
use crate::row_tests::is_text;
use crate::tree::Tree;
use std::alloc::Global;
use text_base::NoMemory;

/// The text of the row, if it is a text, after what is there.
fn push_text<T: Tree>(tree: &T, y: u32, text: &mut String) -> Result<(), NoMemory>
    requires row { y < length (T.document tree.now) }
    requires utf8 { IsUtf8 (string_bytes text.old) }
    ensures chars { OnOk result (chars (string_bytes text.new) ≡ chars (string_bytes text.old) ++ (if is_text (T.document tree.now) y then (row (T.document tree.now) y).text else [])) }
    ensures utf8 { OnOk result (IsUtf8 (string_bytes text.new)) }
{
    if is_text(tree, y) {
        text.push_str(tree.text(y))?;
    }
    Ok(())
}

/// The texts of all text rows below the row, in order, joined.
fn texts_below<T: Tree>(alloc: Global, tree: &T, i: u32) -> Result<String, NoMemory>
    requires { i < length (T.document tree.now) }
    ensures chars { IfOk result (λ s. chars (string_bytes s) ≡ spec.texts_below (T.document tree.now) i) }
    ensures bytes { IfOk result (λ s. string_bytes s ≡ encode_utf8_all (spec.texts_below (T.document tree.now) i)) }
{
    let end = tree.end(i);
    let mut text = String::new(alloc);
    let mut y = i + 1;
    while y < end {
        push_text(tree, y, &mut text)?;
        y += 1;
    }
    Ok(text)
}

/// A copy of the row's own text.
fn own_text<T: Tree>(alloc: Global, tree: &T, i: u32) -> Result<String, NoMemory>
    requires { i < length (T.document tree.now) }
    ensures chars { IfOk result (λ s. chars (string_bytes s) ≡ (row (T.document tree.now) i).text) }
    ensures bytes { IfOk result (λ s. string_bytes s ≡ encode_utf8_all (row (T.document tree.now) i).text) }
{
    let text = String::from_str(alloc, tree.text(i))?;
    Ok(text)
}

/// Of the root node or an element, the texts of all text rows below it, in order, joined. Of any other row, its text.
pub fn string_value<T: Tree>(alloc: Global, tree: &T, i: u32) -> Result<String, NoMemory>
    requires { i < length (T.document tree.now) }
    ensures chars { IfOk result (λ s. chars (string_bytes s) ≡ spec.string_value (T.document tree.now) i) }
    ensures bytes { IfOk result (λ s. string_bytes s ≡ encode_utf8_all (spec.string_value (T.document tree.now) i)) }
{
    match tree.kind(i) {
        Kind::Root | Kind::Element => texts_below(alloc, tree, i),
        Kind::Attribute | Kind::Text | Kind::Comment => own_text(alloc, tree, i),
    }
}
