//! The function `id`, XPath 1.0, section 4.1.
ghost use Rattle.std.specs.Prelude.{◌≡◌, ◌<◌, ◌&&◌, not, ℕ, Bool, List, length, flat_map, filter, IfOk, IfSome};
ghost use Rattle.std.specs.List.{list_any};
ghost use Rattle.std.specs.Str.{bytes_eq, chars};
ghost use Rattle.doc_model.specs.Attributes.{has_id};
ghost use Rattle.doc_model.specs.Document.{rows};
ghost use Rattle.doc_model.specs.StringValue as values;
ghost use Rattle.doc_model.specs.RowLists.{AllBelow};
ghost use Rattle.xpath_functions.specs.inner.Attributes as spec;
ghost use Rattle.xpath_functions.specs.Rows.{IsWithin};
ghost use Rattle.xpath_functions.specs.inner.Sets.{has_text, AreLeft};
ghost use Rattle.xpath_parser.specs.Functions as functions;
ghost use Rattle.xpath_values.specs.Strings as strings;

use crate::sets::{add, take_out};
use crate::texts::{row_text, value_text};
use doc_model::{Kind, Tree, attribute_named};
use std::alloc::Global;
use std::collections::BTreeSet;
use text_base::{NoMemory, Seq, Txt};
use xpath_values::Value;

/// The words of a text.
fn words_of(alloc: Global, text: &str) -> Result<Seq<Txt>, NoMemory>
    ensures { IfOk result (λ v. v ≡ strings.words (chars text.now)) }
{
    text_base::words_of(alloc, text)
}

/// The words of the string values of all rows.
fn words_of_rows<T: Tree>(alloc: Global, tree: &T, rows: &[u32]) -> Result<Seq<Txt>, NoMemory>
    requires { AllBelow (length (T.document tree.now)) rows.now }
    ensures { IfOk result (λ v. v ≡ flat_map (λ x. strings.words (values.string_value (T.document tree.now) x)) rows.now) }
{
    let mut words = Seq::new(alloc);
    for x in rows {
        let text = row_text(alloc, tree, *x)?;
        let more = words_of(alloc, text.as_str())?;
        words.append(more)?;
    }
    Ok(words)
}

/// The words of a value: of a node-set, those of each row.
pub fn words_of_value<T: Tree>(alloc: Global, tree: &T, value: &Value) -> Result<Seq<Txt>, NoMemory>
    requires { IsWithin (T.document tree.now) value.now }
    ensures { IfOk result (λ v. v ≡ functions.id_words (T.document tree.now) value.now) }
{
    match value {
        Value::Nodes(rows) => words_of_rows(alloc, tree, rows.as_slice()),
        _ => {
            let text = value_text(alloc, tree, value)?;
            words_of(alloc, text.as_str())
        }
    }
}

/// The words as a set.
fn set_of<'a>(alloc: Global, words: &'a [Txt]) -> Result<BTreeSet<&'a str>, NoMemory>
    ensures { IfOk result (λ s. (q : List ℕ) → has_text s q ≡ list_any (λ w. bytes_eq w q) words.now) }
{
    let mut set = BTreeSet::new(alloc);
    for word in words {
        add(&mut set, word.as_str())?;
    }
    Ok(set)
}

/// The attribute `id` of a row, if it is an element.
fn id_of<T: Tree>(tree: &T, y: u32) -> Option<u32>
    requires { y < length (T.document tree.now) }
    ensures id { (q : List ℕ) → has_id (T.document tree.now) q y ≡ spec.is_value (T.document tree.now) result q }
    ensures row { IfSome result (λ z. z < length (T.document tree.now)) }
{
    match tree.kind(y) {
        Kind::Element => attribute_named(tree, y, &"id"),
        Kind::Root | Kind::Attribute | Kind::Text | Kind::Comment => None,
    }
}

/// Whether the row is the first element with one of the ids that are left, which is taken out.
fn is_found<T: Tree>(tree: &T, left: &mut BTreeSet<&str>, y: u32) -> bool
    requires { y < length (T.document tree.now) }
    ensures found { (ws : List (List ℕ)) (earlier : List ℕ → Bool) → AreLeft left.old ws earlier → result ≡ list_any (λ w. has_id (T.document tree.now) w y && not (earlier w)) ws }
    ensures left { (q : List ℕ) → has_text left.new q ≡ (not (has_id (T.document tree.now) q y) && has_text left.old q) }
{
    match id_of(tree, y) {
        Some(z) => take_out(left, tree.text(z)),
        None => false,
    }
}

/// The first element with each of the ids, in document order. Each row is read once, and each id of an element is
/// looked up once; an id that is found is not looked for further.
pub fn rows_with_ids<T: Tree>(alloc: Global, tree: &T, words: &[Txt]) -> Result<Vec<u32>, NoMemory>
    ensures { IfOk result (λ v. v.items ≡ filter (λ y. list_any (λ w. functions.is_id (T.document tree.now) w y) words.now) (rows (T.document tree.now))) }
{
    let mut left = set_of(alloc, words)?;
    let mut found = Vec::new(alloc);
    for y in 0..tree.len() {
        if is_found(tree, &mut left, y) {
            found.push(y)?;
        }
    }
    Ok(found)
}
