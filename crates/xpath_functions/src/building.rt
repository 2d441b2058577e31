//! Texts that are built once, by pushing.
ghost use Rattle.std.specs.Prelude.{◌≡◌, ◌++◌, ℕ, Option, IfOk, OnOk, string_bytes};
ghost use Rattle.std.specs.BTreeMap.{get_by};
ghost use Rattle.std.specs.Option.{option_to_list};
ghost use Rattle.std.specs.Ordering.{nat_cmp};
ghost use Rattle.std.specs.Str.{chars};
ghost use Rattle.xpath_functions.specs.Rows.{AreWithin};
ghost use Rattle.xpath_functions.specs.inner.Spacing as spacing;
ghost use Rattle.xpath_functions.specs.inner.Translations.{image_in, turned};
ghost use Rattle.xpath_parser.specs.Functions.{concat_of};
ghost use Rattle.xpath_values.specs.Strings as strings;

use crate::texts::value_text;
use doc_model::Tree;
use std::alloc::Global;
use std::collections::BTreeMap;
use text_base::{NoMemory, is_empty, is_space4};
use xpath_values::Value;

/// Adds a text.
fn push_text(out: &mut String, text: &str) -> Result<(), NoMemory>
    ensures { OnOk result (chars (string_bytes out.new) ≡ chars (string_bytes out.old) ++ chars text.now) }
{
    out.push_str(text)?;
    Ok(())
}

/// Adds a character, if there is one.
fn push_some(out: &mut String, c: Option<char>) -> Result<(), NoMemory>
    ensures { OnOk result (chars (string_bytes out.new) ≡ chars (string_bytes out.old) ++ option_to_list c) }
{
    if let Some(c) = c {
        out.push(c)?;
    }
    Ok(())
}

/// The strings of the values, joined.
pub fn joined<T: Tree>(alloc: Global, tree: &T, values: &[Value]) -> Result<String, NoMemory>
    requires { AreWithin (T.document tree.now) values.now }
    ensures { IfOk result (λ s. chars (string_bytes s) ≡ concat_of (T.document tree.now) values.now) }
{
    let mut out = String::new(alloc);
    for value in values {
        let text = value_text(alloc, tree, value)?;
        push_text(&mut out, text.as_str())?;
    }
    Ok(out)
}

/// Adds a space, if it is wanted and there is a text before it.
fn push_space(out: &mut String, wanted: bool) -> Result<(), NoMemory>
    ensures { OnOk result (chars (string_bytes out.new) ≡ spacing.parted wanted (chars (string_bytes out.old))) }
{
    if wanted && !is_empty(out.as_str()) {
        out.push(' ')?;
    }
    Ok(())
}

/// Reads a character on, and says whether white space stands behind the text.
fn push_spaced(out: &mut String, apart: bool, c: char) -> Result<bool, NoMemory>
    ensures text { OnOk result (chars (string_bytes out.new) ≡ (spacing.next (record { text = chars (string_bytes out.old); apart = apart }) c).text) }
    ensures apart { IfOk result (λ r. r ≡ (spacing.next (record { text = chars (string_bytes out.old); apart = apart }) c).apart) }
{
    if is_space4(c) {
        return Ok(true);
    }
    push_space(out, apart)?;
    push_some(out, Some(c))?;
    Ok(false)
}

/// The words of a text with one space between two.
pub fn normalized(alloc: Global, text: &str) -> Result<String, NoMemory>
    ensures { IfOk result (λ s. chars (string_bytes s) ≡ strings.normalized (chars text.now)) }
{
    let mut out = String::new(alloc);
    let mut apart = false;
    for c in text.chars() {
        apart = push_spaced(&mut out, apart, c)?;
    }
    Ok(out)
}

/// What each character of a text becomes: the one at the same place of the other text, or nothing. The first place
/// counts.
fn table_of(alloc: Global, from: &str, to: &str) -> Result<BTreeMap<char, Option<char>>, NoMemory>
    ensures { IfOk result (λ m. (c : ℕ) → get_by (nat_cmp c) m ≡ image_in (chars from.now) (chars to.now) c) }
{
    let mut table = BTreeMap::new(alloc);
    let mut images = to.chars();
    for c in from.chars() {
        let image = images.next();
        if !table.contains_key(&c) {
            table.insert(c, image)?;
        }
    }
    Ok(table)
}

/// What a character becomes.
fn turned(table: &BTreeMap<char, Option<char>>, c: char) -> Option<char>
    ensures { result ≡ turned c (get_by (nat_cmp c) table.now) }
{
    match table.get(&c) {
        Some(image) => *image,
        None => Some(c),
    }
}

/// The text with its characters turned, each looked up once.
pub fn translated(alloc: Global, text: &str, from: &str, to: &str) -> Result<String, NoMemory>
    ensures { IfOk result (λ s. chars (string_bytes s) ≡ strings.translated (chars text.now) (chars from.now) (chars to.now)) }
{
    let table = table_of(alloc, from, to)?;
    let mut out = String::new(alloc);
    for c in text.chars() {
        push_some(&mut out, turned(&table, c))?;
    }
    Ok(out)
}
