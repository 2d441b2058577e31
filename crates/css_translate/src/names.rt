ghost use Rattle.std.specs.Prelude.{◌≡◌, ◌++◌, OnOk, IfOk, string_bytes, codes};
ghost use Rattle.std.specs.List.{list_all};
ghost use Rattle.std.specs.Str.{chars};
ghost use Rattle.css_printed.specs.Names.{is_plain_start, is_plain_char, is_plain, name_bytes, name_bracket, element_text, attribute_text};

use crate::literals::push_literal;
use crate::pushing::push;
use css_selectors::Dialect;
use std::alloc::Global;
use text_base::{NoMemory, Txt, lower_ascii};

/// Whether the character is an ASCII letter or `_`.
fn is_plain_start(c: char) -> bool
    ensures { result ≡ is_plain_start c }
{
    (c >= 'A' && c <= 'Z') || (c >= 'a' && c <= 'z') || c == '_'
}

/// Whether a plain name may have the character behind its first.
fn is_plain_char(c: char) -> bool
    ensures { result ≡ is_plain_char c }
{
    is_plain_start(c) || (c >= '0' && c <= '9') || c == '-' || c == '.'
}

/// Whether a plain name may have all the characters behind its first.
fn all_plain(text: &str) -> bool
    ensures { result ≡ list_all is_plain_char (chars text.now) }
{
    text.chars().all(|c| is_plain_char(c))
}

/// Whether XPath reads the name as one without a prefix.
#[tactic(auto, using(std::proofs::lemmas::Str::chars_past_char))]
fn is_plain(name: &Txt) -> bool
    ensures { result ≡ is_plain name.now }
{
    let mut chars = name.as_str().chars();
    match chars.next() {
        None => false,
        Some(first) => is_plain_start(first) && all_plain(chars.as_str()),
    }
}

/// Appends a name as the dialect has it.
fn push_name(alloc: Global, out: &mut String, dialect: Dialect, name: &Txt) -> Result<(), NoMemory>
    ensures { OnOk result (string_bytes out.new ≡ string_bytes out.old ++ name_bytes dialect name.now) }
{
    match dialect {
        Dialect::Generic => push(out, name.as_str()),
        Dialect::Html => {
            let lower = lower_ascii(alloc, name.as_str())?;
            push(out, lower.as_str())
        }
    }
}

/// `[name() = 'name']`
fn push_bracket(
    alloc: Global,
    out: &mut String,
    dialect: Dialect,
    name: &Txt,
) -> Result<(), NoMemory>
    ensures { OnOk result (string_bytes out.new ≡ string_bytes out.old ++ name_bracket dialect name.now) }
{
    let mut written = String::new(alloc);
    push_name(alloc, &mut written, dialect, name)?;
    push(out, "[name() = ")?;
    push_literal(out, written.as_str())?;
    push(out, "]")
}

/// `name`, or `*[name() = 'name']`
#[tactic(auto, using(css_printed::proofs::NameCases::plain_element, css_printed::proofs::NameCases::odd_element))]
fn push_named(alloc: Global, out: &mut String, dialect: Dialect, name: &Txt) -> Result<(), NoMemory>
    ensures { OnOk result (string_bytes out.new ≡ string_bytes out.old ++ element_text dialect (Some name.now)) }
{
    if is_plain(name) {
        push_name(alloc, out, dialect, name)
    } else {
        push(out, "*")?;
        push_bracket(alloc, out, dialect, name)
    }
}

/// Appends the node test of an element.
pub fn push_element(
    alloc: Global,
    out: &mut String,
    dialect: Dialect,
    element: &Option<Txt>,
) -> Result<(), NoMemory>
    ensures { OnOk result (string_bytes out.new ≡ string_bytes out.old ++ element_text dialect element.now) }
{
    match element {
        None => push(out, "*"),
        Some(name) => push_named(alloc, out, dialect, name),
    }
}

/// `@name`, or `attribute::*[name() = 'name']`
pub fn push_attribute(
    alloc: Global,
    out: &mut String,
    dialect: Dialect,
    name: &Txt,
) -> Result<(), NoMemory>
    ensures { OnOk result (string_bytes out.new ≡ string_bytes out.old ++ attribute_text dialect name.now) }
{
    if is_plain(name) {
        push(out, "@")?;
        push_name(alloc, out, dialect, name)
    } else {
        push(out, "attribute::*")?;
        push_bracket(alloc, out, dialect, name)
    }
}
