ghost use Rattle.std.specs.Prelude.{◌≡◌, ◌++◌, ◌-◌, OnOk, IfOk, length, string_bytes, encode_utf8_all, codes};
ghost use Rattle.std.specs.Fmt.{decimal};
ghost use Rattle.std.specs.List.{list_any};
ghost use Rattle.std.specs.Str.{chars};
ghost use Rattle.text_base.specs.Text.{is_space5};
ghost use Rattle.text_base.specs.Strings.{is_empty};
ghost use Rattle.css_selectors.specs.declared.selector.Op.TheVariants as op;
ghost use Rattle.css_printed.specs.Literals.{literal_text};
ghost use Rattle.css_printed.specs.Simples.{nowhere, op_text, word_text, dash_text, prefix_text, suffix_text, substring_text};

use crate::literals::{push_literal, push_value};
use crate::positions::push_decimal;
use crate::pushing::{push, push_all};
use css_selectors::Op;
use std::alloc::Global;
use text_base::{NoMemory, Txt, char_len, is_space5};

/// Whether the text has no character.
fn is_empty(text: &Txt) -> bool
    ensures { result ≡ is_empty text.now }
{
    match text.as_str().chars().next() {
        None => true,
        Some(_) => false,
    }
}

/// Whether a character is white space.
fn has_white(text: &str) -> bool
    ensures { result ≡ list_any is_space5 (chars text.now) }
{
    text.chars().any(|c| is_space5(c))
}

/// Whether the text has white space.
fn has_space(text: &Txt) -> bool
    ensures { result ≡ list_any is_space5 text.now }
{
    has_white(text.as_str())
}

/// `[0]`
fn push_nowhere(out: &mut String) -> Result<(), NoMemory>
    ensures { OnOk result (string_bytes out.new ≡ string_bytes out.old ++ nowhere) }
{
    push(out, "[0]")
}

/// `[@a]`
fn push_exists(out: &mut String, attribute: &str, value: &Txt) -> Result<(), NoMemory>
    ensures { OnOk result (string_bytes out.new ≡ string_bytes out.old ++ op_text attribute.now op.Exists value.now) }
{
    push_all(out, &["[", attribute, "]"][..])
}

/// `[@a = 'v']`
fn push_equals(out: &mut String, attribute: &str, value: &Txt) -> Result<(), NoMemory>
    ensures { OnOk result (string_bytes out.new ≡ string_bytes out.old ++ op_text attribute.now op.Equals value.now) }
{
    push_all(out, &["[", attribute, " = "][..])?;
    push_value(out, value)?;
    push(out, "]")
}

/// The value between spaces.
fn spaced(alloc: Global, value: &Txt) -> Result<String, NoMemory>
    ensures { IfOk result (λ t. string_bytes t ≡ codes " " ++ (encode_utf8_all value.now ++ codes " ")) }
{
    let mut text = String::new(alloc);
    push_all(&mut text, &[" ", value.as_str(), " "][..])?;
    Ok(text)
}

/// `[@a and contains(concat(' ', normalize-space(@a), ' '), ' v ')]`
fn push_one_word(out: &mut String, attribute: &str, word: &str) -> Result<(), NoMemory>
    ensures { OnOk result (string_bytes out.new ≡ string_bytes out.old ++ (codes "[" ++ (attribute.now ++ (codes " and contains(concat(' ', normalize-space(" ++ (attribute.now ++ (codes "), ' '), " ++ (literal_text word.now ++ codes ")]"))))))) }
{
    push(out, "[")?;
    push(out, attribute)?;
    push(out, " and contains(concat(' ', normalize-space(")?;
    push(out, attribute)?;
    push(out, "), ' '), ")?;
    push_literal(out, word)?;
    push(out, ")]")
}

/// `[@a and contains(concat(' ', normalize-space(@a), ' '), ' v ')]`, or `[0]` where v is no word
pub fn push_word(
    alloc: Global,
    out: &mut String,
    attribute: &str,
    value: &Txt,
) -> Result<(), NoMemory>
    ensures { OnOk result (string_bytes out.new ≡ string_bytes out.old ++ word_text attribute.now value.now) }
{
    if is_empty(value) || has_space(value) {
        push_nowhere(out)
    } else {
        let word = spaced(alloc, value)?;
        push_one_word(out, attribute, word.as_str())
    }
}

/// The value and `-`.
fn dashed(alloc: Global, value: &Txt) -> Result<String, NoMemory>
    ensures { IfOk result (λ t. string_bytes t ≡ encode_utf8_all value.now ++ codes "-") }
{
    let mut text = String::new(alloc);
    push_all(&mut text, &[value.as_str(), "-"][..])?;
    Ok(text)
}

/// `[@a and (@a = 'v' or starts-with(@a, 'v-'))]`
fn push_either(out: &mut String, attribute: &str, value: &Txt, start: &str) -> Result<(), NoMemory>
    ensures { OnOk result (string_bytes out.new ≡ string_bytes out.old ++ (codes "[" ++ (attribute.now ++ (codes " and (" ++ (attribute.now ++ (codes " = " ++ (literal_text (encode_utf8_all value.now) ++ (codes " or starts-with(" ++ (attribute.now ++ (codes ", " ++ (literal_text start.now ++ codes "))]"))))))))))) }
{
    push(out, "[")?;
    push(out, attribute)?;
    push(out, " and (")?;
    push(out, attribute)?;
    push(out, " = ")?;
    push_value(out, value)?;
    push(out, " or starts-with(")?;
    push(out, attribute)?;
    push(out, ", ")?;
    push_literal(out, start)?;
    push(out, "))]")
}

/// `[@a and (@a = 'v' or starts-with(@a, 'v-'))]`
fn push_dash(alloc: Global, out: &mut String, attribute: &str, value: &Txt) -> Result<(), NoMemory>
    ensures { OnOk result (string_bytes out.new ≡ string_bytes out.old ++ dash_text attribute.now value.now) }
{
    let start = dashed(alloc, value)?;
    push_either(out, attribute, value, start.as_str())
}

/// `[@a and starts-with(@a, 'v')]`, with the function's name
fn push_call(out: &mut String, attribute: &str, call: &str, value: &Txt) -> Result<(), NoMemory>
    ensures { OnOk result (string_bytes out.new ≡ string_bytes out.old ++ (codes "[" ++ (attribute.now ++ (call.now ++ (attribute.now ++ (codes ", " ++ (literal_text (encode_utf8_all value.now) ++ codes ")]"))))))) }
{
    push_all(out, &["[", attribute, call, attribute, ", "][..])?;
    push_value(out, value)?;
    push(out, ")]")
}

/// `[@a and starts-with(@a, 'v')]`, or `[0]` where v is empty
fn push_prefix(out: &mut String, attribute: &str, value: &Txt) -> Result<(), NoMemory>
    ensures { OnOk result (string_bytes out.new ≡ string_bytes out.old ++ prefix_text attribute.now value.now) }
{
    if is_empty(value) {
        push_nowhere(out)
    } else {
        push_call(out, attribute, " and starts-with(", value)
    }
}

/// `[@a and substring(@a, string-length(@a) - n) = 'v']`
fn push_end(
    alloc: Global,
    out: &mut String,
    attribute: &str,
    n: u64,
    value: &Txt,
) -> Result<(), NoMemory>
    ensures { OnOk result (string_bytes out.new ≡ string_bytes out.old ++ (codes "[" ++ (attribute.now ++ (codes " and substring(" ++ (attribute.now ++ (codes ", string-length(" ++ (attribute.now ++ (codes ") - " ++ (decimal n ++ (codes ") = " ++ (literal_text (encode_utf8_all value.now) ++ codes "]"))))))))))) }
{
    push(out, "[")?;
    push(out, attribute)?;
    push(out, " and substring(")?;
    push(out, attribute)?;
    push(out, ", string-length(")?;
    push(out, attribute)?;
    push(out, ") - ")?;
    push_decimal(alloc, out, n)?;
    push(out, ") = ")?;
    push_value(out, value)?;
    push(out, "]")
}

/// `[@a and substring(@a, string-length(@a) - n) = 'v']`, where v has n + 1 characters, or `[0]` where v is empty
fn push_suffix(
    alloc: Global,
    out: &mut String,
    attribute: &str,
    value: &Txt,
) -> Result<(), NoMemory>
    ensures { OnOk result (string_bytes out.new ≡ string_bytes out.old ++ suffix_text attribute.now value.now) }
{
    if is_empty(value) {
        push_nowhere(out)
    } else {
        push_end(alloc, out, attribute, char_len(value.as_str()) - 1, value)
    }
}

/// `[@a and contains(@a, 'v')]`, or `[0]` where v is empty
fn push_substring(out: &mut String, attribute: &str, value: &Txt) -> Result<(), NoMemory>
    ensures { OnOk result (string_bytes out.new ≡ string_bytes out.old ++ substring_text attribute.now value.now) }
{
    if is_empty(value) {
        push_nowhere(out)
    } else {
        push_call(out, attribute, " and contains(", value)
    }
}

/// Appends the predicate that compares an attribute with a value.
pub fn push_op(
    alloc: Global,
    out: &mut String,
    attribute: &str,
    op: Op,
    value: &Txt,
) -> Result<(), NoMemory>
    ensures { OnOk result (string_bytes out.new ≡ string_bytes out.old ++ op_text attribute.now op value.now) }
{
    match op {
        Op::Exists => push_exists(out, attribute, value),
        Op::Equals => push_equals(out, attribute, value),
        Op::Word => push_word(alloc, out, attribute, value),
        Op::Dash => push_dash(alloc, out, attribute, value),
        Op::Prefix => push_prefix(out, attribute, value),
        Op::Suffix => push_suffix(alloc, out, attribute, value),
        Op::Substring => push_substring(out, attribute, value),
    }
}
