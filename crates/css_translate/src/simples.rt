ghost use Rattle.std.specs.Prelude.{◌≡◌, ◌++◌, OnOk, string_bytes, codes, encode_utf8_all};
ghost use Rattle.css_selectors.specs.declared.selector.Op.TheVariants as op;
ghost use Rattle.css_printed.specs.Literals.{literal_text};
ghost use Rattle.css_printed.specs.Names.{element_text, attribute_text};
ghost use Rattle.css_printed.specs.Simples.{op_text};

use crate::attributes::{push_op, push_word};
use crate::literals::push_value;
use crate::names::{push_attribute, push_element};
use crate::pushing::push;
use css_selectors::{Dialect, Op};
use std::alloc::Global;
use text_base::{NoMemory, Txt};

/// `self::name`
pub fn push_self(
    alloc: Global,
    out: &mut String,
    dialect: Dialect,
    name: &Option<Txt>,
) -> Result<(), NoMemory>
    ensures { OnOk result (string_bytes out.new ≡ string_bytes out.old ++ (codes "self::" ++ element_text dialect name.now)) }
{
    push(out, "self::")?;
    push_element(alloc, out, dialect, name)
}

/// `[self::name]`
pub fn push_named(
    alloc: Global,
    out: &mut String,
    dialect: Dialect,
    name: &Option<Txt>,
) -> Result<(), NoMemory>
    ensures { OnOk result (string_bytes out.new ≡ string_bytes out.old ++ (codes "[" ++ ((codes "self::" ++ element_text dialect name.now) ++ codes "]"))) }
{
    push(out, "[")?;
    push_self(alloc, out, dialect, name)?;
    push(out, "]")
}

/// `[@id = 'x']`
pub fn push_id(out: &mut String, value: &Txt) -> Result<(), NoMemory>
    ensures { OnOk result (string_bytes out.new ≡ string_bytes out.old ++ (codes "[@id = " ++ (literal_text (encode_utf8_all value.now) ++ codes "]"))) }
{
    push(out, "[@id = ")?;
    push_value(out, value)?;
    push(out, "]")
}

/// `[@class and contains(concat(' ', normalize-space(@class), ' '), ' x ')]`
#[tactic(auto, using(css_printed::proofs::NameCases::class_attribute))]
pub fn push_class(
    alloc: Global,
    out: &mut String,
    dialect: Dialect,
    value: &Txt,
) -> Result<(), NoMemory>
    ensures { OnOk result (string_bytes out.new ≡ string_bytes out.old ++ op_text (attribute_text dialect (codes "class")) op.Word value.now) }
{
    push_word(alloc, out, "@class", value)
}

/// Appends the predicate of an attribute.
pub fn push_attribute_test(
    alloc: Global,
    out: &mut String,
    dialect: Dialect,
    name: &Txt,
    op: Op,
    value: &Txt,
) -> Result<(), NoMemory>
    ensures { OnOk result (string_bytes out.new ≡ string_bytes out.old ++ op_text (attribute_text dialect name.now) op value.now) }
{
    let mut attribute = String::new(alloc);
    push_attribute(alloc, &mut attribute, dialect, name)?;
    push_op(alloc, out, attribute.as_str(), op, value)
}

/// `[contains(., 'x')]`
pub fn push_contains(out: &mut String, value: &Txt) -> Result<(), NoMemory>
    ensures { OnOk result (string_bytes out.new ≡ string_bytes out.old ++ (codes "[contains(., " ++ (literal_text (encode_utf8_all value.now) ++ codes ")]"))) }
{
    push(out, "[contains(., ")?;
    push_value(out, value)?;
    push(out, ")]")
}
