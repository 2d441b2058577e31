ghost use Rattle.std.specs.Prelude.{◌≡◌, ◌++◌, true, OnOk, string_bytes, flat_map, map, codes};
ghost use Rattle.std.specs.List.{AllByRecursion};
ghost use Rattle.css_selectors.specs.Texts.{test_texts};
ghost use Rattle.css_selectors.specs.WellMade.{innermost};
ghost use Rattle.css_printed.specs.Names.{element_text};
ghost use Rattle.css_printed.specs.TestTexts.{choice, test_said, compound_text, simple_text};
ghost use Rattle.css_translate.specs.inner.Pieces.{or_text};
ghost use Rattle.css_translate.specs.inner.Read.{IsReadSimple, IsReadCompound};

use crate::languages::push_lang;
use crate::names::push_element;
use crate::positions::push_position;
use crate::pseudo::push_pseudo;
use crate::pushing::push;
use crate::relatives::push_has;
use crate::simples::{
    push_attribute_test, push_class, push_contains, push_id, push_named, push_self,
};
use crate::texts::{read, read_both, read_element};
use css_selectors::{Compound, Dialect, Simple, Test};
use std::alloc::Global;
use text_base::{NoMemory, Txt};

/// The name that counts inside a compound: its own, or that around it.
fn innermost<'a>(around: &'a Option<Txt>, element: &'a Option<Txt>) -> &'a Option<Txt>
    ensures { result.now ≡ innermost around.now element.now }
{
    match element {
        None => around,
        Some(_) => element,
    }
}

/// Appends the predicates of a test that is not negated.
#[cycle(printing)]
#[tactic(auto, using(crate::proofs::Said::brackets_element, crate::proofs::Said::brackets_id, crate::proofs::Said::brackets_class, crate::proofs::Said::brackets_attr, crate::proofs::Said::brackets_nth, crate::proofs::Said::brackets_pseudo, crate::proofs::Said::brackets_contains, crate::proofs::Said::brackets_lang, crate::proofs::Said::brackets_any, crate::proofs::Said::brackets_has, crate::proofs::TextLemmas::already, crate::proofs::TextLemmas::read_element, crate::proofs::TextLemmas::read_id, crate::proofs::TextLemmas::read_class, crate::proofs::TextLemmas::read_attr, crate::proofs::TextLemmas::read_contains, crate::proofs::TextLemmas::read_lang, crate::proofs::TextLemmas::read_any, crate::proofs::TextLemmas::read_has, css_selectors::proofs::TextsAt::at_nth, css_selectors::proofs::TextsAt::at_pseudo))]
fn push_brackets(
    alloc: Global,
    out: &mut String,
    dialect: Dialect,
    around: &Option<Txt>,
    test: &Test,
) -> Result<(), NoMemory>
    ensures text { OnOk result (string_bytes out.new ≡ string_bytes out.old ++ (test_said dialect test.now around.now).brackets) }
    ensures texts { OnOk result (test_texts test.now ≡ true) }
{
    match test {
        Test::Element(name) => {
            read_element(name);
            push_named(alloc, out, dialect, name)
        }
        Test::Id(value) => {
            read(value);
            push_id(out, value)
        }
        Test::Class(value) => {
            read(value);
            push_class(alloc, out, dialect, value)
        }
        Test::Attr(name, op, value) => {
            read_both(name, value);
            push_attribute_test(alloc, out, dialect, name, *op, value)
        }
        Test::Nth(kind, a, b) => push_position(alloc, out, dialect, around, kind, a, b),
        Test::Pseudo(which) => push_pseudo(alloc, out, dialect, around, *which),
        Test::Contains(value) => {
            read(value);
            push_contains(out, value)
        }
        Test::Lang(tag) => {
            read(tag);
            push_lang(alloc, out, dialect, tag)
        }
        Test::Any(_, list) => push_any(alloc, out, dialect, around, list.as_slice()),
        Test::Has(list) => push_has(alloc, out, dialect, list.as_slice()),
    }
}

/// A choice in brackets.
#[cycle(printing)]
#[tactic(auto, using(crate::proofs::TextLemmas::already))]
fn push_any(
    alloc: Global,
    out: &mut String,
    dialect: Dialect,
    around: &Option<Txt>,
    compounds: &[Compound],
) -> Result<(), NoMemory>
    ensures text { OnOk result (string_bytes out.new ≡ string_bytes out.old ++ (codes "[" ++ (choice (map (λ c. compound_text dialect c around.now) compounds.now) ++ codes "]"))) }
    ensures texts { OnOk result (AllByRecursion IsReadCompound compounds.now) }
{
    push(out, "[")?;
    push_choice(alloc, out, dialect, around, compounds)?;
    push(out, "]")
}

/// The predicates of a test, at the element itself: `self::*[..]`
#[cycle(printing)]
fn push_itself(
    alloc: Global,
    out: &mut String,
    dialect: Dialect,
    around: &Option<Txt>,
    test: &Test,
) -> Result<(), NoMemory>
    ensures text { OnOk result (string_bytes out.new ≡ string_bytes out.old ++ (codes "self::*" ++ (test_said dialect test.now around.now).brackets)) }
    ensures texts { OnOk result (test_texts test.now ≡ true) }
{
    push(out, "self::*")?;
    push_brackets(alloc, out, dialect, around, test)
}

/// Appends what stands in the negation of a test.
#[cycle(printing)]
#[tactic(auto, using(crate::proofs::Said::inside_element, crate::proofs::Said::inside_id, crate::proofs::Said::inside_class, crate::proofs::Said::inside_attr, crate::proofs::Said::inside_nth, crate::proofs::Said::inside_pseudo, crate::proofs::Said::inside_contains, crate::proofs::Said::inside_lang, crate::proofs::Said::inside_any, crate::proofs::Said::inside_has, crate::proofs::TextLemmas::already, crate::proofs::TextLemmas::read_element, crate::proofs::TextLemmas::read_any))]
fn push_inside(
    alloc: Global,
    out: &mut String,
    dialect: Dialect,
    around: &Option<Txt>,
    test: &Test,
) -> Result<(), NoMemory>
    ensures text { OnOk result (string_bytes out.new ≡ string_bytes out.old ++ (test_said dialect test.now around.now).inside) }
    ensures texts { OnOk result (test_texts test.now ≡ true) }
{
    match test {
        Test::Element(name) => {
            read_element(name);
            push_self(alloc, out, dialect, name)
        }
        Test::Id(_) => push_itself(alloc, out, dialect, around, test),
        Test::Class(_) => push_itself(alloc, out, dialect, around, test),
        Test::Attr(_, _, _) => push_itself(alloc, out, dialect, around, test),
        Test::Nth(_, _, _) => push_itself(alloc, out, dialect, around, test),
        Test::Pseudo(_) => push_itself(alloc, out, dialect, around, test),
        Test::Contains(_) => push_itself(alloc, out, dialect, around, test),
        Test::Lang(_) => push_itself(alloc, out, dialect, around, test),
        Test::Any(_, list) => push_choice(alloc, out, dialect, around, list.as_slice()),
        Test::Has(_) => push_itself(alloc, out, dialect, around, test),
    }
}

/// `[not(..)]`
#[cycle(printing)]
#[tactic(auto, using(crate::proofs::TextLemmas::already))]
fn push_negated(
    alloc: Global,
    out: &mut String,
    dialect: Dialect,
    around: &Option<Txt>,
    test: &Test,
) -> Result<(), NoMemory>
    ensures text { OnOk result (string_bytes out.new ≡ string_bytes out.old ++ (codes "[not(" ++ ((test_said dialect test.now around.now).inside ++ codes ")]"))) }
    ensures texts { OnOk result (test_texts test.now ≡ true) }
{
    push(out, "[not(")?;
    push_inside(alloc, out, dialect, around, test)?;
    push(out, ")]")
}

/// Appends the predicates of a simple selector, where the innermost compound around it that has an
/// element has this one.
#[cycle(printing)]
#[tactic(auto, using(crate::proofs::Said::at_negated, crate::proofs::Said::at_plain, crate::proofs::TextLemmas::read_simple))]
fn push_simple(
    alloc: Global,
    out: &mut String,
    dialect: Dialect,
    around: &Option<Txt>,
    simple: &Simple,
) -> Result<(), NoMemory>
    ensures text { OnOk result (string_bytes out.new ≡ string_bytes out.old ++ simple_text dialect simple.now around.now) }
    ensures texts { OnOk result (IsReadSimple simple.now) }
{
    if simple.negated {
        push_negated(alloc, out, dialect, around, &simple.test)
    } else {
        push_brackets(alloc, out, dialect, around, &simple.test)
    }
}

/// Appends the predicates of simple selectors.
#[cycle(printing)]
pub fn push_simples(
    alloc: Global,
    out: &mut String,
    dialect: Dialect,
    around: &Option<Txt>,
    simples: &[Simple],
) -> Result<(), NoMemory>
    ensures text { OnOk result (string_bytes out.new ≡ string_bytes out.old ++ flat_map (λ x. simple_text dialect x around.now) simples.now) }
    ensures texts { OnOk result (AllByRecursion IsReadSimple simples.now) }
{
    for simple in simples {
        push_simple(alloc, out, dialect, around, simple)?;
    }
    Ok(())
}

/// `self::name` and the predicates of the simple selectors.
#[cycle(printing)]
fn push_self_and(
    alloc: Global,
    out: &mut String,
    dialect: Dialect,
    around: &Option<Txt>,
    element: &Option<Txt>,
    simples: &[Simple],
) -> Result<(), NoMemory>
    ensures text { OnOk result (string_bytes out.new ≡ string_bytes out.old ++ (codes "self::" ++ (element_text dialect element.now ++ flat_map (λ x. simple_text dialect x (innermost around.now element.now)) simples.now))) }
    ensures texts { OnOk result (AllByRecursion IsReadSimple simples.now) }
{
    push(out, "self::")?;
    push_element(alloc, out, dialect, element)?;
    push_simples(alloc, out, dialect, innermost(around, element), simples)
}

#[cycle(printing)]
#[tactic(auto, using(css_printed::proofs::PrintedAt::text_at_compound, crate::proofs::TextLemmas::read_compound))]
fn push_compound(
    alloc: Global,
    out: &mut String,
    dialect: Dialect,
    around: &Option<Txt>,
    compound: &Compound,
) -> Result<(), NoMemory>
    ensures text { OnOk result (string_bytes out.new ≡ string_bytes out.old ++ compound_text dialect compound.now around.now) }
    ensures texts { OnOk result (IsReadCompound compound.now) }
{
    read_element(&compound.element);
    push_self_and(
        alloc,
        out,
        dialect,
        around,
        &compound.element,
        compound.simples.as_slice(),
    )
}

/// ` or `, unless nothing stands before it
pub fn push_or(out: &mut String, is_first: bool) -> Result<(), NoMemory>
    ensures { OnOk result (string_bytes out.new ≡ string_bytes out.old ++ or_text is_first) }
{
    if is_first { Ok(()) } else { push(out, " or ") }
}

/// A compound of a choice, with ` or ` before it unless it is the first.
#[cycle(printing)]
fn push_operand(
    alloc: Global,
    out: &mut String,
    dialect: Dialect,
    around: &Option<Txt>,
    is_first: bool,
    compound: &Compound,
) -> Result<(), NoMemory>
    ensures text { OnOk result (string_bytes out.new ≡ string_bytes out.old ++ (or_text is_first ++ compound_text dialect compound.now around.now)) }
    ensures texts { OnOk result (IsReadCompound compound.now) }
{
    push_or(out, is_first)?;
    push_compound(alloc, out, dialect, around, compound)
}

/// Appends compounds with ` or ` between.
#[cycle(printing)]
fn push_choice(
    alloc: Global,
    out: &mut String,
    dialect: Dialect,
    around: &Option<Txt>,
    compounds: &[Compound],
) -> Result<(), NoMemory>
    ensures text { OnOk result (string_bytes out.new ≡ string_bytes out.old ++ choice (map (λ c. compound_text dialect c around.now) compounds.now)) }
    ensures texts { OnOk result (AllByRecursion IsReadCompound compounds.now) }
{
    let mut is_first = true;
    for compound in compounds {
        push_operand(alloc, out, dialect, around, is_first, compound)?;
        is_first = false;
    }
    Ok(())
}
