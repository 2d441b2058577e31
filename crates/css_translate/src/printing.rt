ghost use Rattle.std.specs.Prelude.{◌≡◌, ◌++◌, true, ◌≤◌, ◌<◌, ◌⊎◌, OnOk, IfOk, IfErr, flat_map, map, length, string_bytes};
ghost use Rattle.std.specs.List.{AllByRecursion};
ghost use Rattle.css_selectors.specs.Texts as selectors;
ghost use Rattle.css_selectors.specs.Texts.{AreTexts};
ghost use Rattle.css_selectors.specs.WellMade.{WellMade};
ghost use Rattle.css_printed.specs.Printed.{joined, tail_text, parts_text, selector_text, printed};
ghost use Rattle.css_printed.specs.Promise.{KeepsMeaning};
ghost use Rattle.css_translate.specs.inner.Pieces.{further_text};
ghost use Rattle.css_translate.specs.inner.Read.{IsReadPart, IsReadSelector};
ghost use Rattle.xpath_lexer.specs.Places.{most_xpath};

use crate::names::push_attribute;
use crate::pushing::push;
use crate::relatives::push_part;
use crate::texts::read;
use css_selectors::{Dialect, Part, Selector, SelectorList, Tail};
use std::alloc::Global;
use text_base::{NoMemory, SelectorFault};
use xpath_lexer::XPATH_LIMIT;

fn push_parts(
    alloc: Global,
    out: &mut String,
    dialect: Dialect,
    parts: &[Part],
) -> Result<(), NoMemory>
    ensures text { OnOk result (string_bytes out.new ≡ string_bytes out.old ++ parts_text dialect parts.now) }
    ensures texts { OnOk result (AllByRecursion IsReadPart parts.now) }
{
    for part in parts {
        push_part(alloc, out, dialect, false, part)?;
    }
    Ok(())
}

/// Appends the step to the rows that a selector gives: `/text()` or `/@name`, where it does not give the elements.
#[tactic(auto, using(crate::proofs::TextLemmas::already))]
fn push_tail(alloc: Global, out: &mut String, dialect: Dialect, tail: &Tail) -> Result<(), NoMemory>
    ensures text { OnOk result (string_bytes out.new ≡ string_bytes out.old ++ tail_text dialect tail.now) }
    ensures texts { OnOk result (selectors.tail_text tail.now ≡ true) }
{
    match tail {
        Tail::Element => Ok(()),
        Tail::Text => push(out, "/text()"),
        Tail::Attr(name) => {
            read(name);
            push(out, "/")?;
            push_attribute(alloc, out, dialect, name)
        }
    }
}

#[tactic(auto, using(crate::proofs::TextLemmas::read_selector))]
fn push_selector(
    alloc: Global,
    out: &mut String,
    dialect: Dialect,
    selector: &Selector,
) -> Result<(), NoMemory>
    ensures text { OnOk result (string_bytes out.new ≡ string_bytes out.old ++ selector_text dialect selector.now) }
    ensures texts { OnOk result (IsReadSelector selector.now) }
{
    push_parts(alloc, out, dialect, selector.parts.as_slice())?;
    push_tail(alloc, out, dialect, &selector.tail)
}

/// ` | ` and a selector
fn push_one_further(
    alloc: Global,
    out: &mut String,
    dialect: Dialect,
    selector: &Selector,
) -> Result<(), NoMemory>
    ensures text { OnOk result (string_bytes out.new ≡ string_bytes out.old ++ further_text dialect selector.now) }
    ensures texts { OnOk result (IsReadSelector selector.now) }
{
    push(out, " | ")?;
    push_selector(alloc, out, dialect, selector)
}

fn push_further(
    alloc: Global,
    out: &mut String,
    dialect: Dialect,
    selectors: &[Selector],
) -> Result<(), NoMemory>
    ensures text { OnOk result (string_bytes out.new ≡ string_bytes out.old ++ flat_map (further_text dialect) selectors.now) }
    ensures texts { OnOk result (AllByRecursion IsReadSelector selectors.now) }
{
    for selector in selectors {
        push_one_further(alloc, out, dialect, selector)?;
    }
    Ok(())
}

fn push_list(
    alloc: Global,
    out: &mut String,
    dialect: Dialect,
    selectors: &[Selector],
) -> Result<(), NoMemory>
    ensures text { OnOk result (string_bytes out.new ≡ string_bytes out.old ++ joined (map (selector_text dialect) selectors.now)) }
    ensures texts { OnOk result (AllByRecursion IsReadSelector selectors.now) }
{
    match selectors.split_first() {
        None => Ok(()),
        Some((first, rest)) => {
            push_selector(alloc, out, dialect, first)?;
            push_further(alloc, out, dialect, rest)
        }
    }
}

#[tactic(auto, using(crate::proofs::TextLemmas::are_texts))]
fn print_list(alloc: Global, dialect: Dialect, list: &SelectorList) -> Result<String, NoMemory>
    ensures text { IfOk result (λ t. string_bytes t ≡ printed dialect list.now) }
    ensures texts { OnOk result (AreTexts list.now) }
{
    let mut out = String::new(alloc);
    push_list(alloc, &mut out, dialect, list.items.as_slice())?;
    Ok(out)
}

/// The XPath of a selector list, which gives the rows that the list answers, from each row. The text is refused as too
/// long exactly where it has more than 1,048,576 bytes, as many as an XPath text may have.
pub fn translate(
    alloc: Global,
    dialect: Dialect,
    list: &SelectorList,
) -> Result<String, SelectorFault>
    requires { WellMade list.now }
    ensures text { IfOk result (λ t. string_bytes t ≡ printed dialect list.now) }
    ensures meaning { IfOk result (λ t. KeepsMeaning dialect list.now (string_bytes t)) }
    ensures short { IfOk result (λ t. length (string_bytes t) ≤ most_xpath) }
    ensures fault { IfErr result (λ e. (e ≡ SelectorFault.Memory) ⊎ (e ≡ SelectorFault.XPathLong)) }
    ensures long { result ≡ Err SelectorFault.XPathLong → most_xpath < length (printed dialect list.now) }
{
    match print_list(alloc, dialect, list) {
        Ok(text) => {
            if text.len() > XPATH_LIMIT {
                Err(SelectorFault::XPathLong)
            } else {
                Ok(text)
            }
        }
        Err(NoMemory) => Err(SelectorFault::Memory),
    }
}
