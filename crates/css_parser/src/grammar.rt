//! Compounds, selectors and lists, after the grammar of Selectors Level 3, section 10.1.
ghost use Rattle.std.specs.Prelude.{◌≡◌, ◌++◌, ◌∷◌, [], ◌<◌, ◌≤◌, length, IfOk, Some, None};
ghost use Rattle.css_parser.specs.Grammar as spec;
ghost use Rattle.css_parser.specs.Simples.{element as element_at};
ghost use Rattle.css_parser.specs.inner.Reading.{AreInside, IsTable, IsCompoundRead, IsFurtherRead, IsSelectorRead, IsListRead};

use crate::attributes::element;
use crate::choices::forms;
use crate::ends::choice_ends;
use crate::links::combinator;
use crate::pieces::{Compound, CompoundRead, ElementRead, SelectorRead};
use crate::places::{skip, stands};
use css_lexer::{CssKind, CssToken};
use css_selectors::Link;
use std::alloc::Global;
use text_base::{NoMemory, SelectorFault, Seq};

/// A compound of its element and what stands behind it.
#[tactic(auto, using(crate::proofs::GrammarLemmas::with_element))]
fn behind_element(
    alloc: Global,
    text: &str,
    tokens: &[CssToken],
    ends: &[Option<usize>],
    link: Link,
    at: usize,
    element: ElementRead,
) -> Result<CompoundRead, NoMemory>
    requires inside { AreInside text.now tokens.now }
    requires table { IsTable text.now tokens.now ends.now }
    requires whole { length tokens.now ≤ length ends.now }
    requires order { at < element.end }
    requires within { element.end ≤ length tokens.now }
    requires stands { element_at tokens.now at ≡ Some element }
    ensures { IfOk result (λ read. IsCompoundRead text.now tokens.now link at (Some read)) }
{
    let ElementRead {
        name,
        prefixed,
        end,
    } = element;
    let read = forms(alloc, text, tokens, ends, 8, false, end)?;
    Ok(CompoundRead {
        compound: Compound {
            link,
            element: name,
            prefixed,
            forms: read.forms,
        },
        end: read.end,
    })
}

/// The compound at a place where no element stands, if one stands there.
#[tactic(auto, using(crate::proofs::GrammarLemmas::without_element, crate::proofs::GrammarLemmas::nothing))]
fn without_element(
    alloc: Global,
    text: &str,
    tokens: &[CssToken],
    ends: &[Option<usize>],
    link: Link,
    at: usize,
) -> Result<Option<CompoundRead>, NoMemory>
    requires inside { AreInside text.now tokens.now }
    requires table { IsTable text.now tokens.now ends.now }
    requires whole { length tokens.now ≤ length ends.now }
    requires within { at ≤ length tokens.now }
    requires stands { element_at tokens.now at ≡ None }
    ensures { IfOk result (IsCompoundRead text.now tokens.now link at) }
{
    let read = forms(alloc, text, tokens, ends, 8, false, at)?;
    if read.forms.is_empty() {
        return Ok(None);
    }
    Ok(Some(CompoundRead {
        compound: Compound {
            link,
            element: None,
            prefixed: false,
            forms: read.forms,
        },
        end: read.end,
    }))
}

/// The compound at a place, if one stands there, as long as it goes.
fn compound(
    alloc: Global,
    text: &str,
    tokens: &[CssToken],
    ends: &[Option<usize>],
    link: Link,
    at: usize,
) -> Result<Option<CompoundRead>, NoMemory>
    requires inside { AreInside text.now tokens.now }
    requires table { IsTable text.now tokens.now ends.now }
    requires whole { length tokens.now ≤ length ends.now }
    requires within { at ≤ length tokens.now }
    ensures { IfOk result (IsCompoundRead text.now tokens.now link at) }
{
    match element(alloc, tokens, at)? {
        Some(element) => {
            let read = behind_element(alloc, text, tokens, ends, link, at, element)?;
            Ok(Some(read))
        }
        None => without_element(alloc, text, tokens, ends, link, at),
    }
}

/// The combinator and the compound at a place, if both stand there.
#[tactic(auto, using(crate::proofs::GrammarLemmas::no_combinator, crate::proofs::GrammarLemmas::after_combinator, crate::proofs::GrammarLemmas::no_after))]
fn further(
    alloc: Global,
    text: &str,
    tokens: &[CssToken],
    ends: &[Option<usize>],
    at: usize,
) -> Result<Option<CompoundRead>, NoMemory>
    requires inside { AreInside text.now tokens.now }
    requires table { IsTable text.now tokens.now ends.now }
    requires whole { length tokens.now ≤ length ends.now }
    requires within { at ≤ length tokens.now }
    ensures { IfOk result (IsFurtherRead text.now tokens.now at) }
{
    match combinator(tokens, at) {
        Some(read) => compound(alloc, text, tokens, ends, read.link, read.end),
        None => Ok(None),
    }
}

/// The selector at a place, if one stands there, as long as it goes.
#[tactic(auto, using(crate::proofs::GrammarLemmas::selector_begun, crate::proofs::GrammarLemmas::selector_push))]
fn selector(
    alloc: Global,
    text: &str,
    tokens: &[CssToken],
    ends: &[Option<usize>],
    from: usize,
) -> Result<Option<SelectorRead>, NoMemory>
    requires inside { AreInside text.now tokens.now }
    requires table { IsTable text.now tokens.now ends.now }
    requires whole { length tokens.now ≤ length ends.now }
    requires within { from ≤ length tokens.now }
    ensures { IfOk result (IsSelectorRead text.now tokens.now from) }
{
    let Some(first) = compound(alloc, text, tokens, ends, Link::First, from)? else {
        return Ok(None);
    };
    let mut compounds = Seq::new(alloc);
    compounds.push(first.compound)?;
    let mut at = first.end;
    loop {
        match further(alloc, text, tokens, ends, at)? {
            Some(read) => {
                compounds.push(read.compound)?;
                at = read.end;
            }
            None => {
                return Ok(Some(SelectorRead { compounds, end: at }));
            }
        }
    }
}

/// The list that the tokens are: `Syntax` where the grammar reads them as none.
#[tactic(auto, using(crate::proofs::ListLemmas::begun, crate::proofs::ListLemmas::went_on, crate::proofs::ListLemmas::finished, crate::proofs::ListLemmas::no_selector, crate::proofs::ListLemmas::no_comma))]
pub(crate) fn list(
    alloc: Global,
    text: &str,
    tokens: &[CssToken],
) -> Result<Seq<Seq<Compound>>, SelectorFault>
    requires { AreInside text.now tokens.now }
    ensures { IsListRead text.now tokens.now result }
{
    let ends = match choice_ends(alloc, text, tokens) {
        Ok(ends) => ends,
        Err(_) => return Err(SelectorFault::Memory),
    };
    let mut found = Seq::new(alloc);
    let mut at = skip(tokens, 0);
    loop {
        let read = match selector(alloc, text, tokens, ends.as_slice(), at) {
            Ok(Some(read)) => read,
            Ok(None) => return Err(SelectorFault::Syntax),
            Err(_) => return Err(SelectorFault::Memory),
        };
        let behind = skip(tokens, read.end);
        match found.push(read.compounds) {
            Ok(()) => {}
            Err(_) => return Err(SelectorFault::Memory),
        }
        if behind == tokens.len() {
            return Ok(found);
        }
        if !stands(tokens, behind, CssKind::Comma) {
            return Err(SelectorFault::Syntax);
        }
        at = skip(tokens, behind + 1);
    }
}
