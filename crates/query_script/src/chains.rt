//! The steps and the end of a field.
ghost use Rattle.std.specs.Prelude.{◌≡◌, map, option_map, IfOk};
ghost use Rattle.query_script.specs.Cuts.{trimmed};
ghost use Rattle.query_script.specs.Steps.{IsCut};
ghost use Rattle.query_script.specs.inner.Reader.{read_end, read_steps, read_chain, chain_of};

use crate::cuts::{Cut, pieces, trimmed};
use crate::script::Take;
use crate::steps::{RawStep, read_step};
use std::alloc::Global;
use text_base::{NoMemory, Seq};

/// Steps and an end, as they are written.
#[derive(Drop)]
pub(crate) struct ChainText {
    pub(crate) steps: Vec<RawStep>,
    pub(crate) take: Take,
}

fn read_end(part: &str) -> Option<Take>
    ensures { result ≡ read_end part.now }
{
    if part == "get()" {
        return Some(Take::First);
    }
    if part == "getall()" {
        return Some(Take::All);
    }
    None
}

/// The steps that the parts are, where each is one.
fn read_steps(alloc: Global, parts: &[&str]) -> Result<Option<Vec<RawStep>>, NoMemory>
    ensures { IfOk result (λ found. option_map (λ v. v.items) found ≡ read_steps (map trimmed (map (λ p. p.now) parts.now))) }
{
    let mut steps = Vec::new(alloc);
    for part in parts {
        match read_step(alloc, trimmed(part))? {
            None => return Ok(None),
            Some(step) => steps.push(step)?,
        }
    }
    Ok(Some(steps))
}

/// The steps and the end that a text is, where it is such.
pub(crate) fn read_chain(alloc: Global, text: &str) -> Result<Option<ChainText>, NoMemory>
    ensures { IfOk result (λ found. option_map chain_of found ≡ read_chain text.now) }
{
    let parts = pieces(alloc, text, Cut::Points)?;
    let Some((last, front)) = parts.as_slice().split_last() else {
        return Ok(None);
    };
    if front.is_empty() {
        return Ok(None);
    }
    let Some(steps) = read_steps(alloc, front)? else {
        return Ok(None);
    };
    match read_end(trimmed(last)) {
        None => Ok(None),
        Some(take) => Ok(Some(ChainText { steps, take })),
    }
}

/// The steps that a text is, in its order, with what their strings stand for; none where it is not
/// one step or more, joined by points. Spaces, tabs and carriage returns may stand before, between
/// and after the steps and the points, and between the parts of a `keep` step.
#[tactic(auto, using(crate::proofs::ChainLemmas::cut_some, crate::proofs::ChainLemmas::cut_none))]
pub fn cut_steps(alloc: Global, text: &str) -> Result<Option<Seq<RawStep>>, NoMemory>
    ensures { IfOk result (IsCut text.now) }
{
    let parts = pieces(alloc, text, Cut::Points)?;
    match read_steps(alloc, parts.as_slice())? {
        None => Ok(None),
        Some(steps) => Ok(Some(Seq::from_vec(steps))),
    }
}
