//! Look-ups in lists of rows that stand in document order.
ghost use Rattle.std.specs.Prelude.{◌≡◌, ◌<◌, ◌≤◌, ◌+◌, ◌-◌, ◌*◌, ◌^◌, length, slice_get};
ghost use Rattle.step_index.specs.inner.Tables.{Before};

use crate::steps::Steps;
use std::marker::Brand;
use std::sync::ledger::{Blank, Ledger};

/// What stands at a place of the list.
#[tactic(auto, using(crate::proofs::Places::none_past))]
fn at(rows: &[u32], k: usize) -> Option<u32>
    ensures { result ≡ slice_get rows.now k }
{
    if k < rows.len() { Some(rows[k]) } else { None }
}

/// What stands at a place of the list. This is one step.
pub(crate) fn looked_up<L: Ledger>(list: &[u32], k: u32, steps: &mut Steps<L>) -> Option<u32>
    ensures row { result ≡ slice_get list.now k }
    ensures one { steps.new ≡ steps.old + 1 }
{
    steps.tick();
    at(list, k as usize)
}

/// The row at place `k`, from 0, of the list's rows before row `end`.
pub(crate) fn row_before<L: Ledger>(
    list: &[u32],
    end: u32,
    k: u32,
    steps: &mut Steps<L>,
) -> Option<u32>
    ensures row { Before list.now end (λ rows. result ≡ slice_get rows k) }
    ensures one { steps.new ≡ steps.old + 1 }
{
    match looked_up(list, k, steps) {
        Some(y) => { if y < end { Some(y) } else { None } }
        None => None,
    }
}

/// How many of the list's rows stand before row `end`, by halving.
pub(crate) fn count_before<L: Ledger>(list: &[u32], end: u32, steps: &mut Steps<L>) -> u32
    ensures count { Before list.now end (λ rows. result ≡ length rows) }
    ensures rose { steps.old ≤ steps.new }
    ensures cost { 2 ^ (steps.new - steps.old) ≤ 2 * end + 1 }
{
    let mut low = 0;
    let mut high = end;
    while low < high {
        let middle = low + (high - low) / 2;
        match row_before(list, end, middle, steps) {
            Some(_) => low = middle + 1,
            None => high = middle,
        }
    }
    low
}

/// The same, with a counter over the blank ledger.
fn count_by<L: Ledger>(list: &[u32], end: u32, blank: Blank) -> u32
    requires name { blank.name ≡ L.name }
    requires parts { blank.parts ≡ L.parts }
    requires some { 0 < L.parts }
    ensures { Before list.now end (λ rows. result ≡ length rows) }
{
    let mut steps = Steps::<L>::new(blank);
    count_before(list, end, &mut steps)
}

/// The same, for a caller that counts no steps.
pub(crate) fn number_before(list: &[u32], end: u32) -> u32
    ensures { Before list.now end (λ rows. result ≡ length rows) }
{
    count_by::<Brand>(list, end, Blank::new(1))
}
