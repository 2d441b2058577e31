//! Fields.
ghost use Rattle.std.specs.Prelude.{map, IfOk};
ghost use Rattle.std.specs.List.{AllByRecursion};
ghost use Rattle.test_registry.specs.View.{known};
ghost use Rattle.query_script.specs.Fields.{IsChain, IsFieldOver, AreFields};
ghost use Rattle.query_script.specs.Ordered.{IsOrderedOver, IsOrderedChainOver, KeepsStored, IsStoredChain};

use crate::chains::read_chain;
use crate::names::name_and_rest;
use crate::queries::chain_of;
use crate::script::{Chain, Field, Reason};
use css_selectors::Dialect;
use std::alloc::Global;
use test_registry::Tests;
use text_base::{NoMemory, Txt};

/// What stands after the colon of a field.
#[tactic(auto, using(crate::proofs::FieldLemmas::chain_none, crate::proofs::FieldLemmas::chain_some))]
fn chain(alloc: Global, dialect: Dialect, text: &str, tests: &Tests) -> Result<Chain, NoMemory>
    ensures is { IfOk result (IsChain (known tests.now) dialect text.now) }
    ensures ordered { IfOk result (IsOrderedChainOver (known tests.now)) }
    ensures stored { IfOk result (IsStoredChain (known tests.now)) }
{
    match read_chain(alloc, text)? {
        None => Ok(Chain::Refused(Reason::Chain)),
        Some(written) => chain_of(
            alloc,
            dialect,
            written.steps.as_slice(),
            written.take,
            tests,
        ),
    }
}

/// The field that a piece of a script is where these tests are stored, with its steps or its
/// reason.
///
/// A piece is what stands between two ends of fields, `;` or a line feed outside quotes. Each query
/// of the field reads as an expression and stands where nodes come to it, and a test of each kind
/// that the field keeps items by is stored.
#[tactic(auto, using(crate::proofs::FieldLemmas::named, crate::proofs::FieldLemmas::unnamed))]
pub fn parse_field_with(
    alloc: Global,
    dialect: Dialect,
    piece: &str,
    tests: &Tests,
) -> Result<Field, NoMemory>
    ensures is { IfOk result (IsFieldOver (known tests.now) dialect piece.now) }
    ensures ordered { IfOk result (IsOrderedOver (known tests.now)) }
    ensures stored { IfOk result (KeepsStored (known tests.now)) }
{
    match name_and_rest(piece) {
        None => Ok(Field {
            name: Txt::of(alloc, "")?,
            chain: Chain::Refused(Reason::Name),
        }),
        Some((name, rest)) => Ok(Field {
            name: Txt::of(alloc, name)?,
            chain: chain(alloc, dialect, rest, tests)?,
        }),
    }
}

/// The fields that the pieces are where these tests are stored, in their order, each as
/// `parse_field_with` reads it.
pub fn parse_fields_with(
    alloc: Global,
    dialect: Dialect,
    pieces: &[&str],
    tests: &Tests,
) -> Result<Vec<Field>, NoMemory>
    ensures are { IfOk result (λ v. AreFields (known tests.now) dialect (map (λ p. p.now) pieces.now) v.items) }
    ensures ordered { IfOk result (λ v. AllByRecursion (IsOrderedOver (known tests.now)) v.items) }
    ensures stored { IfOk result (λ v. AllByRecursion (KeepsStored (known tests.now)) v.items) }
{
    let mut all = Vec::new(alloc);
    for piece in pieces {
        all.push(parse_field_with(alloc, dialect, piece, tests)?)?;
    }
    Ok(all)
}
