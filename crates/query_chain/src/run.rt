//! The value of a field.
ghost use Rattle.std.specs.Prelude.{◌≡◌, ◌<◌, [], length, IfOk};
ghost use Rattle.test_registry.specs.View.{known};
ghost use Rattle.query_script.specs.Ordered.{IsOrdered, IsOrderedOver, KeepsStored};
ghost use Rattle.query_chain.specs.Chains.{IsValue, IsValueOver, IsValueAtOver, outcome};
ghost use Rattle.query_chain.specs.Tasks.{TaskAsks};

use crate::limits::{Limits, Stop};
use crate::ready::{Ready, ReadyChain, prepare_with};
use crate::steps::run_steps;
use doc_model::Axes;
use query_script::{Field, FieldValue, Reason};
use std::alloc::Global;
use test_registry::Tests;
use text_base::NoMemory;

/// The most items that a step may give.
const MOST_ITEMS: usize = 1_000_000;

/// The most bytes that texts may have together.
const MOST_TEXT: usize = 8_388_608;

/// The limits of each chain.
pub const FIELD_LIMITS: Limits = Limits {
    items: MOST_ITEMS,
    bytes: MOST_TEXT,
};

/// The value of a ready field on a document, from a row on. The stored tests that the field asks are there, as they are where
/// it was prepared over the same.
///
/// It is a function of what the field has to do, of the document and of the row, so one that was prepared once serves for all
/// rows and documents. It is the value there of each field for which this is ready.
pub fn run_ready_at<S: Axes>(
    alloc: Global,
    source: &S,
    ready: &Ready,
    node: u32,
    tests: &Tests,
) -> Result<FieldValue, NoMemory>
    requires row { node < length (S.document source.now) }
    requires asks { TaskAsks (known tests.now) ready.now }
    ensures { IfOk result (λ v. v ≡ outcome (S.document source.now) node ready.now) }
{
    match &ready.chain {
        ReadyChain::Refused(reason) => Ok(FieldValue::Refused(*reason)),
        ReadyChain::Steps(steps, end) => match run_steps(
            alloc,
            source,
            steps.as_slice(),
            *end,
            node,
            tests,
            FIELD_LIMITS,
        ) {
            Ok(value) => Ok(value),
            Err(Stop::Selection) => Ok(FieldValue::Refused(Reason::Selection)),
            Err(Stop::Output) => Ok(FieldValue::Refused(Reason::Output)),
            Err(Stop::Memory) => Err(NoMemory),
        },
    }
}

/// The value of a field on a document where tests are stored, with a chain that starts with the row `node` in place of the root
/// node.
///
/// It is the field's own reason, if it has one; `Pattern` where a step searches for what is no
/// pattern, which is looked at before any step runs; `Selection` or `Output` for the first limit
/// that a step or the end passes; and else the texts of the last items, or of the first of them.
/// At most 1,000,000 items come from a step, and the texts that a step searches or tests, those that
/// it gives and those of the value have at most 8,388,608 bytes together. The time is in proportion to
/// what the steps visit and write up to the first limit.
pub fn run_field_at<S: Axes>(
    alloc: Global,
    source: &S,
    field: &Field,
    node: u32,
    tests: &Tests,
) -> Result<FieldValue, NoMemory>
    requires ordered { IsOrderedOver (known tests.now) field.now }
    requires stored { KeepsStored (known tests.now) field.now }
    requires row { node < length (S.document source.now) }
    ensures { IfOk result (λ v. IsValueAtOver (known tests.now) (S.document source.now) node field.now v) }
{
    let ready = prepare_with(alloc, field, tests)?;
    run_ready_at(alloc, source, &ready, node, tests)
}

/// The value of a field on a document where tests are stored, from the root node on.
pub fn run_field_with<S: Axes>(
    alloc: Global,
    source: &S,
    field: &Field,
    tests: &Tests,
) -> Result<FieldValue, NoMemory>
    requires ordered { IsOrderedOver (known tests.now) field.now }
    requires stored { KeepsStored (known tests.now) field.now }
    ensures { IfOk result (λ v. IsValueOver (known tests.now) (S.document source.now) field.now v) }
{
    run_field_at(alloc, source, field, 0, tests)
}

/// The same where no tests are stored.
pub fn run_field<S: Axes>(alloc: Global, source: &S, field: &Field) -> Result<FieldValue, NoMemory>
    requires ordered { IsOrdered field.now }
    requires stored { KeepsStored [] field.now }
    ensures { IfOk result (λ v. IsValue (S.document source.now) field.now v) }
{
    run_field_with(alloc, source, field, &Tests::new(alloc))
}
