//! The rows that queries give, one after the other.
ghost use Rattle.std.specs.Prelude.{◌≡◌, ◌<◌, map, length, nat_lt, if◌then◌else◌, Some, None, All, IfOk, IfSome};
ghost use Rattle.std.specs.List.{AllByRecursion};
ghost use Rattle.doc_model.specs.Document.{Document};
ghost use Rattle.doc_model.specs.RowLists.{AllBelow};
ghost use Rattle.test_registry.specs.View.{known};
ghost use Rattle.query_chain.specs.Chains.{field_limits};
ghost use Rattle.query_chain.specs.Rows.{IsRowQuery, rows_in, rows_given};
ghost use Rattle.query_chain.specs.Tasks.{AreActions, ActionAsks};
ghost use Rattle.query_chain.specs.inner.RowSteps.{IsRowStep};
ghost use Rattle.query_chain.specs.inner.Steps.{items_of, AreIn, action_of};

use crate::items::Items;
use crate::limits::{Limits, Stop};
use crate::ready_steps::{ReadyStep, prepare_all};
use crate::run::FIELD_LIMITS;
use crate::steps::give_all;
use doc_model::Axes;
use query_script::ChainStep;
use std::alloc::Global;
use std::marker::Model;
use test_registry::Tests;
use text_base::{NoMemory, Seq};

/// Queries that are read, of each of which rows come: contracts see what they do.
#[derive(Drop)]
pub struct ReadyRows {
    steps: Vec<ReadyStep>,
}

impl Model for ReadyRows {
    ghost use Rattle.std.specs.Prelude.{List, map, All};
    ghost use Rattle.query_chain.specs.Tasks.{Action};

    ghost Value = { List Action };

    ghost use Rattle.std.specs.Coded.{codes};
    ghost use Rattle.test_registry.specs.contracts.kinds.TestKind as k;
    ghost use Rattle.xpath_parser.specs.contracts.expression.Expr as e;

    ghost coded = { Prim.hlevel (codes, e.the_row.coded) };

    ghost use Rattle.query_chain.specs.inner.Steps.{action_of};
    ghost use Rattle.query_chain.specs.inner.RowSteps.{IsRowStep};

    ghost view = { λ r. map action_of r.steps.items };

    ghost invariant = { λ r. All IsRowStep r.steps.items };
}

/// Reads queries over the stored tests, once for all the documents on which they are to run. They ask only tests that are
/// stored. The only error is want of memory.
pub fn prepare_rows(
    alloc: Global,
    steps: &[ChainStep],
    tests: &Tests,
) -> Result<ReadyRows, NoMemory>
    requires { AllByRecursion (IsRowQuery (known tests.now)) steps.now }
    ensures does { IfOk result (AreActions (known tests.now) steps.now) }
    ensures asks { IfOk result (All (ActionAsks (known tests.now))) }
{
    match prepare_all(alloc, steps, tests) {
        Ok(ready) => Ok(ReadyRows { steps: ready }),
        Err(_) => Err(NoMemory),
    }
}

/// How many items there are.
fn count(items: &Items) -> usize
    ensures { result ≡ length (items_of items.now) }
{
    match items {
        Items::Rows(rows) => rows.len(),
        Items::Texts(texts) => texts.len(),
    }
}

/// The rows among the items.
fn rows_of(alloc: Global, items: Items) -> Seq<u32>
    ensures rows { result ≡ rows_in (items_of items) }
    ensures below { (doc : Document) → AreIn doc items → AllBelow (length doc) result }
{
    match items {
        Items::Rows(rows) => Seq::from_vec(rows),
        Items::Texts(_) => Seq::from_vec(Vec::new(alloc)),
    }
}

/// The rows among the items; none where there are more items than `most`.
fn few_rows(alloc: Global, items: Items, most: usize) -> Option<Seq<u32>>
    ensures rows { result ≡ (if nat_lt most (length (items_of items)) then None else Some (rows_in (items_of items))) }
    ensures below { (doc : Document) → AreIn doc items → IfSome result (AllBelow (length doc)) }
{
    if count(&items) > most {
        return None;
    }
    Some(rows_of(alloc, items))
}

/// The rows that steps give from the root node on, within these limits.
fn walk<S: Axes>(
    alloc: Global,
    source: &S,
    steps: &[ReadyStep],
    tests: &Tests,
    most: usize,
    limits: Limits,
) -> Result<Option<Seq<u32>>, NoMemory>
    requires rows { All IsRowStep steps.now }
    requires asks { All (ActionAsks (known tests.now)) (map action_of steps.now) }
    requires some { 0 < limits.items }
    ensures rows { IfOk result (λ v. v ≡ rows_given limits (S.document source.now) most (map action_of steps.now)) }
    ensures below { IfOk result (λ v. IfSome v (AllBelow (length (S.document source.now)))) }
{
    match give_all(alloc, source, steps, 0, tests, limits) {
        Ok(items) => Ok(few_rows(alloc, items, most)),
        Err(Stop::Selection) => Ok(None),
        // Queries that give rows give no texts, so there are no bytes of them.
        Err(Stop::Output) => unreachable!(),
        Err(Stop::Memory) => Err(NoMemory),
    }
}

/// The rows of a document that ready queries give from the root node on, in order and with their repeats. The stored tests that
/// they ask are there, as they are where they were prepared over the same.
///
/// It is None exactly where a step gives more than 1,000,000 items or the last one more than `most`.
pub fn run_rows<S: Axes>(
    alloc: Global,
    source: &S,
    ready: &ReadyRows,
    tests: &Tests,
    most: usize,
) -> Result<Option<Seq<u32>>, NoMemory>
    requires asks { All (ActionAsks (known tests.now)) ready.now }
    ensures rows { IfOk result (λ v. v ≡ rows_given field_limits (S.document source.now) most ready.now) }
    ensures below { IfOk result (λ v. IfSome v (AllBelow (length (S.document source.now)))) }
{
    walk(
        alloc,
        source,
        ready.steps.as_slice(),
        tests,
        most,
        FIELD_LIMITS,
    )
}
