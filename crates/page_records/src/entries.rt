//! An entry that is ready to run.
ghost use Rattle.std.specs.Prelude.{All, IfOk};
ghost use Rattle.std.specs.List.{AllByRecursion};
ghost use Rattle.test_registry.specs.View.{known};
ghost use Rattle.query_script.specs.Ordered.{IsOrderedOver, KeepsStored};
ghost use Rattle.query_chain.specs.Tasks.{TaskAsks};
ghost use Rattle.page_records.specs.Ordered.{IsRowQuery, IsOrderedEntry, IsStoredEntry};
ghost use Rattle.page_records.specs.Records.{AreTasks, IsBlockTask, IsEntryTask, EntryAsks};

use crate::script::{Block, Entry};
use query_chain::{Ready, ReadyRows, prepare_rows, prepare_with};
use query_script::{Field, Reason};
use std::alloc::Global;
use std::marker::Model;
use test_registry::Tests;
use text_base::NoMemory;

/// What is left to do of an entry.
#[derive(Drop)]
pub(crate) enum ReadyKind {
    /// A field.
    Plain(Ready),
    /// Nothing: the block is refused.
    Refused(Reason),
    /// The queries of the rows, and for each row the fields of its record.
    Each(ReadyRows, Vec<Ready>),
}

/// An entry whose queries are read and whose patterns are built: contracts see what it has to do.
#[derive(Drop)]
pub struct ReadyEntry {
    pub(crate) kind: ReadyKind,
}

impl Model for ReadyEntry {
    ghost use Rattle.page_records.specs.Records.{EntryTask};

    ghost Value = { EntryTask };

    ghost use Rattle.std.specs.Coded.{codes};
    ghost use Rattle.test_registry.specs.contracts.kinds.TestKind as k;
    ghost use Rattle.xpath_parser.specs.contracts.expression.Expr as e;

    ghost coded = { Prim.hlevel (codes, e.the_row.coded) };

    ghost use Rattle.page_records.specs.inner.Readiness.{entry_task};

    ghost view = { λ r. entry_task r.kind };
}

/// Each field, prepared once for all rows.
fn prepare_fields(alloc: Global, fields: &[Field], tests: &Tests) -> Result<Vec<Ready>, NoMemory>
    requires ordered { AllByRecursion (IsOrderedOver (known tests.now)) fields.now }
    requires stored { AllByRecursion (KeepsStored (known tests.now)) fields.now }
    ensures tasks { IfOk result (λ v. AreTasks (known tests.now) fields.now v.items) }
    ensures asks { IfOk result (λ v. All (TaskAsks (known tests.now)) v.items) }
{
    let mut ready = Vec::new(alloc);
    for field in fields {
        ready.push(prepare_with(alloc, field, tests)?)?;
    }
    Ok(ready)
}

/// The steps of a block and the fields of its body, or its reason.
fn prepare_block(alloc: Global, block: &Block, tests: &Tests) -> Result<ReadyEntry, NoMemory>
    requires steps { AllByRecursion (IsRowQuery (known tests.now)) block.now.steps }
    requires ordered { AllByRecursion (IsOrderedOver (known tests.now)) block.now.fields }
    requires stored { AllByRecursion (KeepsStored (known tests.now)) block.now.fields }
    ensures task { IfOk result (IsBlockTask (known tests.now) block.now block.now.refused) }
    ensures asks { IfOk result (EntryAsks (known tests.now)) }
{
    if let Some(reason) = block.refused {
        return Ok(ReadyEntry {
            kind: ReadyKind::Refused(reason),
        });
    }
    let rows = prepare_rows(alloc, block.steps.as_slice(), tests)?;
    let fields = prepare_fields(alloc, block.fields.as_slice(), tests)?;
    Ok(ReadyEntry {
        kind: ReadyKind::Each(rows, fields),
    })
}

/// Reads the queries of an entry over the stored tests and builds its patterns, once for all the
/// rows and documents on which it is to run. It asks only tests that are stored. The only error is
/// want of memory, and a pattern that takes more of it than `regex` allows is one such.
pub fn prepare_entry(alloc: Global, entry: &Entry, tests: &Tests) -> Result<ReadyEntry, NoMemory>
    requires ordered { IsOrderedEntry (known tests.now) entry.now }
    requires stored { IsStoredEntry (known tests.now) entry.now }
    ensures task { IfOk result (IsEntryTask (known tests.now) entry.now) }
    ensures asks { IfOk result (EntryAsks (known tests.now)) }
{
    match entry {
        Entry::Plain(field) => Ok(ReadyEntry {
            kind: ReadyKind::Plain(prepare_with(alloc, field, tests)?),
        }),
        Entry::Each(block) => prepare_block(alloc, block, tests),
    }
}
