//! Entries that run on a document.
ghost use Rattle.std.specs.Prelude.{◌≡◌, All, IfOk};
ghost use Rattle.test_registry.specs.View.{known};
ghost use Rattle.page_records.specs.Ordered.{IsOrderedEntry, IsStoredEntry};
ghost use Rattle.query_chain.specs.Tasks.{ActionAsks, TaskAsks};
ghost use Rattle.page_records.specs.Records.{EntryAsks, records_value, entry_outcome, IsEntryValue};

use crate::entries::{ReadyEntry, ReadyKind, prepare_entry};
use crate::records::run_records;
use crate::script::{Entry, EntryValue};
use crate::stops::Stop;
use doc_model::Axes;
use query_chain::{Ready, ReadyRows, run_ready_at, run_rows};
use query_script::Reason;
use std::alloc::Global;
use test_registry::Tests;
use text_base::NoMemory;

/// The most rows of a block.
const MOST_ROWS: usize = 10_000;

/// The most bytes that the strings of its records may have together.
const MOST_TEXT: usize = 8_388_608;

/// The value of a block on a document.
fn run_block<S: Axes>(
    alloc: Global,
    source: &S,
    queries: &ReadyRows,
    fields: &[Ready],
    tests: &Tests,
) -> Result<EntryValue, NoMemory>
    requires steps { All (ActionAsks (known tests.now)) queries.now }
    requires fields { All (TaskAsks (known tests.now)) fields.now }
    ensures { IfOk result (λ v. v ≡ records_value (S.document source.now) queries.now fields.now) }
{
    let Some(rows) = run_rows(alloc, source, queries, tests, MOST_ROWS)? else {
        return Ok(EntryValue::Refused(Reason::Selection));
    };
    match run_records(alloc, source, fields, rows.as_slice(), tests, MOST_TEXT) {
        Ok(records) => Ok(EntryValue::Each(records)),
        Err(Stop::Output) => Ok(EntryValue::Refused(Reason::Output)),
        Err(Stop::Memory) => Err(NoMemory),
    }
}

/// The value on a document of an entry that is ready.
pub fn run_ready_entry<S: Axes>(
    alloc: Global,
    source: &S,
    ready: &ReadyEntry,
    tests: &Tests,
) -> Result<EntryValue, NoMemory>
    requires asks { EntryAsks (known tests.now) ready.now }
    ensures { IfOk result (λ v. v ≡ entry_outcome (S.document source.now) ready.now) }
{
    match &ready.kind {
        ReadyKind::Plain(field) => {
            let value = run_ready_at(alloc, source, field, 0, tests)?;
            Ok(EntryValue::Plain(value))
        }
        ReadyKind::Refused(reason) => Ok(EntryValue::Refused(*reason)),
        ReadyKind::Each(queries, fields) => {
            run_block(alloc, source, queries, fields.as_slice(), tests)
        }
    }
}

/// The value of an entry on a document where tests are stored.
///
/// A field has the value that its chain has from the root node on. A block has a record for each
/// row that its steps give from the root node on, in their order, with the value of each field of
/// its body, whose chain starts with that row. A block that is refused has its own reason; another one
/// `Selection` where a step gives more than 1,000,000 items or the last one more than 10,000, and
/// else `Output` where the strings of all records have more than 8,388,608 bytes together.
pub fn run_entry<S: Axes>(
    alloc: Global,
    source: &S,
    entry: &Entry,
    tests: &Tests,
) -> Result<EntryValue, NoMemory>
    requires ordered { IsOrderedEntry (known tests.now) entry.now }
    requires stored { IsStoredEntry (known tests.now) entry.now }
    ensures { IfOk result (IsEntryValue (known tests.now) (S.document source.now) entry.now) }
{
    let ready = prepare_entry(alloc, entry, tests)?;
    run_ready_entry(alloc, source, &ready, tests)
}
