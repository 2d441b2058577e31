//! The records of rows, within a limit on the bytes of their strings.
ghost use Rattle.std.specs.Prelude.{◌≡◌, ◌+◌, ◌<◌, ◌≤◌, length, All, IfOk, IsErrOf};
ghost use Rattle.doc_model.specs.RowLists.{AllBelow};
ghost use Rattle.test_registry.specs.View.{known};
ghost use Rattle.query_chain.specs.Tasks.{TaskAsks};
ghost use Rattle.page_records.specs.Records as spec;
ghost use Rattle.page_records.specs.Records.{record_at, record_bytes, all_bytes};

use crate::sizes::after_value;
use crate::stops::Stop;
use doc_model::Axes;
use query_chain::{Ready, run_ready_at};
use query_script::FieldValue;
use std::alloc::Global;
use test_registry::Tests;
use text_base::Seq;

/// The values of the fields from a row on, and what is left of so many bytes after their strings. It is Output where they have
/// more together.
fn run_record<S: Axes>(
    alloc: Global,
    source: &S,
    fields: &[Ready],
    row: u32,
    tests: &Tests,
    left: usize,
) -> Result<(Seq<FieldValue>, usize), Stop>
    requires row { row < length (S.document source.now) }
    requires asks { All (TaskAsks (known tests.now)) fields.now }
    ensures values { IfOk result (λ r. r.0 ≡ record_at (S.document source.now) fields.now row) }
    ensures rest { IfOk result (λ r. r.1 + record_bytes (record_at (S.document source.now) fields.now row) ≡ left) }
    ensures over { IsErrOf result Stop.Output → left < record_bytes (record_at (S.document source.now) fields.now row) }
{
    let mut values = Vec::new(alloc);
    let mut rest = left;
    for field in fields {
        let value = run_ready_at(alloc, source, field, row, tests)?;
        let Some(next) = after_value(&value, rest) else {
            return Err(Stop::Output);
        };
        values.push(value)?;
        rest = next;
    }
    Ok((Seq::from_vec(values), rest))
}

/// The records of rows, in order. It is Output where their strings have more than `most` bytes together; no more is made then.
pub fn run_records<S: Axes>(
    alloc: Global,
    source: &S,
    fields: &[Ready],
    rows: &[u32],
    tests: &Tests,
    most: usize,
) -> Result<Seq<Seq<FieldValue>>, Stop>
    requires rows { AllBelow (length (S.document source.now)) rows.now }
    requires asks { All (TaskAsks (known tests.now)) fields.now }
    ensures records { IfOk result (λ v. v ≡ spec.records (S.document source.now) fields.now rows.now) }
    ensures within { IfOk result (λ v. all_bytes v ≤ most) }
    ensures over { IsErrOf result Stop.Output → most < all_bytes (spec.records (S.document source.now) fields.now rows.now) }
{
    let mut records = Vec::new(alloc);
    let mut left = most;
    for row in rows {
        let (values, rest) = run_record(alloc, source, fields, *row, tests, left)?;
        records.push(values)?;
        left = rest;
    }
    Ok(Seq::from_vec(records))
}
