//! Whether a line holds a refusal.
ghost use Rattle.std.specs.Prelude.{◌≡◌};
ghost use Rattle.std.specs.List.{list_any};
ghost use Rattle.page_records.specs.Lines.{is_refused, holds_refusal};

use crate::script::EntryValue;
use query_script::FieldValue;
use text_base::Seq;

/// Whether the value is a refusal.
fn is_refused(value: &FieldValue) -> bool
    ensures { result ≡ is_refused value.now }
{
    match value {
        FieldValue::All(_) | FieldValue::One(_) => false,
        FieldValue::Refused(_) => true,
    }
}

/// Whether a member of the record is a refusal.
fn record_holds_refusal(values: &Seq<FieldValue>) -> bool
    ensures { result ≡ list_any is_refused values.now }
{
    values.as_slice().iter().any(is_refused)
}

/// Whether a member of one of the records is a refusal.
fn records_hold_refusal(records: &[Seq<FieldValue>]) -> bool
    ensures { result ≡ list_any (list_any is_refused) records.now }
{
    records.iter().any(record_holds_refusal)
}

/// Whether the value is a refusal, or a member of one of its records is one.
fn entry_holds_refusal(value: &EntryValue) -> bool
    ensures { result ≡ holds_refusal value.now }
{
    match value {
        EntryValue::Plain(value) => is_refused(value),
        EntryValue::Each(records) => records_hold_refusal(records.as_slice()),
        EntryValue::Refused(_) => true,
    }
}

/// Whether a line of these values holds a refusal: one of them is a refusal, or a member of one of
/// its records is one.
pub fn holds_refusal(values: &Seq<EntryValue>) -> bool
    ensures { result ≡ list_any holds_refusal values.now }
{
    values.as_slice().iter().any(entry_holds_refusal)
}
