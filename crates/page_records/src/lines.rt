//! The lines of pages by the entries of a script.
ghost use Rattle.std.specs.Prelude.{◌≡◌, IfOk, string_bytes};
ghost use Rattle.std.specs.List.{AllByRecursion, IsDistinct};
ghost use Rattle.std.specs.Str.{bytes_eq};
ghost use Rattle.serde_json.specs.View.{view};
ghost use Rattle.serde_json.specs.Written.{compact_text};
ghost use Rattle.page_records.specs.Lines.{HasForm, HaveForms, HasNames, IsRecordOf, names, member_data, record_data, records_data, block_data, entry_data, entries_data, line_data, line_text};

use crate::script::{Block, Entry, EntryValue};
use json_lines::{field_object, field_reason, texts_value};
use query_script::{Field, FieldValue};
use serde_json::{Map, Value, json};
use std::alloc::{AllocError, Global};
use text_base::{NoMemory, Seq};

/// The value of a member of a record: an array of strings, null, a string or an object with the reason.
fn member_value(alloc: Global, value: &FieldValue) -> Result<Value, AllocError>
    ensures { IfOk result (λ v. view v ≡ member_data value.now) }
{
    match value {
        FieldValue::All(texts) => texts_value(alloc, texts.as_slice()),
        FieldValue::One(None) => Ok(Value::Null),
        FieldValue::One(Some(text)) => json!(in alloc; text.as_str()),
        FieldValue::Refused(reason) => {
            let reason = field_reason(alloc, reason)?;
            json!(in alloc; {"refused": reason.as_str()})
        }
    }
}

/// The object of a record.
fn record_object(
    alloc: Global,
    fields: &[Field],
    values: &[FieldValue],
) -> Result<Value, AllocError>
    requires count { IsRecordOf fields.now values.now }
    requires differ { IsDistinct bytes_eq (names fields.now) }
    ensures { IfOk result (λ v. view v ≡ record_data fields.now values.now) }
{
    let mut members = Map::new(alloc);
    for (i, field) in fields.iter().enumerate() {
        let name = String::from_str(alloc, field.name.as_str())?;
        let value = member_value(alloc, &values[i])?;
        drop(members.insert(name, value)?);
    }
    Ok(Value::Object(members))
}

/// The objects of the records as an array.
fn records_array(
    alloc: Global,
    fields: &[Field],
    records: &[Seq<FieldValue>],
) -> Result<Value, AllocError>
    requires counts { AllByRecursion (IsRecordOf fields.now) records.now }
    requires differ { IsDistinct bytes_eq (names fields.now) }
    ensures { IfOk result (λ v. view v ≡ records_data fields.now records.now) }
{
    let mut items = Vec::new(alloc);
    for record in records {
        items.push(record_object(alloc, fields, record.as_slice())?)?;
    }
    Ok(Value::Array(items))
}

/// The object of a block.
fn block_object(
    alloc: Global,
    block: &Block,
    records: &[Seq<FieldValue>],
) -> Result<Value, AllocError>
    requires counts { AllByRecursion (IsRecordOf block.now.fields) records.now }
    requires differ { IsDistinct bytes_eq (names block.now.fields) }
    ensures { IfOk result (λ v. view v ≡ block_data block.now records.now) }
{
    let records = records_array(alloc, block.fields.as_slice(), records)?;
    json!(in alloc; {"name": block.name.as_str(), "value": records})
}

/// The object of an entry.
fn entry_object(alloc: Global, entry: &Entry, value: &EntryValue) -> Result<Value, AllocError>
    requires form { HasForm entry.now value.now }
    requires names { HasNames entry.now }
    ensures { IfOk result (λ v. view v ≡ entry_data entry.now value.now) }
{
    match (entry, value) {
        (Entry::Plain(field), EntryValue::Plain(value)) => {
            field_object(alloc, field.name.as_str(), value)
        }
        (Entry::Plain(field), EntryValue::Refused(reason)) => {
            field_object(alloc, field.name.as_str(), &FieldValue::Refused(*reason))
        }
        (Entry::Each(block), EntryValue::Each(records)) => {
            block_object(alloc, block, records.as_slice())
        }
        (Entry::Each(block), EntryValue::Refused(reason)) => {
            field_object(alloc, block.name.as_str(), &FieldValue::Refused(*reason))
        }
        _ => Ok(Value::Null),
    }
}

/// The objects of the entries as an array.
fn entries_array(
    alloc: Global,
    entries: &[Entry],
    values: &[EntryValue],
) -> Result<Value, AllocError>
    requires forms { HaveForms entries.now values.now }
    requires names { AllByRecursion HasNames entries.now }
    ensures { IfOk result (λ v. view v ≡ entries_data entries.now values.now) }
{
    let mut items = Vec::new(alloc);
    for (i, entry) in entries.iter().enumerate() {
        items.push(entry_object(alloc, entry, &values[i])?)?;
    }
    Ok(Value::Array(items))
}

/// The object of a page.
fn line_object(
    alloc: Global,
    name: &str,
    entries: &[Entry],
    values: &[EntryValue],
) -> Result<Value, AllocError>
    requires forms { HaveForms entries.now values.now }
    requires names { AllByRecursion HasNames entries.now }
    ensures { IfOk result (λ v. view v ≡ line_data name.now entries.now values.now) }
{
    let entries = entries_array(alloc, entries, values)?;
    json!(in alloc; {"fields": entries, "page": name})
}

/// The line of a page, without the line feed: an object with the members `fields`, an object for
/// each entry, and `page`, the page's name.
///
/// A field has the members `name` and `value`, which is a string, null or an array of strings, or it
/// has `name` and `refused`, the reason. A block has `name` and `value`, an array with an object for
/// each record, or it is written as a refused field. The members of a record are the names of the
/// body's fields, in the order of the names' bytes, with a string, null, an array of strings or an
/// object with the member `refused`.
pub fn record_line(
    alloc: Global,
    name: &str,
    entries: &Seq<Entry>,
    values: &Seq<EntryValue>,
) -> Result<String, NoMemory>
    requires forms { HaveForms entries.now values.now }
    requires names { AllByRecursion HasNames entries.now }
    ensures text { IfOk result (λ s. string_bytes s ≡ line_text name.now entries.now values.now) }
    ensures value { IfOk result (λ s. string_bytes s ≡ compact_text (line_data name.now entries.now values.now)) }
{
    let Ok(value) = line_object(alloc, name, entries.as_slice(), values.as_slice()) else {
        return Err(NoMemory);
    };
    match value.to_string(alloc) {
        Ok(line) => Ok(line),
        Err(_) => Err(NoMemory),
    }
}
