//! The lines of pages.
ghost use Rattle.std.specs.Prelude.{◌≡◌, ◌≢◌, ◌≤◌, length, IfOk, string_bytes};
ghost use Rattle.serde_json.specs.View.{view};
ghost use Rattle.serde_json.specs.Written.{compact_text};
ghost use Rattle.json_lines.specs.Reasons.{field_reason, page_reason};
ghost use Rattle.json_lines.specs.Pages.{texts_data, field_data, fields_data, page_data, page_text, refused_data, refused_text};

use query_script::{Field, FieldValue, Reason};
use serde_json::{Value, json};
use std::alloc::{AllocError, Global};
use text_base::{NoMemory, PageFault, PageReason, Seq, Txt};

/// The reason as it is printed.
fn page_reason(alloc: Global, reason: PageReason) -> Result<String, AllocError>
    ensures { IfOk result (λ s. string_bytes s ≡ page_reason reason) }
{
    let mut text = String::from_str(alloc, "page.")?;
    text.push_str(reason.word())?;
    Ok(text)
}

/// The object of a refused page.
fn refused_value(alloc: Global, name: &str, fault: PageFault) -> Result<Value, AllocError>
    ensures { IfOk result (λ v. view v ≡ refused_data name.now fault) }
{
    let reason = page_reason(alloc, fault.reason)?;
    json!(in alloc; {"at": fault.at, "page": name, "refused": reason.as_str()})
}

/// The line of a page that is refused, without the line feed: an object with the members `at`, the place in bytes, `page`, its
/// name, and `refused`, the reason.
pub fn refused_line(alloc: Global, name: &str, fault: PageFault) -> Result<String, NoMemory>
    requires { fault.reason ≢ PageReason.Memory }
    ensures text { IfOk result (λ s. string_bytes s ≡ refused_text name.now fault) }
    ensures value { IfOk result (λ s. string_bytes s ≡ compact_text (refused_data name.now fault)) }
{
    let Ok(value) = refused_value(alloc, name, fault) else {
        return Err(NoMemory);
    };
    match value.to_string(alloc) {
        Ok(line) => Ok(line),
        Err(_) => Err(NoMemory),
    }
}

/// The reason of a field as it is printed: a family, a point and the reason's own name.
pub fn field_reason(alloc: Global, reason: &Reason) -> Result<String, AllocError>
    ensures { IfOk result (λ s. string_bytes s ≡ field_reason reason.now) }
{
    let (family, word) = reason.words();
    let mut text = String::from_str(alloc, family)?;
    text.push_str(".")?;
    text.push_str(word)?;
    Ok(text)
}

/// The texts as an array of strings.
pub fn texts_value(alloc: Global, texts: &[Txt]) -> Result<Value, AllocError>
    ensures { IfOk result (λ v. view v ≡ texts_data texts.now) }
{
    let mut items = Vec::new(alloc);
    for text in texts {
        items.push(json!(in alloc; text.as_str())?)?;
    }
    Ok(Value::Array(items))
}

/// The object of a field with this name: the members `name` and `value`, which is a string, null or an array of strings, or
/// `name` and `refused`, the reason.
pub fn field_object(alloc: Global, name: &str, value: &FieldValue) -> Result<Value, AllocError>
    ensures { IfOk result (λ v. view v ≡ field_data name.now value.now) }
{
    match value {
        FieldValue::All(texts) => {
            let texts = texts_value(alloc, texts.as_slice())?;
            json!(in alloc; {"name": name, "value": texts})
        }
        FieldValue::One(None) => json!(in alloc; {"name": name, "value": null}),
        FieldValue::One(Some(text)) => json!(in alloc; {"name": name, "value": text.as_str()}),
        FieldValue::Refused(reason) => {
            let reason = field_reason(alloc, reason)?;
            json!(in alloc; {"name": name, "refused": reason.as_str()})
        }
    }
}

/// The objects of the fields as an array.
fn fields_value(alloc: Global, fields: &[Field], values: &[FieldValue]) -> Result<Value, AllocError>
    requires { length fields.now ≡ length values.now }
    ensures { IfOk result (λ v. view v ≡ fields_data fields.now values.now) }
{
    let mut items = Vec::new(alloc);
    for (i, field) in fields.iter().enumerate() {
        items.push(field_object(alloc, field.name.as_str(), &values[i])?)?;
    }
    Ok(Value::Array(items))
}

/// The object of a page.
fn page_value(
    alloc: Global,
    name: &str,
    fields: &[Field],
    values: &[FieldValue],
) -> Result<Value, AllocError>
    requires { length fields.now ≡ length values.now }
    ensures { IfOk result (λ v. view v ≡ page_data name.now fields.now values.now) }
{
    let fields = fields_value(alloc, fields, values)?;
    json!(in alloc; {"fields": fields, "page": name})
}

/// The line of a page, without the line feed: an object with the members `fields`, an object for each field, and `page`, the
/// page's name. A field has the members `name` and `value`, which is a string, null or an array of strings, or it has `name`
/// and `refused`, the reason.
pub fn page_line(
    alloc: Global,
    name: &str,
    fields: &Seq<Field>,
    values: &Seq<FieldValue>,
) -> Result<String, NoMemory>
    requires { length fields.now ≡ length values.now }
    ensures text { IfOk result (λ s. string_bytes s ≡ page_text name.now fields.now values.now) }
    ensures value { IfOk result (λ s. string_bytes s ≡ compact_text (page_data name.now fields.now values.now)) }
{
    let Ok(value) = page_value(alloc, name, fields.as_slice(), values.as_slice()) else {
        return Err(NoMemory);
    };
    match value.to_string(alloc) {
        Ok(line) => Ok(line),
        Err(_) => Err(NoMemory),
    }
}
