//! The line of a selector list, and the line of a refusal without a place.
ghost use Rattle.std.specs.Prelude.{◌≡◌, IfOk, string_bytes};
ghost use Rattle.std.specs.List.{AllByRecursion};
ghost use Rattle.serde_json.specs.View.{view};
ghost use Rattle.serde_json.specs.Written.{compact_text};
ghost use Rattle.json_lines.specs.Lines.{css_data, css_text, triple_data, reason_data, reason_text, triples_data, IsSmall};

use css_selectors::{Selector, SelectorList, Triple, specificity};
use serde_json::{Value, json};
use std::alloc::{AllocError, Global};
use text_base::NoMemory;

/// The three numbers as an array.
fn triple_value(alloc: Global, triple: Triple) -> Result<Value, AllocError>
    ensures { IfOk result (λ v. view v ≡ triple_data triple) }
{
    json!(in alloc; [triple.a, triple.b, triple.c])
}

/// The object of a refusal.
fn reason_value(alloc: Global, reason: &str) -> Result<Value, AllocError>
    ensures { IfOk result (λ v. view v ≡ reason_data reason.now) }
{
    json!(in alloc; {"refused": reason})
}

/// The line of a refusal, without the line feed: an object with the member `refused`.
pub fn reason_line(alloc: Global, reason: &str) -> Result<String, NoMemory>
    ensures text { IfOk result (λ s. string_bytes s ≡ reason_text reason.now) }
    ensures value { IfOk result (λ s. string_bytes s ≡ compact_text (reason_data reason.now)) }
{
    let Ok(value) = reason_value(alloc, reason) else {
        return Err(NoMemory);
    };
    match value.to_string(alloc) {
        Ok(line) => Ok(line),
        Err(_) => Err(NoMemory),
    }
}

/// The triples of the selectors as an array.
fn triples_value(alloc: Global, selectors: &[Selector]) -> Result<Value, AllocError>
    requires { AllByRecursion IsSmall selectors.now }
    ensures { IfOk result (λ v. view v ≡ triples_data selectors.now) }
{
    let mut triples = Vec::new(alloc);
    for selector in selectors {
        triples.push(triple_value(alloc, specificity(selector))?)?;
    }
    Ok(Value::Array(triples))
}

/// The object of a selector list.
fn css_value(alloc: Global, list: &SelectorList, xpath: &str) -> Result<Value, AllocError>
    requires { AllByRecursion IsSmall list.now.items }
    ensures { IfOk result (λ v. view v ≡ css_data list.now.items xpath.now) }
{
    let triples = triples_value(alloc, list.items.as_slice())?;
    json!(in alloc; {"specificity": triples, "xpath": xpath})
}

/// The line of a selector list, without the line feed: an object with the members `specificity`,
/// a triple of numbers for each selector, and `xpath`.
pub fn css_line(alloc: Global, list: &SelectorList, xpath: &str) -> Result<String, NoMemory>
    requires { AllByRecursion IsSmall list.now.items }
    ensures text { IfOk result (λ s. string_bytes s ≡ css_text list.now.items xpath.now) }
    ensures value { IfOk result (λ s. string_bytes s ≡ compact_text (css_data list.now.items xpath.now)) }
{
    let Ok(value) = css_value(alloc, list, xpath) else {
        return Err(NoMemory);
    };
    match value.to_string(alloc) {
        Ok(line) => Ok(line),
        Err(_) => Err(NoMemory),
    }
}
