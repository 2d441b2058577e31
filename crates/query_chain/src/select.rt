//! A query at each of some rows.
ghost use Rattle.std.specs.Prelude.{◌≡◌, ◌≢◌, ◌<◌, ◌≤◌, ◌+◌, ◌∷◌, ◌++◌, [], true, false, length, map, codes, encode_utf8_all, IfOk, OnOk, IsErrOf};
ghost use Rattle.doc_model.specs.RowLists.{AllBelow};
ghost use Rattle.test_registry.specs.View.{known};
ghost use Rattle.xpath_values.specs.Numbers as numbers;
ghost use Rattle.xpath_values.specs.Strings as strings_of;
ghost use Rattle.xpath_values.specs.declared.value.XNum.TheVariants.{Whole};
ghost use Rattle.xpath_parser.specs.Conversions as spec;
ghost use Rattle.xpath_parser.specs.Shapes.{shape_of, is_nodes};
ghost use Rattle.xpath_parser.specs.Asking.{AsksOnly};
ghost use Rattle.xpath_parser.specs.Typed.{expression};
ghost use Rattle.query_chain.specs.Chains.{step_items, value_items};
ghost use Rattle.query_chain.specs.Items.{node, text, strings, bytes_of};
ghost use Rattle.query_chain.specs.Tasks.{select};
ghost use Rattle.query_chain.specs.inner.Values.{is_rows};

use crate::limits::{Limits, Stop};
use doc_model::Axes;
use std::alloc::Global;
use test_registry::Tests;
use text_base::{NoMemory, Seq, Txt};
use xpath_eval::eval_with;
use xpath_parser::Typed;
use xpath_values::{Value, XNum, num_text};

/// The rows of a value.
fn rows_of(value: Value) -> Seq<u32>
    requires { is_rows value ≡ true }
    ensures items { value_items value ≡ map node result }
    ensures rows { result ≡ spec.rows_of value }
{
    match value {
        Value::Nodes(rows) => rows,
        _ => unreachable!(),
    }
}

/// The decimal digits of a whole number.
fn whole_text(alloc: Global, whole: i64) -> Result<Txt, NoMemory>
    ensures { IfOk result (λ t. t ≡ numbers.num_text (Whole whole)) }
{
    Ok(Txt::from_string(num_text(alloc, XNum::Whole(whole))?))
}

/// The word of a truth.
fn truth_text(alloc: Global, truth: bool) -> Result<Txt, NoMemory>
    ensures { IfOk result (λ t. t ≡ strings_of.text_of_bool truth) }
{
    if truth {
        Ok(Txt::of(alloc, "true")?)
    } else {
        Ok(Txt::of(alloc, "false")?)
    }
}

fn nan_text(alloc: Global) -> Result<Txt, NoMemory>
    ensures { IfOk result (λ t. t ≡ codes "NaN") }
{
    Ok(Txt::of(alloc, "NaN")?)
}

/// The text of a number.
fn number_text(alloc: Global, number: XNum) -> Result<Txt, NoMemory>
    ensures { IfOk result (λ t. t ≡ numbers.num_text number) }
{
    match number {
        XNum::Whole(whole) => whole_text(alloc, whole),
        XNum::NaN => nan_text(alloc),
    }
}

/// The text of a value that is no rows.
fn text_of(alloc: Global, value: Value) -> Result<Txt, NoMemory>
    requires { is_rows value ≡ false }
    ensures { IfOk result (λ t. value_items value ≡ text t ∷ []) }
{
    match value {
        Value::Bool(truth) => Ok(truth_text(alloc, truth)?),
        Value::Num(number) => Ok(number_text(alloc, number)?),
        Value::Str(text) => Ok(text),
        Value::Nodes(_) => unreachable!(),
    }
}

/// Adds rows, as long as there are at most `most`.
fn append_rows(out: &mut Vec<u32>, found: &Seq<u32>, most: usize) -> Result<(), Stop>
    requires { length out.old.items ≤ most }
    ensures items { OnOk result (out.new.items ≡ out.old.items ++ found.now) }
    ensures few { OnOk result (length out.new.items ≤ most) }
    ensures many { IsErrOf result Stop.Selection → most < length out.old.items + length found.now }
    ensures output { result ≢ Err Stop.Output }
{
    let rows = found.as_slice();
    if rows.len() > most - out.len() {
        return Err(Stop::Selection);
    }
    out.extend_from_slice(rows)?;
    Ok(())
}

/// Adds a text of at most `left` bytes, and says how many bytes are left after it.
fn append_text(out: &mut Vec<Txt>, text: Txt, left: usize) -> Result<usize, Stop>
    ensures items { OnOk result (out.new.items ≡ out.old.items ++ text ∷ []) }
    ensures left { IfOk result (λ n. n + length (encode_utf8_all text) ≡ left) }
    ensures over { IsErrOf result Stop.Output → left < length (encode_utf8_all text) }
    ensures selection { result ≢ Err Stop.Selection }
{
    let len = text.as_str().len();
    if len > left {
        return Err(Stop::Output);
    }
    out.push(text)?;
    Ok(left - len)
}

/// The rows that a query gives at each of some rows, joined in order. It is Selection where they are too many.
pub fn select_rows<S: Axes>(
    alloc: Global,
    source: &S,
    query: &Typed,
    rows: &[u32],
    tests: &Tests,
    limits: Limits,
) -> Result<Vec<u32>, Stop>
    requires rows { AllBelow (length (S.document source.now)) rows.now }
    requires shape { is_nodes (shape_of (expression query.now)) ≡ true }
    requires asks { AsksOnly (known tests.now) (expression query.now) }
    ensures items { IfOk result (λ v. map node v.items ≡ step_items (S.document source.now) (select (expression query.now)) (map node rows.now)) }
    ensures below { IfOk result (λ v. AllBelow (length (S.document source.now)) v.items) }
    ensures few { IfOk result (λ v. length v.items ≤ limits.items) }
    ensures many { IsErrOf result Stop.Selection → limits.items < length (step_items (S.document source.now) (select (expression query.now)) (map node rows.now)) }
    ensures output { result ≢ Err Stop.Output }
{
    let mut out = Vec::new(alloc);
    for x in rows {
        let found = rows_of(eval_with(alloc, source, query, *x, tests)?);
        append_rows(&mut out, &found, limits.items)?;
    }
    Ok(out)
}

/// The text that a query gives at each of some rows. It is Output where they have too many bytes together.
pub fn select_texts<S: Axes>(
    alloc: Global,
    source: &S,
    query: &Typed,
    rows: &[u32],
    tests: &Tests,
    limits: Limits,
) -> Result<Vec<Txt>, Stop>
    requires rows { AllBelow (length (S.document source.now)) rows.now }
    requires shape { is_nodes (shape_of (expression query.now)) ≡ false }
    requires asks { AsksOnly (known tests.now) (expression query.now) }
    ensures items { IfOk result (λ v. map text v.items ≡ step_items (S.document source.now) (select (expression query.now)) (map node rows.now)) }
    ensures within { IfOk result (λ v. bytes_of v.items ≤ limits.bytes) }
    ensures over { IsErrOf result Stop.Output → limits.bytes < bytes_of (strings (step_items (S.document source.now) (select (expression query.now)) (map node rows.now))) }
    ensures selection { result ≢ Err Stop.Selection }
{
    let mut out = Vec::new(alloc);
    let mut left = limits.bytes;
    for x in rows {
        let found = text_of(alloc, eval_with(alloc, source, query, *x, tests)?)?;
        let next = append_text(&mut out, found, left)?;
        left = next;
    }
    Ok(out)
}
