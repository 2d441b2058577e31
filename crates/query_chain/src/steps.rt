//! One step after the other.
ghost use Rattle.std.specs.Prelude.{◌≡◌, ◌≤◌, ◌<◌, [], ◌∷◌, map, length, All, IfOk, IfErr};
ghost use Rattle.std.specs.Str.{chars};
ghost use Rattle.doc_model.specs.RowLists.{AllBelow};
ghost use Rattle.regex.specs.Strings.{regex_source};
ghost use Rattle.test_registry.specs.Kinds.{HasKind};
ghost use Rattle.test_registry.specs.View.{known};
ghost use Rattle.xpath_parser.specs.Asking.{AsksOnly};
ghost use Rattle.xpath_parser.specs.Shapes.{shape_of, is_nodes};
ghost use Rattle.xpath_parser.specs.Typed.{expression};
ghost use Rattle.query_chain.specs.inner.Built.{IsBuilt};
ghost use Rattle.query_chain.specs.Chains as spec;
ghost use Rattle.query_chain.specs.Chains.{item_texts, step_items, step_passes, last_items, steps_pass, end_passes, taken_texts, answer};
ghost use Rattle.query_chain.specs.Items.{node};
ghost use Rattle.query_chain.specs.Tasks as task;
ghost use Rattle.query_chain.specs.Tasks.{ActionAsks};
ghost use Rattle.query_chain.specs.inner.Steps.{items_of, AreIn, action_of, IsUsable, IsFirst, IsStopOf};

use crate::items::{Items, texts_of};
use crate::keep::{keep_rows, keep_texts};
use crate::limits::{Limits, Stop};
use crate::ready_steps::ReadyStep;
use crate::search::search_texts;
use crate::select::{select_rows, select_texts};
use doc_model::Axes;
use query_script::{FieldValue, Take};
use regex::Regex;
use std::alloc::Global;
use test_registry::{TestKind, Tests};
use text_base::{Seq, Txt};
use xpath_parser::Typed;
use xpath_values::Shape;

/// Whether a query gives nodes.
fn gives_nodes(query: &Typed) -> bool
    ensures { result ≡ is_nodes (shape_of (expression query.now)) }
{
    match query.shape() {
        Shape::Nodes => true,
        Shape::Str | Shape::Num | Shape::Bool => false,
    }
}

/// What a query gives at rows: rows or texts, by its shape.
fn select<S: Axes>(
    alloc: Global,
    source: &S,
    query: &Typed,
    rows: &[u32],
    tests: &Tests,
    limits: Limits,
) -> Result<Items, Stop>
    requires within { AllBelow (length (S.document source.now)) rows.now }
    requires few { length rows.now ≤ limits.items }
    requires asks { AsksOnly (known tests.now) (expression query.now) }
    ensures items { IfOk result (λ v. items_of v ≡ step_items (S.document source.now) (task.select (expression query.now)) (map node rows.now)) }
    ensures passes { IfOk result (λ v. step_passes limits (S.document source.now) (task.select (expression query.now)) (map node rows.now) ≡ []) }
    ensures within { IfOk result (AreIn (S.document source.now)) }
    ensures few { IfOk result (λ v. length (items_of v) ≤ limits.items) }
    ensures stop { IfErr result (λ s. IsFirst s (step_passes limits (S.document source.now) (task.select (expression query.now)) (map node rows.now))) }
{
    if gives_nodes(query) {
        let found = select_rows(alloc, source, query, rows, tests, limits)?;
        return Ok(Items::Rows(found));
    }
    let found = select_texts(alloc, source, query, rows, tests, limits)?;
    Ok(Items::Texts(found))
}

/// What a query gives at the items. Texts give nothing: there are none where a query stands.
fn select_items<S: Axes>(
    alloc: Global,
    source: &S,
    query: &Typed,
    items: Items,
    tests: &Tests,
    limits: Limits,
) -> Result<Items, Stop>
    requires within { AreIn (S.document source.now) items }
    requires few { length (items_of items) ≤ limits.items }
    requires asks { AsksOnly (known tests.now) (expression query.now) }
    ensures items { IfOk result (λ v. items_of v ≡ step_items (S.document source.now) (task.select (expression query.now)) (items_of items)) }
    ensures passes { IfOk result (λ v. step_passes limits (S.document source.now) (task.select (expression query.now)) (items_of items) ≡ []) }
    ensures within { IfOk result (AreIn (S.document source.now)) }
    ensures few { IfOk result (λ v. length (items_of v) ≤ limits.items) }
    ensures stop { IfErr result (λ s. IsFirst s (step_passes limits (S.document source.now) (task.select (expression query.now)) (items_of items))) }
{
    match items {
        Items::Rows(rows) => select(alloc, source, query, rows.as_slice(), tests, limits),
        Items::Texts(_) => Ok(Items::Texts(Vec::new(alloc))),
    }
}

/// What a pattern finds in the texts of the items.
fn search<S: Axes>(
    alloc: Global,
    source: &S,
    regex: &Regex,
    items: Items,
    limits: Limits,
) -> Result<Items, Stop>
    requires within { AreIn (S.document source.now) items }
    requires built { IsBuilt (chars (regex_source regex.now)) regex.now }
    ensures items { IfOk result (λ v. items_of v ≡ step_items (S.document source.now) (task.search (chars (regex_source regex.now))) (items_of items)) }
    ensures passes { IfOk result (λ v. step_passes limits (S.document source.now) (task.search (chars (regex_source regex.now))) (items_of items) ≡ []) }
    ensures within { IfOk result (AreIn (S.document source.now)) }
    ensures few { IfOk result (λ v. length (items_of v) ≤ limits.items) }
    ensures stop { IfErr result (λ s. IsFirst s (step_passes limits (S.document source.now) (task.search (chars (regex_source regex.now))) (items_of items))) }
{
    let texts = texts_of(alloc, source, items, limits.bytes)?;
    let found = search_texts(alloc, regex, texts.as_slice(), limits)?;
    Ok(Items::Texts(found))
}

/// The items whose texts meet the other text, as the stored test says. They stay what they are, rows or texts.
fn keep<S: Axes>(
    alloc: Global,
    source: &S,
    kind: TestKind,
    other: &Txt,
    items: Items,
    tests: &Tests,
    limits: Limits,
) -> Result<Items, Stop>
    requires stored { HasKind kind (known tests.now) }
    requires within { AreIn (S.document source.now) items }
    requires few { length (items_of items) ≤ limits.items }
    ensures items { IfOk result (λ v. items_of v ≡ step_items (S.document source.now) (task.keep kind other.now) (items_of items)) }
    ensures passes { IfOk result (λ v. step_passes limits (S.document source.now) (task.keep kind other.now) (items_of items) ≡ []) }
    ensures within { IfOk result (AreIn (S.document source.now)) }
    ensures few { IfOk result (λ v. length (items_of v) ≤ limits.items) }
    ensures stop { IfErr result (λ s. IsFirst s (step_passes limits (S.document source.now) (task.keep kind other.now) (items_of items))) }
{
    match items {
        Items::Rows(rows) => {
            let kept = keep_rows(
                alloc,
                source,
                rows.as_slice(),
                kind,
                other,
                tests,
                limits.bytes,
            )?;
            Ok(Items::Rows(kept))
        }
        Items::Texts(texts) => {
            let kept = keep_texts(texts, kind, other, tests, limits.bytes)?;
            Ok(Items::Texts(kept))
        }
    }
}

/// What a step gives.
fn give<S: Axes>(
    alloc: Global,
    source: &S,
    step: &ReadyStep,
    items: Items,
    tests: &Tests,
    limits: Limits,
) -> Result<Items, Stop>
    requires usable { IsUsable step.now }
    requires asks { ActionAsks (known tests.now) (action_of step.now) }
    requires within { AreIn (S.document source.now) items }
    requires few { length (items_of items) ≤ limits.items }
    ensures items { IfOk result (λ v. items_of v ≡ step_items (S.document source.now) (action_of step.now) (items_of items)) }
    ensures passes { IfOk result (λ v. step_passes limits (S.document source.now) (action_of step.now) (items_of items) ≡ []) }
    ensures within { IfOk result (AreIn (S.document source.now)) }
    ensures few { IfOk result (λ v. length (items_of v) ≤ limits.items) }
    ensures stop { IfErr result (λ s. IsFirst s (step_passes limits (S.document source.now) (action_of step.now) (items_of items))) }
{
    match step {
        ReadyStep::Query(query) => select_items(alloc, source, query, items, tests, limits),
        ReadyStep::Match(regex) => search(alloc, source, regex, items, limits),
        ReadyStep::Keep(kind, other) => keep(alloc, source, *kind, other, items, tests, limits),
    }
}

/// What the last step gives, from the row x on.
pub fn give_all<S: Axes>(
    alloc: Global,
    source: &S,
    steps: &[ReadyStep],
    x: u32,
    tests: &Tests,
    limits: Limits,
) -> Result<Items, Stop>
    requires usable { All IsUsable steps.now }
    requires asks { All (λ step. ActionAsks (known tests.now) (action_of step)) steps.now }
    requires within { x < length (S.document source.now) }
    requires some { 0 < limits.items }
    ensures items { IfOk result (λ v. items_of v ≡ last_items (S.document source.now) (node x ∷ []) (map action_of steps.now)) }
    ensures passes { IfOk result (λ v. steps_pass limits (S.document source.now) (node x ∷ []) (map action_of steps.now) ≡ []) }
    ensures within { IfOk result (AreIn (S.document source.now)) }
    ensures stop { IfErr result (λ s. IsFirst s (steps_pass limits (S.document source.now) (node x ∷ []) (map action_of steps.now))) }
{
    let mut rows = Vec::new(alloc);
    rows.push(x)?;
    let mut items = Items::Rows(rows);
    for step in steps {
        let next = give(alloc, source, step, items, tests, limits)?;
        items = next;
    }
    Ok(items)
}

/// The texts that are given at the end.
fn given_texts<S: Axes>(
    alloc: Global,
    source: &S,
    items: Items,
    end: Take,
    limits: Limits,
) -> Result<Vec<Txt>, Stop>
    requires { AreIn (S.document source.now) items }
    ensures texts { IfOk result (λ v. v.items ≡ taken_texts end (item_texts (S.document source.now) (items_of items))) }
    ensures passes { IfOk result (λ v. end_passes limits (S.document source.now) v.items ≡ []) }
    ensures stop { IfErr result (λ s. IsFirst s (end_passes limits (S.document source.now) (taken_texts end (item_texts (S.document source.now) (items_of items))))) }
{
    match end {
        Take::All => texts_of(alloc, source, items, limits.bytes),
        Take::First => texts_of(alloc, source, items.first(), limits.bytes),
    }
}

/// The value that texts are.
fn value_of(texts: Vec<Txt>, end: Take) -> FieldValue
    ensures { result ≡ spec.value_of end texts.items }
{
    match end {
        Take::All => FieldValue::All(Seq::from_vec(texts)),
        Take::First => FieldValue::One(texts.into_iter().next()),
    }
}

/// The value of steps from the row x on.
pub fn run_steps<S: Axes>(
    alloc: Global,
    source: &S,
    steps: &[ReadyStep],
    end: Take,
    x: u32,
    tests: &Tests,
    limits: Limits,
) -> Result<FieldValue, Stop>
    requires usable { All IsUsable steps.now }
    requires asks { All (ActionAsks (known tests.now)) (map action_of steps.now) }
    requires within { x < length (S.document source.now) }
    requires some { 0 < limits.items }
    ensures value { IfOk result (λ v. v ≡ answer limits (S.document source.now) x (map action_of steps.now) end) }
    ensures stop { IfErr result (λ s. IsStopOf s (answer limits (S.document source.now) x (map action_of steps.now) end)) }
{
    let items = give_all(alloc, source, steps, x, tests, limits)?;
    let texts = given_texts(alloc, source, items, end, limits)?;
    Ok(value_of(texts, end))
}
