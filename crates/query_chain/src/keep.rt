//! The items whose texts meet a stored test.
ghost use Rattle.std.specs.Prelude.{◌≡◌, ◌≢◌, ◌<◌, ◌≤◌, ◌+◌, ◌∷◌, ◌++◌, [], if◌then◌else◌, length, map, filter, encode_utf8_all, IfOk, OnOk, IsErrOf};
ghost use Rattle.doc_model.specs.Document.{row};
ghost use Rattle.doc_model.specs.RowLists.{AllBelow};
ghost use Rattle.markup_out.specs.Markup as spec;
ghost use Rattle.test_registry.specs.Kinds.{HasKind};
ghost use Rattle.test_registry.specs.Meets.{meets};
ghost use Rattle.test_registry.specs.View.{known};
ghost use Rattle.query_chain.specs.Chains.{row_text, item_texts};
ghost use Rattle.query_chain.specs.Items.{node, bytes_of};
ghost use Rattle.query_chain.specs.inner.Keeping.{meets_text, row_meets};

use crate::items::are_within;
use crate::limits::Stop;
use doc_model::{Kind, Tree};
use markup_out::{TooLarge, markup};
use std::alloc::Global;
use test_registry::{TestKind, Tests};
use text_base::Txt;

/// Whether a text of at most `left` bytes meets the other, and how many bytes are left after it.
fn ask(
    text: &str,
    kind: TestKind,
    other: &Txt,
    tests: &Tests,
    left: usize,
) -> Result<(bool, usize), Stop>
    requires { HasKind kind (known tests.now) }
    ensures met { IfOk result (λ r. r.0 ≡ meets kind text.now (encode_utf8_all other.now)) }
    ensures left { IfOk result (λ r. r.1 + length text.now ≡ left) }
    ensures output { IsErrOf result Stop.Output → left < length text.now }
    ensures selection { result ≢ Err Stop.Selection }
{
    let len = text.len();
    if len > left {
        return Err(Stop::Output);
    }
    Ok((tests.ask(kind, text, other.as_str()), left - len))
}

/// The same for the markup of a row.
fn ask_markup<T: Tree>(
    alloc: Global,
    tree: &T,
    x: u32,
    kind: TestKind,
    other: &Txt,
    tests: &Tests,
    left: usize,
) -> Result<(bool, usize), Stop>
    requires row { x < length (T.document tree.now) }
    requires stored { HasKind kind (known tests.now) }
    ensures met { IfOk result (λ r. r.0 ≡ meets_text kind other.now (spec.markup (T.document tree.now) x)) }
    ensures left { IfOk result (λ r. r.1 + length (encode_utf8_all (spec.markup (T.document tree.now) x)) ≡ left) }
    ensures output { IsErrOf result Stop.Output → left < length (encode_utf8_all (spec.markup (T.document tree.now) x)) }
    ensures selection { result ≢ Err Stop.Selection }
{
    match markup(alloc, tree, x, left) {
        Ok(text) => ask(text.as_str(), kind, other, tests, left),
        Err(TooLarge::Limit) => Err(Stop::Output),
        Err(TooLarge::Memory) => Err(Stop::Memory),
    }
}

/// The same for the text of a row. Only markup is built for it.
fn ask_row<T: Tree>(
    alloc: Global,
    tree: &T,
    x: u32,
    kind: TestKind,
    other: &Txt,
    tests: &Tests,
    left: usize,
) -> Result<(bool, usize), Stop>
    requires row { x < length (T.document tree.now) }
    requires stored { HasKind kind (known tests.now) }
    ensures met { IfOk result (λ r. r.0 ≡ row_meets (T.document tree.now) kind other.now x) }
    ensures left { IfOk result (λ r. r.1 + length (encode_utf8_all (row_text (row (T.document tree.now) x).kind (T.document tree.now) x)) ≡ left) }
    ensures output { IsErrOf result Stop.Output → left < length (encode_utf8_all (row_text (row (T.document tree.now) x).kind (T.document tree.now) x)) }
    ensures selection { result ≢ Err Stop.Selection }
{
    match tree.kind(x) {
        Kind::Attribute | Kind::Text => ask(tree.text(x), kind, other, tests, left),
        Kind::Root | Kind::Element | Kind::Comment => {
            ask_markup(alloc, tree, x, kind, other, tests, left)
        }
    }
}

/// Adds the row where it is kept.
fn push_kept(out: &mut Vec<u32>, x: u32, is_kept: bool) -> Result<(), Stop>
    ensures rows { OnOk result (out.new.items ≡ out.old.items ++ (if is_kept then x ∷ [] else [])) }
    ensures output { result ≢ Err Stop.Output }
    ensures selection { result ≢ Err Stop.Selection }
{
    if is_kept {
        out.push(x)?;
    }
    Ok(())
}

/// The rows whose texts meet the other. It is Output where the texts of all rows have more than `limit` bytes together.
pub fn keep_rows<T: Tree>(
    alloc: Global,
    tree: &T,
    rows: &[u32],
    kind: TestKind,
    other: &Txt,
    tests: &Tests,
    limit: usize,
) -> Result<Vec<u32>, Stop>
    requires rows { AllBelow (length (T.document tree.now)) rows.now }
    requires stored { HasKind kind (known tests.now) }
    ensures rows { IfOk result (λ v. v.items ≡ filter (row_meets (T.document tree.now) kind other.now) rows.now) }
    ensures within { OnOk result (bytes_of (item_texts (T.document tree.now) (map node rows.now)) ≤ limit) }
    ensures output { IsErrOf result Stop.Output → limit < bytes_of (item_texts (T.document tree.now) (map node rows.now)) }
    ensures selection { result ≢ Err Stop.Selection }
{
    let mut kept = Vec::new(alloc);
    let mut left = limit;
    for x in rows {
        let (is_kept, rest) = ask_row(alloc, tree, *x, kind, other, tests, left)?;
        push_kept(&mut kept, *x, is_kept)?;
        left = rest;
    }
    Ok(kept)
}

/// The texts that meet the other. It is Output where all of them have more than `limit` bytes together.
pub fn keep_texts(
    mut texts: Vec<Txt>,
    kind: TestKind,
    other: &Txt,
    tests: &Tests,
    limit: usize,
) -> Result<Vec<Txt>, Stop>
    requires { HasKind kind (known tests.now) }
    ensures texts { IfOk result (λ v. v.items ≡ filter (meets_text kind other.now) texts.items) }
    ensures within { OnOk result (bytes_of texts.items ≤ limit) }
    ensures output { IsErrOf result Stop.Output → limit < bytes_of texts.items }
    ensures selection { result ≢ Err Stop.Selection }
{
    if !are_within(texts.as_slice(), limit) {
        return Err(Stop::Output);
    }
    texts.retain(
        |text|
            requires { HasKind kind (known tests.now) }
            ensures { result ≡ meets_text kind other.entry.now text.now }
        { tests.ask(kind, text.as_str(), other.as_str()) },
    );
    Ok(texts)
}
