//! The items of a chain, and their texts.
ghost use Rattle.std.specs.Prelude.{◌≡◌, ◌≢◌, ◌<◌, ◌≤◌, length, map, take, encode_utf8_all, nat_le, IfOk, OnOk, IsErrOf};
ghost use Rattle.doc_model.specs.Document.{Document, row};
ghost use Rattle.doc_model.specs.RowLists.{AllBelow};
ghost use Rattle.markup_out.specs.Markup as spec;
ghost use Rattle.query_chain.specs.Chains.{row_text, item_texts};
ghost use Rattle.query_chain.specs.Items.{node, bytes_of};
ghost use Rattle.query_chain.specs.inner.Steps.{items_of, AreIn};

use crate::limits::Stop;
use doc_model::{Kind, Tree};
use markup_out::{TooLarge, markup};
use std::alloc::Global;
use text_base::Txt;

/// What a step gave: rows, or texts.
#[derive(Drop)]
pub enum Items {
    Rows(Vec<u32>),
    Texts(Vec<Txt>),
}

impl Items {
    /// The first item alone, if there is one.
    pub fn first(self) -> Items
        ensures items { items_of result ≡ take 1 (items_of self) }
        ensures within { (doc : Document) → AreIn doc self → AreIn doc result }
    {
        match self {
            Items::Rows(mut rows) => {
                rows.truncate(1);
                Items::Rows(rows)
            }
            Items::Texts(mut texts) => {
                texts.truncate(1);
                Items::Texts(texts)
            }
        }
    }
}

/// A copy of the row's own text, of at most `limit` bytes.
fn own_text<T: Tree>(alloc: Global, tree: &T, x: u32, limit: usize) -> Result<Txt, Stop>
    requires { x < length (T.document tree.now) }
    ensures text { IfOk result (λ t. t ≡ (row (T.document tree.now) x).text) }
    ensures within { OnOk result (length (encode_utf8_all (row (T.document tree.now) x).text) ≤ limit) }
    ensures output { IsErrOf result Stop.Output → limit < length (encode_utf8_all (row (T.document tree.now) x).text) }
    ensures selection { result ≢ Err Stop.Selection }
{
    let text = tree.text(x);
    if text.len() > limit {
        return Err(Stop::Output);
    }
    Ok(Txt::of(alloc, text)?)
}

/// The markup of the row, of at most `limit` bytes.
fn markup_text<T: Tree>(alloc: Global, tree: &T, x: u32, limit: usize) -> Result<Txt, Stop>
    requires { x < length (T.document tree.now) }
    ensures text { IfOk result (λ t. t ≡ spec.markup (T.document tree.now) x) }
    ensures within { OnOk result (length (encode_utf8_all (spec.markup (T.document tree.now) x)) ≤ limit) }
    ensures output { IsErrOf result Stop.Output → limit < length (encode_utf8_all (spec.markup (T.document tree.now) x)) }
    ensures selection { result ≢ Err Stop.Selection }
{
    match markup(alloc, tree, x, limit) {
        Ok(text) => Ok(Txt::from_string(text)),
        Err(TooLarge::Limit) => Err(Stop::Output),
        Err(TooLarge::Memory) => Err(Stop::Memory),
    }
}

/// The text of a row, of at most `limit` bytes: an attribute's value, a text's content, and else its markup.
fn text_of_row<T: Tree>(alloc: Global, tree: &T, x: u32, limit: usize) -> Result<Txt, Stop>
    requires { x < length (T.document tree.now) }
    ensures text { IfOk result (λ t. t ≡ row_text (row (T.document tree.now) x).kind (T.document tree.now) x) }
    ensures within { OnOk result (length (encode_utf8_all (row_text (row (T.document tree.now) x).kind (T.document tree.now) x)) ≤ limit) }
    ensures output { IsErrOf result Stop.Output → limit < length (encode_utf8_all (row_text (row (T.document tree.now) x).kind (T.document tree.now) x)) }
    ensures selection { result ≢ Err Stop.Selection }
{
    match tree.kind(x) {
        Kind::Attribute | Kind::Text => own_text(alloc, tree, x, limit),
        Kind::Root | Kind::Element | Kind::Comment => markup_text(alloc, tree, x, limit),
    }
}

/// The texts of rows, of at most `limit` bytes together.
fn texts_of_rows<T: Tree>(
    alloc: Global,
    tree: &T,
    rows: &[u32],
    limit: usize,
) -> Result<Vec<Txt>, Stop>
    requires { AllBelow (length (T.document tree.now)) rows.now }
    ensures texts { IfOk result (λ v. v.items ≡ item_texts (T.document tree.now) (map node rows.now)) }
    ensures within { OnOk result (bytes_of (item_texts (T.document tree.now) (map node rows.now)) ≤ limit) }
    ensures output { IsErrOf result Stop.Output → limit < bytes_of (item_texts (T.document tree.now) (map node rows.now)) }
    ensures selection { result ≢ Err Stop.Selection }
{
    let mut texts = Vec::new(alloc);
    let mut left = limit;
    for x in rows {
        let text = text_of_row(alloc, tree, *x, left)?;
        left -= text.as_str().len();
        texts.push(text)?;
    }
    Ok(texts)
}

/// Whether texts have at most `limit` bytes together.
pub fn are_within(texts: &[Txt], limit: usize) -> bool
    ensures { result ≡ nat_le (bytes_of texts.now) limit }
{
    let mut left = limit;
    for text in texts {
        let len = text.as_str().len();
        if len > left {
            return false;
        }
        left -= len;
    }
    true
}

/// The texts of items. It is Output where they have more than `limit` bytes together.
pub fn texts_of<T: Tree>(
    alloc: Global,
    tree: &T,
    items: Items,
    limit: usize,
) -> Result<Vec<Txt>, Stop>
    requires { AreIn (T.document tree.now) items }
    ensures texts { IfOk result (λ v. v.items ≡ item_texts (T.document tree.now) (items_of items)) }
    ensures within { OnOk result (bytes_of (item_texts (T.document tree.now) (items_of items)) ≤ limit) }
    ensures output { IsErrOf result Stop.Output → limit < bytes_of (item_texts (T.document tree.now) (items_of items)) }
    ensures selection { result ≢ Err Stop.Selection }
{
    match items {
        Items::Rows(rows) => texts_of_rows(alloc, tree, rows.as_slice(), limit),
        Items::Texts(texts) => {
            if are_within(texts.as_slice(), limit) {
                Ok(texts)
            } else {
                Err(Stop::Output)
            }
        }
    }
}
