//! Rows that are kept while a document grows.
ghost use Rattle.std.specs.Prelude.{◌≡◌, ◌≢◌, ◌<◌, ◌+◌, ◌^◌, [], ℕ, length, reverse, OnOk, OnErr, IfOk};
ghost use Rattle.doc_model.specs.Document.{IsDocument};
ghost use Rattle.doc_model.specs.Growing.{fresh, innermost, with_row, with_element, with_attr, with_text, with_comment, with_close, AwaitsAttr, AwaitsText, IsGrowing};
ghost use Rattle.doc_model.specs.KeptRows.{rows_of, ends_of, growing_of, AreEnds};
ghost use Rattle.doc_model.specs.inner.Props.{is_growing_prop};

use crate::Kind;
use crate::kept_row::{KeptRow, RowText};
use std::alloc::Allocator;
use text_base::NoMemory;

/// The rows so far, and the elements not yet closed, the innermost standing last. The root node has no row.
#[derive(Drop)]
pub struct GrowingRows<X: RowText, A: Allocator> {
    rows: Vec<KeptRow<X>, A>,
    unclosed: Vec<u32, A>,
    ghost grown: { IsGrowing (growing_of rows.items unclosed.items) } by { is_growing_prop _ },
    ghost small: { length rows.items + 1 < 2 ^ 32 },
    ghost ends: { AreEnds (rows_of rows.items) (reverse unclosed.items) (ends_of rows.items) },
}

impl<X: RowText + Drop, A: Allocator + Copy> GrowingRows<X, A> {
    /// The root node alone. It takes no memory.
    pub fn new(alloc: A) -> GrowingRows<X, A>
        ensures { growing_of result.rows.items result.unclosed.items ≡ fresh }
    {
        GrowingRows {
            rows: Vec::new(alloc),
            unclosed: Vec::new(alloc),
        }
    }

    /// The same, with room for so many rows.
    pub fn with_room(alloc: A, rows: usize) -> Result<GrowingRows<X, A>, NoMemory>
        ensures { IfOk result (λ g. growing_of g.rows.items g.unclosed.items ≡ fresh) }
    {
        Ok(GrowingRows {
            rows: Vec::with_capacity(alloc, rows)?,
            unclosed: Vec::new(alloc),
        })
    }

    /// The innermost open element, or the root node.
    fn innermost(&self) -> u32
        ensures { result ≡ innermost (reverse self.now.unclosed.items) }
    {
        match self.unclosed.last() {
            Some(row) => *row,
            None => 0,
        }
    }

    /// The number of the next row.
    fn next(&self) -> u32
        ensures { result ≡ length self.now.rows.items + 1 }
    {
        self.rows.len() as u32 + 1
    }

    /// An element with the empty text, which is open until `close`.
    pub fn element(&mut self, name: X, nothing: X) -> Result<(), NoMemory>
        requires name { X.characters name ≢ [] }
        requires nothing { X.characters nothing ≡ [] }
        requires room { length self.old.rows.items + 2 < 2 ^ 32 }
        ensures ok { OnOk result (growing_of self.new.rows.items self.new.unclosed.items ≡ with_element (growing_of self.old.rows.items self.old.unclosed.items) (X.characters name)) }
        ensures err { OnErr result (growing_of self.new.rows.items self.new.unclosed.items ≡ growing_of self.old.rows.items self.old.unclosed.items) }
    {
        let row = KeptRow {
            kind: Kind::Element,
            name,
            text: nothing,
            parent: self.innermost(),
            end: 0,
        };
        let at = self.next();
        self.unclosed.push(at)?;
        match self.rows.push(row) {
            Ok(()) => Ok(()),
            Err(_) => {
                self.unclosed.pop();
                Err(NoMemory)
            }
        }
    }

    /// A row below the innermost open element or the root node, which is no element.
    fn leaf(&mut self, kind: Kind, name: X, text: X) -> Result<(), NoMemory>
        requires keeps { IsGrowing (with_row (growing_of self.old.rows.items self.old.unclosed.items)
            (record { kind = kind; name = X.characters name; text = X.characters text; parent = innermost (reverse self.old.unclosed.items) })) }
        requires room { length self.old.rows.items + 2 < 2 ^ 32 }
        ensures ok { OnOk result (growing_of self.new.rows.items self.new.unclosed.items ≡ with_row (growing_of self.old.rows.items self.old.unclosed.items)
            (record { kind = kind; name = X.characters name; text = X.characters text; parent = innermost (reverse self.old.unclosed.items) })) }
        ensures err { OnErr result (growing_of self.new.rows.items self.new.unclosed.items ≡ growing_of self.old.rows.items self.old.unclosed.items) }
    {
        let row = KeptRow {
            kind,
            name,
            text,
            parent: self.innermost(),
            end: self.next() + 1,
        };
        match self.rows.push(row) {
            Ok(()) => Ok(()),
            Err(_) => Err(NoMemory),
        }
    }

    /// An attribute of the innermost open element.
    pub fn attr(&mut self, name: X, value: X) -> Result<(), NoMemory>
        requires name { X.characters name ≢ [] }
        requires awaits { AwaitsAttr (growing_of self.old.rows.items self.old.unclosed.items) (X.characters name) }
        requires room { length self.old.rows.items + 2 < 2 ^ 32 }
        ensures ok { OnOk result (growing_of self.new.rows.items self.new.unclosed.items ≡ with_attr (growing_of self.old.rows.items self.old.unclosed.items) (X.characters name) (X.characters value)) }
        ensures err { OnErr result (growing_of self.new.rows.items self.new.unclosed.items ≡ growing_of self.old.rows.items self.old.unclosed.items) }
    {
        self.leaf(Kind::Attribute, name, value)
    }

    /// A text, with the empty name.
    pub fn text(&mut self, nothing: X, text: X) -> Result<(), NoMemory>
        requires nothing { X.characters nothing ≡ [] }
        requires some { X.characters text ≢ [] }
        requires awaits { AwaitsText (growing_of self.old.rows.items self.old.unclosed.items) }
        requires room { length self.old.rows.items + 2 < 2 ^ 32 }
        ensures ok { OnOk result (growing_of self.new.rows.items self.new.unclosed.items ≡ with_text (growing_of self.old.rows.items self.old.unclosed.items) (X.characters text)) }
        ensures err { OnErr result (growing_of self.new.rows.items self.new.unclosed.items ≡ growing_of self.old.rows.items self.old.unclosed.items) }
    {
        self.leaf(Kind::Text, nothing, text)
    }

    /// A comment, with the empty name.
    pub fn comment(&mut self, nothing: X, text: X) -> Result<(), NoMemory>
        requires nothing { X.characters nothing ≡ [] }
        requires room { length self.old.rows.items + 2 < 2 ^ 32 }
        ensures ok { OnOk result (growing_of self.new.rows.items self.new.unclosed.items ≡ with_comment (growing_of self.old.rows.items self.old.unclosed.items) (X.characters text)) }
        ensures err { OnErr result (growing_of self.new.rows.items self.new.unclosed.items ≡ growing_of self.old.rows.items self.old.unclosed.items) }
    {
        self.leaf(Kind::Comment, nothing, text)
    }

    /// Closes the innermost open element.
    pub fn close(&mut self)
        requires { (growing_of self.old.rows.items self.old.unclosed.items).open_rows ≢ [] }
        ensures { growing_of self.new.rows.items self.new.unclosed.items ≡ with_close (growing_of self.old.rows.items self.old.unclosed.items) }
    {
        let end = self.next();
        if let Some(row) = self.unclosed.pop() {
            let closed = &mut self.rows[row as usize - 1];
            closed.end = end;
        }
    }

    /// The rows, where no element is open any more.
    pub fn into_rows(self) -> Vec<KeptRow<X>, A>
        requires { (growing_of self.rows.items self.unclosed.items).open_rows ≡ [] }
        ensures rows { rows_of result.items ≡ rows_of self.rows.items }
        ensures document { IsDocument (rows_of result.items) }
        ensures small { length result.items + 1 < 2 ^ 32 }
        ensures ends { AreEnds (rows_of result.items) [] (ends_of result.items) }
    {
        let GrowingRows { rows, .. } = self;
        rows
    }
}
