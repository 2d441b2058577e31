//! Elements by their attribute `id`.
ghost use Rattle.std.specs.Prelude.{◌≡◌, ◌<◌, ℕ, List, Option, ◌&&◌, codes, if◌then◌else◌, length, IfOk, OnOk};
ghost use Rattle.std.specs.Option.{option_or, option_map, option_copied};
ghost use Rattle.std.specs.Str.{bytes_eq, chars, IsUtf8};
ghost use Rattle.std.specs.List.{find};
ghost use Rattle.doc_model.specs.Document.{row, rows, is_attribute};
ghost use Rattle.step_index.specs.inner.Tables.{gives_id};
ghost use Rattle.step_index.specs.inner.Tables.{row_under, HasIds};

use doc_model::{Kind, Tree};
use indexmap::IndexMap;
use std::alloc::Global;
use text_base::NoMemory;

/// The element of the first attribute `id` of each value.
#[derive(Drop)]
pub(crate) struct Ids {
    rows: IndexMap<String, u32>,
}

impl Ids {
    /// A row under a word that has none yet.
    fn put(&mut self, alloc: Global, word: &str, y: u32) -> Result<(), NoMemory>
        ensures { OnOk result ((q : List ℕ) → row_under self.new q ≡ option_or (row_under self.old q) (if bytes_eq q word.now then Some y else None)) }
    {
        if self.rows.contains_key(word) {
            return Ok(());
        }
        let key = String::from_str(alloc, word)?;
        self.rows.insert(key, y)?;
        Ok(())
    }

    /// The parent of the row under its value, if it is an attribute `id`.
    fn put_row<T: Tree>(&mut self, alloc: Global, tree: &T, z: u32) -> Result<(), NoMemory>
        requires { z < length (T.document tree.now) }
        ensures { OnOk result ((q : List ℕ) → IsUtf8 q → row_under self.new q ≡ option_or (row_under self.old q)
            (if gives_id (T.document tree.now) (chars q) z then Some (row (T.document tree.now) z).parent else None)) }
    {
        if is_id(tree, z) {
            return self.put(alloc, tree.text(z), tree.parent(z));
        }
        Ok(())
    }

    /// The table of a tree.
    pub(crate) fn of<T: Tree>(alloc: Global, tree: &T) -> Result<Ids, NoMemory>
        ensures { IfOk result (λ t. HasIds (T.document tree.now) t (length (T.document tree.now))) }
    {
        let mut ids = Ids {
            rows: IndexMap::new(alloc),
        };
        for z in 0..tree.len() {
            ids.put_row(alloc, tree, z)?;
        }
        Ok(ids)
    }

    /// The row under a word.
    pub(crate) fn under(&self, word: &str) -> Option<u32>
        ensures { result ≡ row_under self.now word.now }
    {
        self.rows.get(word).copied()
    }
}

/// The same without a table: the element of the first attribute `id` of this value.
pub(crate) fn walk_id<T: Tree>(tree: &T, word: &str) -> Option<u32>
    ensures { result ≡ option_map (λ z. (row (T.document tree.now) z).parent) (find (gives_id (T.document tree.now) (chars word.now)) (rows (T.document tree.now))) }
{
    for z in 0..tree.len() {
        if is_id_of(tree, z, word) {
            return Some(tree.parent(z));
        }
    }
    None
}

/// Whether the row is an attribute `id` of this value.
fn is_id_of<T: Tree>(tree: &T, z: u32, word: &str) -> bool
    requires { z < length (T.document tree.now) }
    ensures { result ≡ gives_id (T.document tree.now) (chars word.now) z }
{
    is_id(tree, z) && tree.text(z) == word
}

/// Whether the row is an attribute `id`.
fn is_id<T: Tree>(tree: &T, z: u32) -> bool
    requires { z < length (T.document tree.now) }
    ensures { result ≡ (is_attribute (T.document tree.now) z && bytes_eq (row (T.document tree.now) z).name (codes "id")) }
{
    match tree.kind(z) {
        Kind::Attribute => tree.name(z) == "id",
        _ => false,
    }
}
