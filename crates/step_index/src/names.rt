//! Rows by element name.
ghost use Rattle.std.specs.Prelude.{◌≡◌, ◌<◌, ◌++◌, ◌∷◌, ℕ, List, [], true, Some, if◌then◌else◌, length, slice_get, IfOk, OnOk};
ghost use Rattle.std.specs.Str.{bytes_eq, chars, IsUtf8};
ghost use Rattle.doc_model.specs.Document.{row, is_element};
ghost use Rattle.step_index.specs.Named.{is_named, named};
ghost use Rattle.step_index.specs.inner.Tables.{rows_under, lists_of, HasNames, HasText, HaveTexts};

use doc_model::{Kind, Tree};
use indexmap::IndexMap;
use std::alloc::Global;
use text_base::NoMemory;

/// The rows of the elements of each name, upwards.
#[derive(Drop)]
pub(crate) struct Names {
    lists: IndexMap<String, Vec<u32>>,
}

impl Names {
    /// One more row under a name. The name is copied where it is new.
    fn push(&mut self, alloc: Global, name: &str, y: u32) -> Result<(), NoMemory>
        ensures { OnOk result ((q : List ℕ) → rows_under self.new q ≡ rows_under self.old q ++ (if bytes_eq q name.now then y ∷ [] else [])) }
    {
        if let Some(list) = self.lists.get_mut(name) {
            list.push(y)?;
            return Ok(());
        }
        let key = String::from_str(alloc, name)?;
        let list = vec![in alloc; y]?;
        self.lists.insert(key, list)?;
        Ok(())
    }

    /// The row, under its name, if it is an element.
    fn push_row<T: Tree>(&mut self, alloc: Global, tree: &T, y: u32) -> Result<(), NoMemory>
        requires { y < length (T.document tree.now) }
        ensures rows { OnOk result ((q : List ℕ) → IsUtf8 q → rows_under self.new q ≡ rows_under self.old q ++ (if is_named (T.document tree.now) (chars q) y then y ∷ [] else [])) }
        ensures text { OnOk result (HasText (T.document tree.now) y) }
    {
        match tree.kind(y) {
            Kind::Element => self.push(alloc, tree.name(y), y),
            _ => Ok(()),
        }
    }

    /// The table of a tree.
    pub(crate) fn of<T: Tree>(alloc: Global, tree: &T) -> Result<Names, NoMemory>
        ensures rows { IfOk result (λ t. HasNames (T.document tree.now) t (length (T.document tree.now))) }
        ensures texts { IfOk result (λ t. HaveTexts (T.document tree.now) (length (T.document tree.now))) }
    {
        let mut names = Names {
            lists: IndexMap::new(alloc),
        };
        for y in 0..tree.len() {
            names.push_row(alloc, tree, y)?;
        }
        Ok(names)
    }

    /// The rows under a name.
    pub(crate) fn under(&self, name: &str) -> &[u32]
        ensures { result.now ≡ rows_under self.now name.now }
    {
        match self.lists.get(name) {
            Some(list) => list.as_slice(),
            None => &[],
        }
    }

    /// How many names there are.
    pub(crate) fn len(&self) -> usize
        ensures { result ≡ length (lists_of self.now) }
    {
        self.lists.len()
    }

    /// The rows under the name at a place, from 0.
    pub(crate) fn list_at(&self, i: usize) -> &[u32]
        requires { i < length (lists_of self.now) }
        ensures list { slice_get (lists_of self.now) i ≡ Some result.now }
        ensures named { (q : List ℕ) × (IsUtf8 q × (result.now ≡ rows_under self.now q)) }
    {
        match self.lists.get_index(i) {
            Some((_, list)) => list.as_slice(),
            None => &[],
        }
    }
}
