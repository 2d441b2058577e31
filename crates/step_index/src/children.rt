//! Elements among their siblings.
ghost use Rattle.std.specs.Prelude.{◌≡◌, ◌<◌, ◌+◌, ◌^◌, ◌++◌, ◌∷◌, [], ℕ, length, slice_index, slice_set, IfOk, OnOk};
ghost use Rattle.step_index.specs.Siblings.{HasChildren};

use doc_model::{Kind, Tree};
use std::alloc::Global;
use text_base::NoMemory;

/// For each element how many elements stand before it among its siblings, and for each row how many of its children
/// are elements.
#[derive(Drop)]
pub(crate) struct Children {
    ranks: Vec<u32>,
    counts: Vec<u32>,
}

impl Children {
    /// One more element, with its parent.
    fn push(&mut self, parent: u32) -> Result<(), NoMemory>
        requires within { parent < length self.old.counts.items }
        requires small { slice_index self.old.counts.items parent + 1 < 2 ^ 32 }
        ensures ranks { OnOk result (self.new.ranks.items ≡ self.old.ranks.items ++ slice_index self.old.counts.items parent ∷ []) }
        ensures counts { OnOk result (self.new.counts.items
            ≡ slice_set self.old.counts.items parent (slice_index self.old.counts.items parent + 1) ++ 0 ∷ []) }
    {
        let rank = self.counts[parent as usize];
        self.ranks.push(rank)?;
        self.counts[parent as usize] = rank + 1;
        self.counts.push(0)?;
        Ok(())
    }

    /// One more row that is no element.
    fn push_other(&mut self) -> Result<(), NoMemory>
        ensures ranks { OnOk result (self.new.ranks.items ≡ self.old.ranks.items ++ 0 ∷ []) }
        ensures counts { OnOk result (self.new.counts.items ≡ self.old.counts.items ++ 0 ∷ []) }
    {
        self.ranks.push(0)?;
        self.counts.push(0)?;
        Ok(())
    }

    /// One more row.
    fn push_row<T: Tree>(&mut self, tree: &T, y: u32) -> Result<(), NoMemory>
        requires row { y < length (T.document tree.now) }
        requires before { HasChildren (T.document tree.now) self.old.ranks.items self.old.counts.items y }
        ensures { OnOk result (HasChildren (T.document tree.now) self.new.ranks.items self.new.counts.items (y + 1)) }
    {
        match tree.kind(y) {
            Kind::Element => self.push(tree.parent(y)),
            _ => self.push_other(),
        }
    }

    /// The table of a tree.
    pub(crate) fn of<T: Tree>(alloc: Global, tree: &T) -> Result<Children, NoMemory>
        ensures { IfOk result (λ t. HasChildren (T.document tree.now) t.ranks.items t.counts.items (length (T.document tree.now))) }
    {
        let mut children = Children {
            ranks: Vec::new(alloc),
            counts: Vec::new(alloc),
        };
        for y in 0..tree.len() {
            children.push_row(tree, y)?;
        }
        Ok(children)
    }

    /// How many elements stand before an element among its siblings.
    pub(crate) fn before(&self, x: u32) -> u32
        requires { x < length self.now.ranks.items }
        ensures { result ≡ slice_index self.now.ranks.items x }
    {
        self.ranks[x as usize]
    }

    /// How many children of a row are elements.
    pub(crate) fn below(&self, p: u32) -> u32
        requires { p < length self.now.counts.items }
        ensures { result ≡ slice_index self.now.counts.items p }
    {
        self.counts[p as usize]
    }
}
