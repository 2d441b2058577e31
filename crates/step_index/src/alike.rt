//! Elements among their siblings of the same name.
ghost use Rattle.std.specs.Prelude.{◌≡◌, ◌<◌, ◌+◌, ◌-◌, ◌^◌, [], ℕ, length, replicate, slice_index, slice_set, IfOk};
ghost use Rattle.step_index.specs.inner.Alike.{HasAlike, HasCounted, IsNamedList, Counts, Gains, rank, rest};
ghost use Rattle.step_index.specs.inner.Tables.{HasNames, HaveTexts};

use crate::names::Names;
use doc_model::Tree;
use std::alloc::Global;
use text_base::NoMemory;

/// For each element how many elements of its name stand before it among its siblings, and how many after it.
#[derive(Drop)]
pub(crate) struct Alike {
    before: Vec<u32>,
    after: Vec<u32>,
}

fn zeros(alloc: Global, n: u32) -> Result<Vec<u32>, NoMemory>
    ensures { IfOk result (λ v. v.items ≡ replicate n 0) }
{
    let list = vec![in alloc; 0; n as usize]?;
    Ok(list)
}

/// One more child of `p`: its rank is how many came before it.
fn count_up(counts: &mut Vec<u32>, before: &mut Vec<u32>, p: u32, y: u32)
    requires parent { p < length counts.old.items }
    requires row { y < length before.old.items }
    requires small { slice_index counts.old.items p + 1 < 2 ^ 32 }
    ensures before { before.new.items ≡ slice_set before.old.items y (slice_index counts.old.items p) }
    ensures counts { counts.new.items ≡ slice_set counts.old.items p (slice_index counts.old.items p + 1) }
{
    let n = counts[p as usize];
    before[y as usize] = n;
    counts[p as usize] = n + 1;
}

/// One child of `p` less: as many as are left come after it.
fn count_down(counts: &mut Vec<u32>, after: &mut Vec<u32>, p: u32, y: u32)
    requires parent { p < length counts.old.items }
    requires row { y < length after.old.items }
    requires some { 0 < slice_index counts.old.items p }
    ensures after { after.new.items ≡ slice_set after.old.items y (slice_index counts.old.items p - 1) }
    ensures counts { counts.new.items ≡ slice_set counts.old.items p (slice_index counts.old.items p - 1) }
{
    let n = counts[p as usize] - 1;
    after[y as usize] = n;
    counts[p as usize] = n;
}

/// Counts the elements of one name up, below each parent.
fn all_up<T: Tree>(tree: &T, list: &[u32], counts: &mut Vec<u32>, before: &mut Vec<u32>)
    requires named { IsNamedList (T.document tree.now) list.now }
    requires none { Counts (T.document tree.now) [] counts.old.items }
    requires long { length before.old.items ≡ length (T.document tree.now) }
    ensures all { Counts (T.document tree.now) list.now counts.new.items }
    ensures before { Gains (rank (T.document tree.now)) list.now before.old.items before.new.items }
{
    for y in list {
        count_up(counts, before, tree.parent(*y), *y);
    }
}

/// Counts them down again.
fn all_down<T: Tree>(tree: &T, list: &[u32], counts: &mut Vec<u32>, after: &mut Vec<u32>)
    requires named { IsNamedList (T.document tree.now) list.now }
    requires all { Counts (T.document tree.now) list.now counts.old.items }
    requires long { length after.old.items ≡ length (T.document tree.now) }
    ensures none { Counts (T.document tree.now) [] counts.new.items }
    ensures after { Gains (rest (T.document tree.now)) list.now after.old.items after.new.items }
{
    for y in list {
        count_down(counts, after, tree.parent(*y), *y);
    }
}

impl Alike {
    /// The elements of one name.
    fn count<T: Tree>(&mut self, tree: &T, list: &[u32], counts: &mut Vec<u32>)
        requires named { IsNamedList (T.document tree.now) list.now }
        requires none { Counts (T.document tree.now) [] counts.old.items }
        requires before { length self.old.before.items ≡ length (T.document tree.now) }
        requires after { length self.old.after.items ≡ length (T.document tree.now) }
        ensures none { Counts (T.document tree.now) [] counts.new.items }
        ensures before { Gains (rank (T.document tree.now)) list.now self.old.before.items self.new.before.items }
        ensures after { Gains (rest (T.document tree.now)) list.now self.old.after.items self.new.after.items }
    {
        all_up(tree, list, counts, &mut self.before);
        all_down(tree, list, counts, &mut self.after);
    }

    /// The table of a tree, name by name.
    pub(crate) fn of<T: Tree>(alloc: Global, tree: &T, names: &Names) -> Result<Alike, NoMemory>
        requires names { HasNames (T.document tree.now) names.now (length (T.document tree.now)) }
        requires texts { HaveTexts (T.document tree.now) (length (T.document tree.now)) }
        ensures { IfOk result (λ t. HasAlike (T.document tree.now) t.before.items t.after.items) }
    {
        let n = tree.len();
        let mut counts = zeros(alloc, n)?;
        let mut alike = Alike {
            before: zeros(alloc, n)?,
            after: zeros(alloc, n)?,
        };
        for i in 0..names.len() {
            alike.count(tree, names.list_at(i), &mut counts);
        }
        Ok(alike)
    }

    /// How many elements of its name stand before an element among its siblings.
    pub(crate) fn before(&self, x: u32) -> u32
        requires { x < length self.now.before.items }
        ensures { result ≡ slice_index self.now.before.items x }
    {
        self.before[x as usize]
    }

    /// How many elements of its name stand after an element among its siblings.
    pub(crate) fn after(&self, x: u32) -> u32
        requires { x < length self.now.after.items }
        ensures { result ≡ slice_index self.now.after.items x }
    {
        self.after[x as usize]
    }
}
