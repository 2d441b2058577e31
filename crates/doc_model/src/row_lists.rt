//! Lists of rows in document order.
ghost use Rattle.std.specs.Prelude.{◌≡◌, ◌<◌, ◌++◌, ◌∷◌, [], ℕ, List, length, IsTrue, IfOk, take, OnOk, OnErr, drop};
ghost use Rattle.doc_model.specs.RowLists as spec;
ghost use Rattle.doc_model.specs.inner.Merging.{taken, Follows};

use std::alloc::Global;
use text_base::{NoMemory, Seq};

#[derive(Clone, Copy)]
struct Taken {
    row: u32,
    i: usize,
    j: usize,
}

/// The smaller of the rows at two places, and the places after it.
fn smaller(a: &[u32], b: &[u32], i: usize, j: usize) -> Taken
    requires left { i < length a.now }
    requires right { j < length b.now }
    ensures row { result.row ≡ (taken a.now b.now i j).row }
    ensures i { result.i ≡ (taken a.now b.now i j).i }
    ensures j { result.j ≡ (taken a.now b.now i j).j }
{
    let x = a[i];
    let y = b[j];
    if x < y {
        Taken {
            row: x,
            i: i + 1,
            j,
        }
    } else if y < x {
        Taken {
            row: y,
            i,
            j: j + 1,
        }
    } else {
        Taken {
            row: x,
            i: i + 1,
            j: j + 1,
        }
    }
}

/// The rows in either of two ascending lists, upwards and each once.
pub fn merge_into(a: &[u32], b: &[u32], out: &mut Vec<u32>) -> Result<(), NoMemory>
    requires { out.old.items ≡ [] }
    ensures rows { OnOk result ((n : ℕ) → spec.Run 0 n a.now → spec.Run 0 n b.now → out.new.items ≡ spec.in_either n a.now b.now) }
    ensures part { OnErr result ((n : ℕ) → spec.Run 0 n a.now → spec.Run 0 n b.now → spec.IsFront out.new.items (spec.in_either n a.now b.now)) }
{
    let mut i = 0;
    let mut j = 0;
    while i < a.len() && j < b.len() {
        let next = smaller(a, b, i, j);
        out.push(next.row)?;
        i = next.i;
        j = next.j;
    }
    out.extend_from_slice(&a[i..])?;
    out.extend_from_slice(&b[j..])?;
    Ok(())
}

/// Whether the second list may stand after the first.
fn follows(a: &[u32], b: &[u32]) -> bool
    ensures { IsTrue result → Follows a.now b.now }
{
    if a.len() == 0 {
        return true;
    }
    if b.len() == 0 {
        return true;
    }
    a[a.len() - 1] < b[0]
}

/// The rows in either of two ascending lists. Where the second goes on where the first ends, it is appended.
pub fn gather(alloc: Global, a: Vec<u32>, b: &[u32]) -> Result<Vec<u32>, NoMemory>
    ensures { IfOk result (λ v. (n : ℕ) → spec.Run 0 n a.items → spec.Run 0 n b.now → v.items ≡ spec.in_either n a.items b.now) }
{
    let mut a = a;
    if follows(a.as_slice(), b) {
        a.extend_from_slice(b)?;
        return Ok(a);
    }
    let mut out = Vec::new(alloc);
    merge_into(a.as_slice(), b, &mut out)?;
    Ok(out)
}

/// The rows in one of the ascending lists, upwards and each once.
pub fn collect(alloc: Global, lists: &[Seq<u32>]) -> Result<Vec<u32>, NoMemory>
    ensures { IfOk result (λ v. (n : ℕ) → spec.EachIsRun n lists.now → v.items ≡ spec.in_any n lists.now) }
{
    let mut found = Vec::new(alloc);
    for list in lists {
        found = gather(alloc, found, list.as_slice())?;
    }
    Ok(found)
}
