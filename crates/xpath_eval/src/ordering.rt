//! Lists of rows brought into document order.
ghost use Rattle.std.specs.Prelude.{◌≡◌, ◌||◌, ℕ, IsTrue, IfOk};
ghost use Rattle.std.specs.List.Sorted.{IsStrictlyIncreasing};
ghost use Rattle.doc_model.specs.RowLists.{has, Run, AllBelow};

use text_base::NoMemory;

/// Whether each row stands before the next.
fn rises(rows: &[u32]) -> bool
    ensures { IsTrue result → IsStrictlyIncreasing rows.now }
{
    for i in 1..rows.len() {
        if rows[i - 1] >= rows[i] {
            return false;
        }
    }
    true
}

/// The rows of a list in document order, each once. It takes no memory. A list that is in order is only read; another
/// one is sorted.
pub fn ordered(rows: Vec<u32>) -> Vec<u32>
    ensures same { (y : ℕ) → has y result.items ≡ has y rows.items }
    ensures order { (n : ℕ) → AllBelow n rows.items → Run 0 n result.items }
{
    let mut rows = rows;
    if rises(rows.as_slice()) {
        return rows;
    }
    rows.sort_unstable();
    rows.dedup();
    rows
}

/// The rows of two lists. Where there are more than `most`, they are brought into order, so that each is kept once.
pub fn add(found: Vec<u32>, more: &[u32], most: usize) -> Result<Vec<u32>, NoMemory>
    ensures { IfOk result (λ v. (y : ℕ) → has y v.items ≡ (has y found.items || has y more.now)) }
{
    let mut found = found;
    found.extend_from_slice(more)?;
    if found.len() > most {
        return Ok(ordered(found));
    }
    Ok(found)
}

/// The same, and where nothing was found before, the second list itself.
pub fn add_list(found: Vec<u32>, more: Vec<u32>, most: usize) -> Result<Vec<u32>, NoMemory>
    ensures { IfOk result (λ v. (y : ℕ) → has y v.items ≡ (has y found.items || has y more.items)) }
{
    if found.len() == 0 {
        return Ok(more);
    }
    add(found, more.as_slice(), most)
}
