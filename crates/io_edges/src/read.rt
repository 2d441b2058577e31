ghost use Rattle.std.specs.Prelude.{◌≡◌, ◌⊎◌, ◌≤◌, IfOk, OnOk, OnErr, IsErr, IsErrOf, length};
ghost use Rattle.io_edges.specs.Counts.{Rose, Grows};
ghost use Rattle.text_base.specs.Limits.{most_page};
ghost use Rattle.io_edges.specs.Pages.{Lacks, Exceeds, Has, IsTooLong, IsDone, LeavesEnd};
ghost use Rattle.io_edges.specs.declared.read.ReadEnd.TheVariants.{Memory};

use crate::{BeginFault, Failed, Pages};
use std::alloc::{AllocError, Global};
use text_base::PAGE_LIMIT;

/// How many bytes of a page are asked for at a time.
const BUFFER_SIZE: usize = 8_192;

/// Why a page was not read.
#[derive(Clone, Copy, Debug, PartialEq, Eq)]
pub enum ReadEnd {
    /// The page can't be begun or read: a fault was counted, or its name is known not to be there.
    Fault,
    /// It has more than `PAGE_LIMIT` bytes.
    TooLong,
    /// No memory was found.
    Memory,
}

impl From<AllocError> for ReadEnd {
    ghost from_gives = { λ _ e. e ≡ Memory };

    fn from(_: AllocError) -> Self {
        ReadEnd::Memory
    }
}

/// Begins the page of this name and reads all of its bytes, of which it may have `PAGE_LIMIT` at most.
/// Each read but the last gives at least one byte, so there are at most `PAGE_LIMIT + 1` of them.
pub fn read_page<P: Pages>(alloc: Global, pages: &mut P, name: &str) -> Result<Vec<u8>, ReadEnd>
    ensures told { P.told pages.new ≡ P.told pages.old }
    ensures begun { Grows (P.begun pages.old) 1 (P.begun pages.new) }
    ensures never_falls { P.faults pages.old ≤ P.faults pages.new }
    ensures fault { IsErrOf result ReadEnd.Fault →
        Rose (P.faults pages.old) (P.faults pages.new) ⊎ Lacks (P.told pages.old) name.now }
    ensures uncounted { (¬ IsErrOf result ReadEnd.Fault) ⊎ Lacks (P.told pages.old) name.now →
        P.faults pages.new ≡ P.faults pages.old }
    ensures lacking { Lacks (P.told pages.old) name.now →
        IsErrOf result ReadEnd.Fault ⊎ IsErrOf result ReadEnd.Memory }
    ensures too_long { IsErrOf result ReadEnd.TooLong →
        IsTooLong (P.told pages.old) name.now most_page }
    ensures exceeding { Exceeds (P.told pages.old) name.now most_page →
        IsErrOf result ReadEnd.TooLong ⊎ IsErrOf result ReadEnd.Memory
        ⊎ Rose (P.faults pages.old) (P.faults pages.new) }
    ensures within { IfOk result (λ bytes. length bytes.items ≤ most_page) }
    ensures bytes { IfOk result (λ bytes. Has (P.told pages.old) name.now bytes.items) }
    ensures done { OnOk result (IsDone (P.left pages.new)) }
    ensures ends { OnErr result (LeavesEnd (P.told pages.old) name.now (P.left pages.new)) }
{
    match pages.begin(name) {
        Ok(()) => {}
        Err(BeginFault::Failed) => return Err(ReadEnd::Fault),
        Err(BeginFault::Memory) => return Err(ReadEnd::Memory),
    }
    let mut bytes = Vec::new(alloc);
    let mut buffer = [0u8; BUFFER_SIZE];
    while bytes.len() <= PAGE_LIMIT {
        let Ok(n) = pages.read(&mut buffer) else {
            return Err(ReadEnd::Fault);
        };
        if n == 0 {
            return Ok(bytes);
        }
        bytes.extend_from_slice(&buffer[..n])?;
    }
    Err(ReadEnd::TooLong)
}
