ghost use Rattle.std.specs.Prelude.{◌≡◌, ◌⊎◌, ◌≤◌, ◌<◌, ◌↔◌, [], Some, length, min, take, drop, option_map, IfOk, IfSome, OnOk, OnErr, IsOk, IsErr, IsErrOf};
ghost use Rattle.io_edges.specs.Counts.{Rose, Grows};
ghost use Rattle.io_edges.specs.Pages.{Lacks, Opens, IsDone};
ghost use Rattle.io_edges.specs.Files.{told_of};

use crate::page_file::PageFile;
use crate::shelf::Shelf;
use crate::{BeginFault, Failed, Pages};
use text_base::Seq;

/// Pages in memory, which tell their bytes and never count a fault.
#[derive(Drop)]
pub struct SurePages {
    shelf: Shelf,
    most: usize,
    begun: u64,
    ghost most_ok: { 0 < most },
}

impl SurePages {
    ghost use Rattle.io_edges.specs.Sure.{most_of};

    /// Pages of which a read gives at most `most` bytes. The first of two files of one name counts.
    pub fn new(files: Seq<PageFile>, most: usize) -> SurePages
        requires { 0 < most }
        ensures told { ⟦<SurePages as Pages>⟧.told result ≡ Some (told_of files) }
        ensures left { ⟦<SurePages as Pages>⟧.left result ≡ Some [] }
        ensures faults { ⟦<SurePages as Pages>⟧.faults result ≡ 0 }
        ensures begun { ⟦<SurePages as Pages>⟧.begun result ≡ 0 }
        ensures most { most_of result ≡ most }
    {
        SurePages {
            shelf: Shelf::new(files),
            most,
            begun: 0,
        }
    }
}

impl Pages for SurePages {
    ghost use Rattle.io_edges.specs.Sure.{told_by, left_of, faults_of, begun_of, most_of};

    ghost told = { λ m. told_by m };

    ghost left = { λ m. left_of m };

    ghost faults = { λ m. faults_of m };

    ghost begun = { λ m. begun_of m };

    fn begin(&mut self, name: &str) -> Result<(), BeginFault>
        ensures told { told_by self.new ≡ told_by self.old }
        ensures begun { Grows (begun_of self.old) 1 (begun_of self.new) }
        ensures never_falls { faults_of self.old ≤ faults_of self.new }
        ensures failed { IsErrOf result BeginFault.Failed →
            Rose (faults_of self.old) (faults_of self.new) ⊎ Lacks (told_by self.old) name.now }
        ensures lacking { Lacks (told_by self.old) name.now →
            (faults_of self.new ≡ faults_of self.old) × IsErr result }
        ensures memory { IsErrOf result BeginFault.Memory → faults_of self.new ≡ faults_of self.old }
        ensures uncounted { OnOk result (faults_of self.new ≡ faults_of self.old) }
        ensures opened { OnOk result (Opens (told_by self.old) name.now (left_of self.new)) }
        ensures refused { OnErr result (IsDone (left_of self.new)) }

        // Exactly a name that is not there fails.
        ensures fails { IsErr result ↔ Lacks (told_by self.old) name.now }
        ensures no_memory { ¬ IsErrOf result BeginFault.Memory }
        ensures most { most_of self.new ≡ most_of self.old }
    {
        self.begun = self.begun.saturating_add(1);
        if self.shelf.begin(name) {
            Ok(())
        } else {
            Err(BeginFault::Failed)
        }
    }

    fn read(&mut self, into: &mut [u8]) -> Result<usize, Failed>
        ensures told { told_by self.new ≡ told_by self.old }
        ensures begun { begun_of self.new ≡ begun_of self.old }
        ensures never_falls { faults_of self.old ≤ faults_of self.new }
        ensures failed { OnErr result (Rose (faults_of self.old) (faults_of self.new)) }
        ensures uncounted { OnOk result (faults_of self.new ≡ faults_of self.old) }
        ensures unread { OnErr result (left_of self.new ≡ left_of self.old) }
        ensures within { IfOk result (λ n. n ≤ length into.new) }
        ensures bytes { IfOk result (λ n. IfSome (left_of self.old) (λ bytes.
            take n into.new ≡ take n bytes)) }
        ensures left { IfOk result (λ n. left_of self.new ≡ option_map (drop n) (left_of self.old)) }
        ensures ends { IfOk result (λ n. IfSome (left_of self.old) (λ bytes.
            0 < length into.old → (n ≡ 0 ↔ (bytes ≡ [])))) }

        // No call fails, and each gives as many bytes as it may.
        ensures ok { IsOk result }
        ensures gives { IfOk result (λ n. IfSome (left_of self.old) (λ bytes.
            n ≡ min (min (most_of self.old) (length into.old)) (length bytes))) }
        ensures most { most_of self.new ≡ most_of self.old }
    {
        Ok(self.shelf.read(self.most, into))
    }
}
