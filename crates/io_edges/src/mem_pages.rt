ghost use Rattle.std.specs.Prelude.{◌≡◌, ◌⊎◌, ◌≤◌, ◌<◌, ◌↔◌, [], Some, length, min, take, drop, option_map, Contains, IfOk, IfSome, OnOk, OnErr, IsErr, IsErrOf};
ghost use Rattle.io_edges.specs.Counts.{Rose, Grows, next_count};
ghost use Rattle.io_edges.specs.Pages.{Lacks, Opens, IsDone};
ghost use Rattle.io_edges.specs.Files.{told_of};

use crate::page_file::PageFile;
use crate::shelf::Shelf;
use crate::{BeginFault, Failed, Pages};
use text_base::Seq;

/// Pages in memory, which tell their bytes and fail at the calls whose numbers are given. The calls
/// of `begin` and `read` are numbered together, from 1.
#[derive(Drop)]
pub struct MemPages {
    shelf: Shelf,
    most: usize,
    fails: Seq<u64>,
    calls: u64,
    faults: u64,
    begun: u64,
    ghost most_ok: { 0 < most },
}

impl MemPages {
    ghost use Rattle.io_edges.specs.Mem.{most_of, fails_of, calls_of};

    /// Pages of which a read gives at most `most` bytes. The first of two files of one name counts.
    pub fn new(files: Seq<PageFile>, most: usize, fails: Seq<u64>) -> MemPages
        requires { 0 < most }
        ensures told { ⟦<MemPages as Pages>⟧.told result ≡ Some (told_of files) }
        ensures left { ⟦<MemPages as Pages>⟧.left result ≡ Some [] }
        ensures faults { ⟦<MemPages as Pages>⟧.faults result ≡ 0 }
        ensures begun { ⟦<MemPages as Pages>⟧.begun result ≡ 0 }
        ensures most { most_of result ≡ most }
        ensures fails { fails_of result ≡ fails }
        ensures calls { calls_of result ≡ 0 }
    {
        MemPages {
            shelf: Shelf::new(files),
            most,
            fails,
            calls: 0,
            faults: 0,
            begun: 0,
        }
    }
}

impl Pages for MemPages {
    ghost use Rattle.io_edges.specs.Mem.{told_by, left_of, faults_of, begun_of, most_of, fails_of, number_of, CallsOnce};

    ghost told = { λ m. told_by m };

    ghost left = { λ m. left_of m };

    ghost faults = { λ m. faults_of m };

    ghost begun = { λ m. begun_of m };

    fn begin(&mut self, name: &str) -> Result<(), BeginFault>
        ensures told { told_by self.new ≡ told_by self.old }
        ensures begun { Grows (begun_of self.old) 1 (begun_of self.new) }
        ensures never_falls { faults_of self.old ≤ faults_of self.new }
        ensures failed { IsErrOf result BeginFault.Failed →
            Rose (faults_of self.old) (faults_of self.new) ⊎ Lacks (told_by self.old) name.now }
        ensures lacking { Lacks (told_by self.old) name.now →
            (faults_of self.new ≡ faults_of self.old) × IsErr result }
        ensures memory { IsErrOf result BeginFault.Memory → faults_of self.new ≡ faults_of self.old }
        ensures uncounted { OnOk result (faults_of self.new ≡ faults_of self.old) }
        ensures opened { OnOk result (Opens (told_by self.old) name.now (left_of self.new)) }
        ensures refused { OnErr result (IsDone (left_of self.new)) }

        // Exactly a name that is not there and a call whose number is given fail, and the second
        // is counted.
        ensures fails { IsErr result ↔
            (Lacks (told_by self.old) name.now ⊎ Contains (fails_of self.old) (number_of self.old)) }
        ensures no_memory { ¬ IsErrOf result BeginFault.Memory }
        ensures counted { OnErr result
            (Lacks (told_by self.old) name.now ⊎ (faults_of self.new ≡ next_count (faults_of self.old))) }
        ensures calls { CallsOnce self.old self.new }
    {
        self.calls = self.calls.saturating_add(1);
        self.begun = self.begun.saturating_add(1);
        if !self.shelf.begin(name) {
            return Err(BeginFault::Failed);
        }
        if self.fails.as_slice().contains(&self.calls) {
            self.shelf.close();
            self.faults = self.faults.saturating_add(1);
            return Err(BeginFault::Failed);
        }
        Ok(())
    }

    fn read(&mut self, into: &mut [u8]) -> Result<usize, Failed>
        ensures told { told_by self.new ≡ told_by self.old }
        ensures begun { begun_of self.new ≡ begun_of self.old }
        ensures never_falls { faults_of self.old ≤ faults_of self.new }
        ensures failed { OnErr result (Rose (faults_of self.old) (faults_of self.new)) }
        ensures uncounted { OnOk result (faults_of self.new ≡ faults_of self.old) }
        ensures unread { OnErr result (left_of self.new ≡ left_of self.old) }
        ensures within { IfOk result (λ n. n ≤ length into.new) }
        ensures bytes { IfOk result (λ n. IfSome (left_of self.old) (λ bytes.
            take n into.new ≡ take n bytes)) }
        ensures left { IfOk result (λ n. left_of self.new ≡ option_map (drop n) (left_of self.old)) }
        ensures ends { IfOk result (λ n. IfSome (left_of self.old) (λ bytes.
            0 < length into.old → (n ≡ 0 ↔ (bytes ≡ [])))) }

        // Exactly a call whose number is given fails and is counted, and any other gives as many
        // bytes as it may.
        ensures fails { IsErr result ↔ Contains (fails_of self.old) (number_of self.old) }
        ensures counted { OnErr result (faults_of self.new ≡ next_count (faults_of self.old)) }
        ensures most { IfOk result (λ n. IfSome (left_of self.old) (λ bytes.
            n ≡ min (min (most_of self.old) (length into.old)) (length bytes))) }
        ensures calls { CallsOnce self.old self.new }
    {
        self.calls = self.calls.saturating_add(1);
        if self.fails.as_slice().contains(&self.calls) {
            self.faults = self.faults.saturating_add(1);
            return Err(Failed);
        }
        Ok(self.shelf.read(self.most, into))
    }
}
