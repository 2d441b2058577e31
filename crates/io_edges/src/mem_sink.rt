ghost use Rattle.std.specs.Prelude.{◌≡◌, ◌⊎◌, ◌≤◌, ◌<◌, ◌↔◌, [], Some, length, min, take, Contains, vec_len, vec_capacity, IfOk, OnOk, IsErr, OnErr};
ghost use Rattle.io_edges.specs.Counts.{Rose, next_count};
ghost use Rattle.io_edges.specs.Sink.{grown};

use crate::{Failed, Sink};
use std::alloc::Global;
use text_base::{NoMemory, Seq};

/// A sink in memory, which tells its bytes and fails at the writes whose numbers are given and where
/// no room is left. The writes are numbered from 1.
#[derive(Drop)]
pub struct MemSink {
    bytes: Vec<u8>,
    room: usize,
    most: usize,
    fails: Seq<u64>,
    writes: u64,
    faults: u64,
    ghost most_ok: { 0 < most },
    ghost room_ok: { vec_len bytes ≤ room },
    ghost memory_ok: { room ≤ vec_capacity bytes },
}

impl MemSink {
    ghost use Rattle.io_edges.specs.Room.{room_of, most_of, fails_of, writes_of};

    /// A sink with room for `room` bytes, of which a write takes at most `most`. All of its memory
    /// is taken here, and the only error is that there is none.
    pub fn new(
        alloc: Global,
        room: usize,
        most: usize,
        fails: Seq<u64>,
    ) -> Result<MemSink, NoMemory>
        requires { 0 < most }
        ensures taken { IfOk result (λ s. ⟦<MemSink as Sink>⟧.taken s ≡ Some []) }
        ensures faults { IfOk result (λ s. ⟦<MemSink as Sink>⟧.faults s ≡ 0) }
        ensures room { IfOk result (λ s. room_of s ≡ room) }
        ensures most { IfOk result (λ s. most_of s ≡ most) }
        ensures fails { IfOk result (λ s. fails_of s ≡ fails) }
        ensures writes { IfOk result (λ s. writes_of s ≡ 0) }
    {
        let bytes = Vec::with_capacity(alloc, room)?;
        Ok(MemSink {
            bytes,
            room,
            most,
            fails,
            writes: 0,
            faults: 0,
        })
    }

    /// The bytes taken so far.
    pub fn bytes(&self) -> &[u8]
        ensures { ⟦<MemSink as Sink>⟧.taken self.now ≡ Some result.now }
    {
        self.bytes.as_slice()
    }
}

impl Sink for MemSink {
    ghost use Rattle.io_edges.specs.Room.{taken_by, faults_of, free_room, most_of, fails_of, number_of, WritesOnce};

    ghost taken = { λ s. taken_by s };

    ghost faults = { λ s. faults_of s };

    fn write(&mut self, bytes: &[u8]) -> Result<usize, Failed>
        ensures never_falls { faults_of self.old ≤ faults_of self.new }
        ensures failed { OnErr result (Rose (faults_of self.old) (faults_of self.new)) }
        ensures uncounted { OnOk result (faults_of self.new ≡ faults_of self.old) }
        ensures untaken { OnErr result (taken_by self.new ≡ taken_by self.old) }
        ensures within { IfOk result (λ n. n ≤ length bytes.now) }
        ensures some { IfOk result (λ n. 0 < length bytes.now → 0 < n) }
        ensures taken { IfOk result (λ n.
            taken_by self.new ≡ grown (taken_by self.old) (take n bytes.now)) }

        // Exactly a write whose number is given fails, or one with bytes but no room, and it is counted.
        ensures fails { IsErr result ↔ (Contains (fails_of self.old) (number_of self.old)
            ⊎ ((0 < length bytes.now) × (free_room self.old ≡ 0))) }
        ensures counted { OnErr result (faults_of self.new ≡ next_count (faults_of self.old)) }
        ensures takes { IfOk result (λ n.
            n ≡ min (min (most_of self.old) (free_room self.old)) (length bytes.now)) }
        ensures writes { WritesOnce self.old self.new }
    {
        self.writes = self.writes.saturating_add(1);
        let room = self.room - self.bytes.len();
        if self.fails.as_slice().contains(&self.writes) {
            self.faults = self.faults.saturating_add(1);
            return Err(Failed);
        }
        if room == 0 && !bytes.is_empty() {
            self.faults = self.faults.saturating_add(1);
            return Err(Failed);
        }
        let n = self.most.min(room).min(bytes.len());
        self.bytes.extend_from_slice(bytes.split_at(n).0).unwrap();
        Ok(n)
    }
}
