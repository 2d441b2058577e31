ghost use Rattle.std.specs.Prelude.{◌≡◌, ◌≤◌, ◌<◌, None, length, take, IfOk, OnOk, OnErr};
ghost use Rattle.io_edges.specs.Counts.{Rose};
ghost use Rattle.io_edges.specs.Sink.{grown};

use crate::{Failed, Sink};

/// A sink that takes each piece whole, keeps nothing and tells nothing.
#[derive(Clone, Copy, Debug, PartialEq, Eq)]
pub struct NullSink;

impl NullSink {
    /// The sink.
    pub fn new() -> NullSink
        ensures taken { ⟦<NullSink as Sink>⟧.taken result ≡ None }
        ensures faults { ⟦<NullSink as Sink>⟧.faults result ≡ 0 }
    {
        NullSink
    }
}

impl Sink for NullSink {
    ghost taken = { λ _. None };

    ghost faults = { λ _. 0 };

    fn write(&mut self, bytes: &[u8]) -> Result<usize, Failed>
        ensures never_falls { ⟦<NullSink as Sink>⟧.faults self.old ≤ ⟦<NullSink as Sink>⟧.faults self.new }
        ensures failed { OnErr result
            (Rose (⟦<NullSink as Sink>⟧.faults self.old) (⟦<NullSink as Sink>⟧.faults self.new)) }
        ensures uncounted { OnOk result
            (⟦<NullSink as Sink>⟧.faults self.new ≡ ⟦<NullSink as Sink>⟧.faults self.old) }
        ensures untaken { OnErr result
            (⟦<NullSink as Sink>⟧.taken self.new ≡ ⟦<NullSink as Sink>⟧.taken self.old) }
        ensures within { IfOk result (λ n. n ≤ length bytes.now) }
        ensures some { IfOk result (λ n. 0 < length bytes.now → 0 < n) }
        ensures taken { IfOk result (λ n. ⟦<NullSink as Sink>⟧.taken self.new
            ≡ grown (⟦<NullSink as Sink>⟧.taken self.old) (take n bytes.now)) }

        // The whole piece is taken.
        ensures whole { result ≡ Ok (length bytes.now) }
    {
        Ok(bytes.len())
    }
}
