ghost use Rattle.std.specs.Prelude.{◌≡◌, None};

use crate::{Failed, Sink, TRIES};
use std::io;
use std::io::{ErrorKind, Write};

/// Standard output as a sink. It tells nothing of what it took: what the system does with it is trusted.
/// A write that fails or takes nothing is a counted fault; one that a signal ended before any byte was
/// taken is tried again, a thousand times at most.
#[derive(Drop)]
pub struct StdoutSink<'r, R: Print> {
    rt: &'r R,
    faults: u64,
}

impl<'r, R: Print> StdoutSink<'r, R> {
    /// Nothing is written.
    pub fn new(rt: &'r R) -> StdoutSink<'r, R>
        ensures taken { ⟦<StdoutSink<'r, R> as Sink>⟧.taken result ≡ None }
        ensures faults { ⟦<StdoutSink<'r, R> as Sink>⟧.faults result ≡ 0 }
    {
        StdoutSink { rt, faults: 0 }
    }
}

impl<'r, R: Print> Sink for StdoutSink<'r, R> {
    ghost taken = { λ _. None };

    ghost faults = { λ s. s.faults };

    fn write(&mut self, bytes: &[u8]) -> Result<usize, Failed> {
        if bytes.is_empty() {
            return Ok(0);
        }
        for _ in 0..TRIES {
            match io::writer(self.rt).write(bytes) {
                Ok(0) => break,
                Ok(n) => return Ok(n),
                Err(error) => {
                    if error.kind() != ErrorKind::Interrupted {
                        break;
                    }
                }
            }
        }
        self.faults = self.faults.saturating_add(1);
        Err(Failed)
    }
}
