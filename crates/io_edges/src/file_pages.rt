ghost use Rattle.std.specs.Prelude.{◌≡◌, None};

use crate::{BeginFault, Failed, Pages, TRIES};
use std::fs;
use std::io::{ErrorKind, Read};
use std::rt::Files;

/// Pages that are files, named by their paths. They tell nothing of their bytes: what the system gives
/// for a file is trusted. A file that can't be opened or read and a folder are counted faults; an open
/// without memory is `BeginFault::Memory`. A read that a signal ended before any byte was read is tried
/// again, a thousand times at most.
#[derive(Drop)]
pub struct FilePages<'r, R: Files> {
    rt: &'r R,
    file: Option<R::File>,
    faults: u64,
    begun: u64,
}

impl<'r, R: Files> FilePages<'r, R> {
    /// No page is begun.
    pub fn new(rt: &'r R) -> FilePages<'r, R>
        ensures told { ⟦<FilePages<'r, R> as Pages>⟧.told result ≡ None }
        ensures left { ⟦<FilePages<'r, R> as Pages>⟧.left result ≡ None }
        ensures faults { ⟦<FilePages<'r, R> as Pages>⟧.faults result ≡ 0 }
        ensures begun { ⟦<FilePages<'r, R> as Pages>⟧.begun result ≡ 0 }
    {
        FilePages {
            rt,
            file: None,
            faults: 0,
            begun: 0,
        }
    }
}

impl<'r, R: Files> Pages for FilePages<'r, R> {
    ghost told = { λ _. None };

    ghost left = { λ _. None };

    ghost faults = { λ p. p.faults };

    ghost begun = { λ p. p.begun };

    fn begin(&mut self, name: &str) -> Result<(), BeginFault> {
        self.begun = self.begun.saturating_add(1);
        self.file = None;
        match fs::open(self.rt, name) {
            Ok(file) => {
                self.file = Some(file);
                Ok(())
            }
            Err(error) => {
                if error.kind() == ErrorKind::OutOfMemory {
                    return Err(BeginFault::Memory);
                }
                self.faults = self.faults.saturating_add(1);
                Err(BeginFault::Failed)
            }
        }
    }

    fn read(&mut self, into: &mut [u8]) -> Result<usize, Failed> {
        let Some(file) = &mut self.file else {
            return Ok(0);
        };
        for _ in 0..TRIES {
            match file.read(into) {
                Ok(n) => return Ok(n),
                Err(error) => {
                    if error.kind() != ErrorKind::Interrupted {
                        break;
                    }
                }
            }
        }
        self.faults = self.faults.saturating_add(1);
        Err(Failed)
    }
}
