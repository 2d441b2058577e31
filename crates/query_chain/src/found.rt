//! The texts that a search finds.
ghost use Rattle.std.specs.Prelude.{◌≢◌, ◌+◌, ◌<◌, [], ◌∷◌, OnOk, IsErrOf};
ghost use Rattle.std.specs.Str.{chars};
ghost use Rattle.query_chain.specs.inner.Found.{IsNew, Adds};

use crate::limits::{Limits, Stop};
use std::alloc::Global;
use text_base::Txt;

/// The texts that were found so far, as long as they have few enough bytes together, and their number.
#[derive(Drop)]
pub struct Found {
    pub texts: Vec<Txt>,
    pub count: usize,
    /// How many bytes the texts have.
    pub bytes: usize,
    /// Whether more bytes were found than there may be.
    pub is_over: bool,
}

impl Found {
    /// Nothing yet.
    pub fn new(alloc: Global) -> Found
        ensures { IsNew result }
    {
        Found {
            texts: Vec::new(alloc),
            count: 0,
            bytes: 0,
            is_over: false,
        }
    }

    /// One more text. It is Selection where there are too many.
    pub fn add(&mut self, alloc: Global, limits: Limits, text: &str) -> Result<(), Stop>
        ensures ok { OnOk result (Adds limits self.old self.new (chars text.now ∷ [])) }
        ensures many { IsErrOf result Stop.Selection → limits.items < self.old.count + 1 }
        ensures output { result ≢ Err Stop.Output }
    {
        if self.count >= limits.items {
            return Err(Stop::Selection);
        }
        self.count += 1;
        if self.is_over {
            return Ok(());
        }
        if text.len() > limits.bytes.saturating_sub(self.bytes) {
            self.is_over = true;
            return Ok(());
        }
        self.texts.push(Txt::of(alloc, text)?)?;
        self.bytes += text.len();
        Ok(())
    }
}
