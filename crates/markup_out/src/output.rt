//! A text that grows up to a limit.
ghost use Rattle.std.specs.Prelude.{◌≡◌, [], true, false, encode_utf8, OnOk, MatchOption};
ghost use Rattle.markup_out.specs.inner.Adding.{AddsBytes, Holds, limit_of};

use std::alloc::Global;
use text_base::NoMemory;

/// What was written, of which only its being too long is kept where it has more bytes than the limit.
#[derive(Drop)]
pub struct Output {
    text: String,
    /// How many bytes more the limit allows.
    left: usize,
    over: bool,
}

impl Output {
    /// Nothing was written yet. It takes no memory.
    pub fn new(alloc: Global, limit: usize) -> Output
        ensures holds { Holds result [] }
        ensures limit { limit_of result ≡ limit }
    {
        Output {
            text: String::new(alloc),
            left: limit,
            over: false,
        }
    }

    /// Whether more was written than the limit allows.
    pub fn is_over(&self) -> bool
        ensures { result ≡ self.now.over }
    {
        self.over
    }

    /// Writes a text.
    pub fn push(&mut self, text: &str) -> Result<(), NoMemory>
        ensures { OnOk result (AddsBytes self.old self.new text.now) }
    {
        if self.over {
            return Ok(());
        }
        if text.len() > self.left {
            self.over = true;
            return Ok(());
        }
        self.text.push_str(text)?;
        self.left -= text.len();
        Ok(())
    }

    /// Writes a character.
    pub fn push_char(&mut self, c: char) -> Result<(), NoMemory>
        ensures { OnOk result (AddsBytes self.old self.new (encode_utf8 c)) }
    {
        if self.over {
            return Ok(());
        }
        let len = c.len_utf8();
        if len > self.left {
            self.over = true;
            return Ok(());
        }
        self.text.push(c)?;
        self.left -= len;
        Ok(())
    }

    /// What was written, or None where it has more bytes than the limit.
    pub fn finish(self) -> Option<String>
        ensures { MatchOption result (self.over ≡ true) (λ s. (self.over ≡ false) × (s ≡ self.text)) }
    {
        if self.over { None } else { Some(self.text) }
    }
}
