//! The brackets that are open in a text.
ghost use Rattle.std.specs.Prelude.{◌≡◌, ◌∷◌, ◌++◌, [], drop, IfOk, OnOk, string_bytes};
ghost use Rattle.refusal_places.specs.inner.Brackets.{byte_of};

use std::alloc::Global;
use std::marker::Model;
use text_base::{NoMemory, Seq};

/// A kind of brackets.
#[derive(Clone, Copy)]
pub enum Bracket {
    Round,
    Square,
}

/// The brackets that are open, the innermost last. Contracts see what closes them, which is the
/// other way round.
#[derive(Drop)]
pub struct Brackets {
    open: Seq<Bracket>,
}

impl Model for Brackets {
    ghost use Rattle.std.specs.Prelude.{List, ℕ, map, reverse};
    ghost use Rattle.refusal_places.specs.inner.Brackets.{byte_of};

    ghost Value = { List ℕ };

    ghost view = { λ b. map byte_of (reverse b.open) };
}

/// What closes a bracket.
fn closing(bracket: Bracket) -> &'static str
    ensures { result.now ≡ byte_of bracket ∷ [] }
{
    match bracket {
        Bracket::Round => ")",
        Bracket::Square => "]",
    }
}

impl Brackets {
    /// No bracket is open.
    pub fn new(alloc: Global) -> Brackets
        ensures { result ≡ [] }
    {
        Brackets {
            open: Seq::new(alloc),
        }
    }

    /// Opens one in the innermost.
    pub fn open(&mut self, bracket: Bracket) -> Result<(), NoMemory>
        ensures { OnOk result (self.new ≡ byte_of bracket ∷ self.old) }
    {
        self.open.push(bracket)?;
        Ok(())
    }

    /// Closes the innermost, if one is open.
    pub fn close(&mut self)
        ensures { self.new ≡ drop 1 self.old }
    {
        self.open.pop();
    }

    /// Appends what closes all of them.
    pub fn push_closing(&self, out: &mut String) -> Result<(), NoMemory>
        ensures { OnOk result (string_bytes out.new ≡ string_bytes out.old ++ self.now) }
    {
        let open = self.open.as_slice();
        let mut left = open.len();
        while left > 0 {
            left -= 1;
            match out.push_str(closing(open[left])) {
                Ok(()) => {}
                Err(_) => return Err(NoMemory),
            }
        }
        Ok(())
    }
}
