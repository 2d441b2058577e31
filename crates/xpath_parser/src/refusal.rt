ghost use Rattle.std.specs.Prelude.{◌≡◌};
ghost use Rattle.xpath_parser.specs.declared.refusal.Refusal.TheVariants.{Memory};

use std::alloc::{AllocError, AllocFailed};
use text_base::NoMemory;

/// Why terms are not read.
#[derive(Clone, Copy, Debug, PartialEq, Eq)]
pub enum Refusal {
    Memory,
    /// The grammar does not read them.
    Syntax,
}

impl From<AllocError> for Refusal {
    ghost from_gives = { λ _ e. e ≡ Memory };

    fn from(_: AllocError) -> Refusal {
        Refusal::Memory
    }
}

impl<T: Drop> From<AllocFailed<T>> for Refusal {
    ghost from_gives = { λ _ e. e ≡ Memory };

    fn from(_: AllocFailed<T>) -> Refusal {
        Refusal::Memory
    }
}

impl From<NoMemory> for Refusal {
    ghost from_gives = { λ _ e. e ≡ Memory };

    fn from(_: NoMemory) -> Refusal {
        Refusal::Memory
    }
}
