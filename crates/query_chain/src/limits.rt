use std::alloc::{AllocError, AllocFailed};
use text_base::NoMemory;

/// How much a step may give.
#[derive(Clone, Copy, Debug)]
pub struct Limits {
    /// The most items.
    pub items: usize,
    /// The most bytes that its texts have together.
    pub bytes: usize,
}

/// Why the steps of a field were not run to their end.
#[derive(Clone, Copy, Debug, PartialEq, Eq)]
pub enum Stop {
    /// A step gives too many items.
    Selection,
    /// Texts have too many bytes.
    Output,
    /// No memory was found.
    Memory,
}

impl From<NoMemory> for Stop {
    ghost use Rattle.std.specs.Prelude.{◌≡◌};
    ghost use Rattle.query_chain.specs.declared.limits.Stop.TheVariants.{Memory};

    ghost from_gives = { λ _ e. e ≡ Memory };

    fn from(_: NoMemory) -> Self {
        Stop::Memory
    }
}

impl From<AllocError> for Stop {
    ghost use Rattle.std.specs.Prelude.{◌≡◌};
    ghost use Rattle.query_chain.specs.declared.limits.Stop.TheVariants.{Memory};

    ghost from_gives = { λ _ e. e ≡ Memory };

    fn from(_: AllocError) -> Self {
        Stop::Memory
    }
}

impl<T: Drop> From<AllocFailed<T>> for Stop {
    ghost use Rattle.std.specs.Prelude.{◌≡◌};
    ghost use Rattle.query_chain.specs.declared.limits.Stop.TheVariants.{Memory};

    ghost from_gives = { λ _ e. e ≡ Memory };

    fn from(_: AllocFailed<T>) -> Self {
        Stop::Memory
    }
}
