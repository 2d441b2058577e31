//! Patterns that are built.
ghost use Rattle.std.specs.Prelude.{◌≡◌, IfOk, IsErrOf, None};
ghost use Rattle.std.specs.Str.{chars};
ghost use Rattle.regex.specs.Strings.{regex_source};
ghost use Rattle.query_chain.specs.Patterns.{pattern_of};
ghost use Rattle.query_chain.specs.inner.Built.{IsBuilt};

use regex::{Error, Regex};
use std::alloc::{AllocFailed, Global};
use text_base::NoMemory;

/// Why a pattern was not built.
#[derive(Clone, Copy, Debug, PartialEq, Eq)]
pub enum BuildFault {
    /// It is outside the grammar, or nests too deep.
    Pattern,
    /// No memory was found, or the pattern takes more of it than `regex` allows.
    Memory,
}

impl From<NoMemory> for BuildFault {
    ghost use Rattle.std.specs.Prelude.{◌≡◌};
    ghost use Rattle.query_chain.specs.declared.pattern.BuildFault.TheVariants.{Memory};

    ghost from_gives = { λ _ e. e ≡ Memory };

    fn from(_: NoMemory) -> Self {
        BuildFault::Memory
    }
}

impl<T: Drop> From<AllocFailed<T>> for BuildFault {
    ghost use Rattle.std.specs.Prelude.{◌≡◌};
    ghost use Rattle.query_chain.specs.declared.pattern.BuildFault.TheVariants.{Memory};

    ghost from_gives = { λ _ e. e ≡ Memory };

    fn from(_: AllocFailed<T>) -> Self {
        BuildFault::Memory
    }
}

/// Builds a pattern.
pub fn build(alloc: Global, source: &str) -> Result<Regex, BuildFault>
    ensures source { IfOk result (λ r. regex_source r ≡ source.now) }
    ensures built { IfOk result (IsBuilt (chars source.now)) }
    ensures refused { IsErrOf result BuildFault.Pattern → pattern_of (chars source.now) ≡ None }
{
    match Regex::new(alloc, source) {
        Ok(regex) => Ok(regex),
        Err(Error::Syntax(_)) => Err(BuildFault::Pattern),
        Err(_) => Err(BuildFault::Memory),
    }
}
