//! Who answers for stored tests.
ghost use Rattle.std.specs.Prelude.{◌≡◌};
ghost use Rattle.test_registry.specs.Kinds.{HasKind};
ghost use Rattle.test_registry.specs.Meets.{meets};

use crate::kinds::TestKind;
use crate::registry::Tests;

/// What may be asked the stored tests of some kinds. Functions that lead to themselves through one another take it as a
/// type parameter: `Tests` itself can be no parameter there.
pub trait Asks {
    ghost use Rattle.test_registry.specs.Names.{Known};

    ghost kinds: { Self → Known };

    /// What the first stored test of the kind answers. It takes no memory.
    fn asked(&self, kind: TestKind, a: &str, b: &str) -> bool
        requires { HasKind kind (kinds self.now) }
        ensures { result ≡ meets kind a.now b.now };
}

impl Asks for Tests {
    ghost use Rattle.test_registry.specs.View.{known};

    ghost kinds = { λ t. known t };

    fn asked(&self, kind: TestKind, a: &str, b: &str) -> bool {
        self.ask(kind, a, b)
    }
}
