//! The tests under their names.
ghost use Rattle.std.specs.Prelude.{◌≡◌, Bool, IfOk};
ghost use Rattle.programs.specs.Stored as stored;
ghost use Rattle.test_registry.specs.Meets.{meets};
ghost use Rattle.test_registry.specs.View.{known};

use std::alloc::Global;
use test_registry::{TestKind, Tests};
use text_base::NoMemory;

/// A test of two texts.
pub type Test = Box<dyn Fn(&str, &str) -> bool>;

/// Two numbers are near each other that differ by at most this.
pub const NEAR: u32 = 100;

/// The tests under the names `same`, `ends-with`, `has-word` and `near`, in this order. A program makes them of the functions of
/// `test_registry`, since a box of a function is proved where it is made.
pub fn program_tests(
    alloc: Global,
    same: Test,
    ends: Test,
    word: Test,
    near: Test,
) -> Result<Tests, NoMemory>
    requires same_callable { IsAlwaysCallable same }
    requires same_answers { (a b : _) (r : Bool) → post same a b r → r ≡ meets TestKind.SameFolded a.now b.now }
    requires ends_callable { IsAlwaysCallable ends }
    requires ends_answers { (a b : _) (r : Bool) → post ends a b r → r ≡ meets TestKind.EndsWith a.now b.now }
    requires word_callable { IsAlwaysCallable word }
    requires word_answers { (a b : _) (r : Bool) → post word a b r → r ≡ meets TestKind.HasWord a.now b.now }
    requires near_callable { IsAlwaysCallable near }
    requires near_answers { (a b : _) (r : Bool) → post near a b r → r ≡ meets (TestKind.Near 100) a.now b.now }
    ensures { IfOk result (λ tests. known tests ≡ stored.program_tests) }
{
    let mut tests = Tests::new(alloc);
    let Ok(()) = tests.add("same", TestKind::SameFolded, same) else {
        return Err(NoMemory);
    };
    let Ok(()) = tests.add("ends-with", TestKind::EndsWith, ends) else {
        return Err(NoMemory);
    };
    let Ok(()) = tests.add("has-word", TestKind::HasWord, word) else {
        return Err(NoMemory);
    };
    let Ok(()) = tests.add("near", TestKind::Near(NEAR), near) else {
        return Err(NoMemory);
    };
    Ok(tests)
}
