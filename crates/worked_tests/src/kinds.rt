//! The names and kinds of the program's tests, and what a test of a kind answers.
ghost use Rattle.std.specs.Prelude.{◌≡◌};
ghost use Rattle.test_registry.specs.Meets.{meets};

use test_registry::{TestKind, ends_with, has_word, near, same_folded};

/// The names and kinds of the tests of the program.
pub const STORED: [(&str, TestKind); 4] = [
    ("same", TestKind::SameFolded),
    ("ends-with", TestKind::EndsWith),
    ("has-word", TestKind::HasWord),
    ("near", TestKind::Near(100)),
];

/// What a test of the kind answers on two texts.
pub fn answer(kind: TestKind, a: &str, b: &str) -> bool
    ensures { result ≡ meets kind a.now b.now }
{
    match kind {
        TestKind::SameFolded => same_folded(a, b),
        TestKind::EndsWith => ends_with(a, b),
        TestKind::HasWord => has_word(a, b),
        TestKind::Near(most) => near(most, a, b),
    }
}
