//! The longest beginning of a text that goes on.
ghost use Rattle.std.specs.Prelude.{◌≡◌, ◌↔◌, ◌≤◌, take, length, string_bytes, IfOk, IsTrue, ◌++◌};
ghost use Rattle.std.specs.List.{Any};
ghost use Rattle.text_base.specs.Names.{texts};
ghost use Rattle.text_base.specs.Text.{IsPlace};
ghost use Rattle.refusal_places.specs.Beginnings.{IsLongest};

use std::alloc::Global;
use text_base::{NoMemory, part};

/// The most bytes of a text of which a place is told.
pub const MOST_PLACED: usize = 16_384;

/// A language of texts.
pub trait Language {
    ghost use Rattle.std.specs.Prelude.{ℕ, List, IfOk, IsTrue, ◌↔◌};

    ghost goes: { Self → List ℕ → List ℕ → Type 0 };

    /// Whether a beginning goes on by an ending.
    fn goes_by(&self, alloc: Global, beginning: &str, ending: &str) -> Result<bool, NoMemory>
        ensures { IfOk result (λ found. IsTrue found ↔ goes self.now beginning.now ending.now) };
}

/// Whether a beginning goes on by one of the endings.
fn goes_on<L: Language>(
    alloc: Global,
    language: &L,
    endings: &[&str],
    beginning: &str,
) -> Result<bool, NoMemory>
    ensures { IfOk result (λ found. IsTrue found ↔ Any (L.goes language.now beginning.now) (texts endings.now)) }
{
    for ending in endings {
        if language.goes_by(alloc, beginning, *ending)? {
            return Ok(true);
        }
    }
    Ok(false)
}

/// Whether so many bytes of a text are whole characters and go on.
#[tactic(auto, using(text_base::proofs::Boundaries::at_start))]
fn goes_to<L: Language>(
    alloc: Global,
    language: &L,
    endings: &[&str],
    text: &str,
    size: usize,
) -> Result<bool, NoMemory>
    requires { size ≤ length text.now }
    ensures { IfOk result (λ found. IsTrue found ↔ (IsPlace text.now size × Any (L.goes language.now (take size text.now)) (texts endings.now))) }
{
    if !text.is_char_boundary(size) {
        return Ok(false);
    }
    goes_on(alloc, language, endings, part(text, 0, size))
}

/// How many bytes the longest beginning has that goes on by one of the endings, or 0.
pub fn longest<L: Language>(
    alloc: Global,
    language: &L,
    endings: &[&str],
    text: &str,
) -> Result<usize, NoMemory>
    ensures { IfOk result (λ size. IsLongest (λ beginning. Any (L.goes language.now beginning) (texts endings.now)) text.now size) }
{
    let mut size = text.len();
    while size > 0 {
        if goes_to(alloc, language, endings, text, size)? {
            return Ok(size);
        }
        size -= 1;
    }
    Ok(0)
}

/// A beginning with an ending.
pub fn joined(alloc: Global, beginning: &str, ending: &str) -> Result<String, NoMemory>
    ensures { IfOk result (λ text. string_bytes text ≡ beginning.now ++ ending.now) }
{
    let mut text = match String::from_str(alloc, beginning) {
        Ok(text) => text,
        Err(_) => return Err(NoMemory),
    };
    match text.push_str(ending) {
        Ok(()) => Ok(text),
        Err(_) => Err(NoMemory),
    }
}
