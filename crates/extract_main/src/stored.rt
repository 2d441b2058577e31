//! A run over the tests that the program stores.
ghost use Rattle.std.specs.Prelude.{◌≡◌, ◌↔◌, None, map, IfOk, OnErr, string_bytes};
ghost use Rattle.extract_call.specs.Plans.{ForPlan};
ghost use Rattle.extract_call.specs.Runs.{pages_at, sink_at, Run};
ghost use Rattle.extract_call.specs.Words.{read};
ghost use Rattle.test_registry.specs.View.{known};
ghost use Rattle.programs.specs.Stored as stored;

use extract_call::{Status, extract_with};
use io_edges::{Pages, Sink};
use programs::{NEAR, Test, program_tests};
use std::alloc::Global;
use test_registry::{Tests, ends_with, has_word, near, same_folded};
use text_base::NoMemory;

/// Runs what the words say over these tests, which are those of the program.
fn run_over<P: Pages, W: Sink>(
    alloc: Global,
    words: &[String],
    pages: &mut P,
    sink: &mut W,
    tests: &Tests,
) -> Status
    requires { known tests.now ≡ stored.program_tests }
    ensures usage { result ≡ Status.Usage ↔ read (map string_bytes words.now) ≡ None }
    ensures run { ForPlan stored.program_tests (read (map string_bytes words.now)) (λ plan. Run plan (pages_at pages.old (P.told pages.old) (P.begun pages.old) (P.faults pages.old))
        (pages_at pages.new (P.told pages.new) (P.begun pages.new) (P.faults pages.new))
        (sink_at (W.taken sink.old) (W.faults sink.old)) (sink_at (W.taken sink.new) (W.faults sink.new)) result) }
{
    extract_with(alloc, words, pages, sink, tests)
}

/// Runs what the words say over the tests `same`, `ends-with`, `has-word` and `near`, or does nothing where no memory was found
/// for these.
pub fn run_words<P: Pages, W: Sink>(
    alloc: Global,
    words: &[String],
    pages: &mut P,
    sink: &mut W,
) -> Result<Status, NoMemory>
    ensures idle { OnErr result ((pages.new ≡ pages.old) × (sink.new ≡ sink.old)) }
    ensures usage { IfOk result (λ status. status ≡ Status.Usage ↔ read (map string_bytes words.now) ≡ None) }
    ensures run { IfOk result (λ status. ForPlan stored.program_tests (read (map string_bytes words.now)) (λ plan. Run plan (pages_at pages.old (P.told pages.old) (P.begun pages.old) (P.faults pages.old))
        (pages_at pages.new (P.told pages.new) (P.begun pages.new) (P.faults pages.new))
        (sink_at (W.taken sink.old) (W.faults sink.old)) (sink_at (W.taken sink.new) (W.faults sink.new)) status)) }
{
    let same: Test = Box::new(alloc, |a: &str, b: &str| same_folded(a, b))?;
    let ends: Test = Box::new(alloc, |a: &str, b: &str| ends_with(a, b))?;
    let word: Test = Box::new(alloc, |a: &str, b: &str| has_word(a, b))?;
    let close: Test = Box::new(alloc, |a: &str, b: &str| near(NEAR, a, b))?;
    let tests = program_tests(alloc, same, ends, word, close)?;
    Ok(run_over(alloc, words, pages, sink, &tests))
}
