//! The top call.
ghost use Rattle.std.specs.Prelude.{◌≡◌, ◌≢◌, ◌↔◌, ◌≤◌, ℕ, List, [], None, Some, map, IfSome, string_bytes};
ghost use Rattle.test_registry.specs.Names.{Known};
ghost use Rattle.test_registry.specs.View.{known};
ghost use Rattle.css_selectors.specs.declared.selector.Dialect.{Dialect};
ghost use Rattle.extract_call.specs.Plans.{ForPlan};
ghost use Rattle.extract_call.specs.Runs.{PagesAt, pages_at, sink_at, Run};
ghost use Rattle.extract_call.specs.Selectors.{IsSelectorOf, IsKept};
ghost use Rattle.extract_call.specs.Words.{css, run, bulk, clean, read, command_of};

use crate::answers::{css_answer, script_answer};
use crate::asked::Asked;
use crate::bulk::bulk_answer;
use crate::laws::laws_below;
use crate::pages::{write_each, write_pages};
use crate::status::Status;
use crate::words::{Form, read};
use crate::writing::write_alone;
use css_selectors::Dialect;
use io_edges::{Pages, Sink};
use page_records::parse_records;
use std::alloc::Global;
use std::slice::from_ref;
use test_registry::Tests;
use text_base::ScriptFault;

/// Writes the line of a selector, whatever tests are stored.
fn write_css<W: Sink>(alloc: Global, dialect: Dialect, selector: &str, sink: &mut W) -> Status
    ensures run { (tests : Known) → ForPlan tests (Some (css dialect selector.now)) (λ plan. (none : PagesAt (Unit {0})) →
        Run plan none none (sink_at (W.taken sink.old) (W.faults sink.old)) (sink_at (W.taken sink.new) (W.faults sink.new)) result) }
    ensures other { result ≢ Status.Usage }
{
    laws_below();
    write_alone(css_answer(alloc, dialect, selector), sink)
}

/// Writes the line of the bulk page.
fn write_bulk<W: Sink>(alloc: Global, n: u32, sink: &mut W, tests: &Tests) -> Status
    requires some { 1 ≤ n }
    requires most { n ≤ 20000 }
    ensures run { ForPlan (known tests.now) (Some (bulk n)) (λ plan. (none : PagesAt (Unit {0})) →
        Run plan none none (sink_at (W.taken sink.old) (W.faults sink.old)) (sink_at (W.taken sink.new) (W.faults sink.new)) result) }
    ensures other { result ≢ Status.Usage }
{
    laws_below();
    write_alone(bulk_answer(alloc, n, tests), sink)
}

/// Writes the line of each page, or that of a script that is refused as a whole.
fn write_run<P: Pages, W: Sink>(
    alloc: Global,
    dialect: Dialect,
    script: &str,
    names: &[String],
    pages: &mut P,
    sink: &mut W,
    tests: &Tests,
) -> Status
    ensures run { ForPlan (known tests.now) (Some (run dialect script.now (map string_bytes names.now))) (λ plan. Run plan (pages_at pages.old (P.told pages.old) (P.begun pages.old) (P.faults pages.old))
        (pages_at pages.new (P.told pages.new) (P.begun pages.new) (P.faults pages.new))
        (sink_at (W.taken sink.old) (W.faults sink.old)) (sink_at (W.taken sink.new) (W.faults sink.new)) result) }
    ensures other { result ≢ Status.Usage }
{
    laws_below();
    match parse_records(alloc, dialect, script, tests) {
        Ok(read) => write_pages(alloc, &read.entries, names, pages, sink, tests),
        Err(ScriptFault::Memory) => Status::Memory,
        Err(fault) => write_alone(script_answer(alloc, script, fault), sink),
    }
}

/// Writes the canonical markup of the page, or why it is refused, whatever tests are stored.
fn write_clean<P: Pages, W: Sink>(
    alloc: Global,
    page: &String,
    pages: &mut P,
    sink: &mut W,
    tests: &Tests,
) -> Status
    ensures run { ForPlan (known tests.now) (Some (clean (string_bytes page.now))) (λ plan. Run plan (pages_at pages.old (P.told pages.old) (P.begun pages.old) (P.faults pages.old))
        (pages_at pages.new (P.told pages.new) (P.begun pages.new) (P.faults pages.new))
        (sink_at (W.taken sink.old) (W.faults sink.old)) (sink_at (W.taken sink.new) (W.faults sink.new)) result) }
    ensures other { result ≢ Status.Usage }
{
    write_each(alloc, Asked::Markup, from_ref(page), pages, sink, tests)
}

/// Writes what the words ask for.
fn write_form<P: Pages, W: Sink>(
    alloc: Global,
    form: Form<'_>,
    pages: &mut P,
    sink: &mut W,
    tests: &Tests,
) -> Status
    requires { (n : ℕ) → command_of form ≡ Some (bulk n) → (1 ≤ n) × (n ≤ 20000) }
    ensures usage { result ≡ Status.Usage ↔ command_of form.entry ≡ None }
    ensures idle { command_of form.entry ≡ None → (pages.new ≡ pages.old) × (sink.new ≡ sink.old) }
    ensures run { ForPlan (known tests.now) (command_of form.entry) (λ plan. Run plan (pages_at pages.old (P.told pages.old) (P.begun pages.old) (P.faults pages.old))
        (pages_at pages.new (P.told pages.new) (P.begun pages.new) (P.faults pages.new))
        (sink_at (W.taken sink.old) (W.faults sink.old)) (sink_at (W.taken sink.new) (W.faults sink.new)) result) }
{
    match form {
        Form::Css(dialect, selector) => write_css(alloc, dialect, selector, sink),
        Form::Run(dialect, script, names) => {
            write_run(alloc, dialect, script, names, pages, sink, tests)
        }
        Form::Bulk(n) => write_bulk(alloc, n, sink, tests),
        Form::Clean(page) => write_clean(alloc, page, pages, sink, tests),
        Form::Other => Status::Usage,
    }
}

/// Runs what the words say, where these tests are stored: `css DIALECT SELECTOR` writes the line of a selector,
/// `run DIALECT SCRIPT PAGE..` a line for each page, `bulk N` the line of the bulk page of N items, and `clean PAGE` the canonical
/// markup of the page. A script may ask the tests by their names, in XPath and in `keep`, and it may have blocks of records.
///
/// Whatever the status, the sink took a prefix of the output. `Usage` comes exactly where the words have none of the forms, and
/// then nothing was read or written. A page that is refused has its line, and the run goes on; a page that can't be read ends it.
/// The fields and blocks of a script are prepared once, before the first page is begun.
pub fn extract_with<P: Pages, W: Sink>(
    alloc: Global,
    words: &[String],
    pages: &mut P,
    sink: &mut W,
    tests: &Tests,
) -> Status
    ensures usage { result ≡ Status.Usage ↔ read (map string_bytes words.now) ≡ None }
    ensures idle { result ≡ Status.Usage → (pages.new ≡ pages.old) × (sink.new ≡ sink.old) }

    // What was begun and written, whatever the status. The command has exactly one plan: the law `the_plan`.
    ensures run { ForPlan (known tests.now) (read (map string_bytes words.now)) (λ plan. Run plan (pages_at pages.old (P.told pages.old) (P.begun pages.old) (P.faults pages.old))
        (pages_at pages.new (P.told pages.new) (P.begun pages.new) (P.faults pages.new))
        (sink_at (W.taken sink.old) (W.faults sink.old)) (sink_at (W.taken sink.new) (W.faults sink.new)) result) }

    // The XPath of each selector of the words keeps the selector's meaning: that of `css`, and those of the css steps of a script, in blocks too.
    ensures meaning { IfSome (read (map string_bytes words.now)) (λ command. (d : Dialect) (text : List ℕ) → IsSelectorOf command d text → IsKept d text) }
{
    laws_below();
    write_form(alloc, read(words), pages, sink, tests)
}

/// Runs what the words say where no tests are stored.
pub fn extract<P: Pages, W: Sink>(
    alloc: Global,
    words: &[String],
    pages: &mut P,
    sink: &mut W,
) -> Status
    ensures usage { result ≡ Status.Usage ↔ read (map string_bytes words.now) ≡ None }
    ensures idle { result ≡ Status.Usage → (pages.new ≡ pages.old) × (sink.new ≡ sink.old) }
    ensures run { ForPlan [] (read (map string_bytes words.now)) (λ plan. Run plan (pages_at pages.old (P.told pages.old) (P.begun pages.old) (P.faults pages.old))
        (pages_at pages.new (P.told pages.new) (P.begun pages.new) (P.faults pages.new))
        (sink_at (W.taken sink.old) (W.faults sink.old)) (sink_at (W.taken sink.new) (W.faults sink.new)) result) }
    ensures meaning { IfSome (read (map string_bytes words.now)) (λ command. (d : Dialect) (text : List ℕ) → IsSelectorOf command d text → IsKept d text) }
{
    extract_with(alloc, words, pages, sink, &Tests::new(alloc))
}
