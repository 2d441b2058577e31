//! The top call.
ghost use Rattle.std.specs.Prelude.{◌≡◌, ◌≢◌, ◌↔◌, None, Some, map, string_bytes};
ghost use Rattle.test_registry.specs.View.{known};
ghost use Rattle.extract_call.specs.Runs.{PagesAt, pages_at, sink_at, Run};
ghost use Rattle.why_call.specs.Plans.{ForPlan};
ghost use Rattle.why_call.specs.Words.{css, xpath, script, page, read, question_of};

use crate::laws::laws_below;
use crate::scripts::script_answer;
use crate::selectors::{expression_answer, selector_answer};
use crate::words::{Form, read};
use crate::writing::write_page;
use css_selectors::Dialect;
use extract_call::{Status, write_alone};
use io_edges::{Pages, Sink};
use std::alloc::Global;
use test_registry::Tests;

/// Writes why a selector is refused.
fn write_selector<W: Sink>(
    alloc: Global,
    dialect: Dialect,
    selector: &str,
    sink: &mut W,
    tests: &Tests,
) -> Status
    ensures run { ForPlan (known tests.now) (Some (css dialect selector.now)) (λ plan. (none : PagesAt (Unit {0})) →
        Run plan none none (sink_at (W.taken sink.old) (W.faults sink.old)) (sink_at (W.taken sink.new) (W.faults sink.new)) result) }
    ensures other { result ≢ Status.Usage }
{
    laws_below();
    let _ = tests;
    write_alone(selector_answer(alloc, dialect, selector), sink)
}

/// Writes why an expression is refused.
fn write_expression<W: Sink>(alloc: Global, text: &str, sink: &mut W, tests: &Tests) -> Status
    ensures run { ForPlan (known tests.now) (Some (xpath text.now)) (λ plan. (none : PagesAt (Unit {0})) →
        Run plan none none (sink_at (W.taken sink.old) (W.faults sink.old)) (sink_at (W.taken sink.new) (W.faults sink.new)) result) }
    ensures other { result ≢ Status.Usage }
{
    laws_below();
    write_alone(expression_answer(alloc, text, tests), sink)
}

/// Writes why a script is refused, or which of its fields and blocks are.
fn write_script<W: Sink>(
    alloc: Global,
    dialect: Dialect,
    text: &str,
    sink: &mut W,
    tests: &Tests,
) -> Status
    ensures run { ForPlan (known tests.now) (Some (script dialect text.now)) (λ plan. (none : PagesAt (Unit {0})) →
        Run plan none none (sink_at (W.taken sink.old) (W.faults sink.old)) (sink_at (W.taken sink.new) (W.faults sink.new)) result) }
    ensures other { result ≢ Status.Usage }
{
    laws_below();
    write_alone(script_answer(alloc, dialect, text, tests), sink)
}

/// Writes what the words ask for.
fn write_form<P: Pages, W: Sink>(
    alloc: Global,
    form: Form<'_>,
    pages: &mut P,
    sink: &mut W,
    tests: &Tests,
) -> Status
    ensures usage { result ≡ Status.Usage ↔ question_of form.entry ≡ None }
    ensures idle { question_of form.entry ≡ None → (pages.new ≡ pages.old) × (sink.new ≡ sink.old) }
    ensures run { ForPlan (known tests.now) (question_of form.entry) (λ plan. Run plan (pages_at pages.old (P.told pages.old) (P.begun pages.old) (P.faults pages.old))
        (pages_at pages.new (P.told pages.new) (P.begun pages.new) (P.faults pages.new))
        (sink_at (W.taken sink.old) (W.faults sink.old)) (sink_at (W.taken sink.new) (W.faults sink.new)) result) }
{
    match form {
        Form::Css(dialect, selector) => write_selector(alloc, dialect, selector, sink, tests),
        Form::XPath(text) => write_expression(alloc, text, sink, tests),
        Form::Script(dialect, text) => write_script(alloc, dialect, text, sink, tests),
        Form::Page(name) => write_page(alloc, name.as_str(), pages, sink),
        Form::Other => Status::Usage,
    }
}

/// Tells people what the words ask for: `css DIALECT SELECTOR` why the selector is refused, `xpath EXPRESSION` why the expression
/// is, `script DIALECT SCRIPT` why the script is, or which of its fields and blocks are, and `page PAGE` why the page is. An
/// expression and a script may ask these tests by their names.
///
/// `Done` where nothing is refused, `Refused` where something is. `Usage` comes exactly where the words have none of the forms, and
/// then nothing was read or written.
pub fn why<P: Pages, W: Sink>(
    alloc: Global,
    words: &[String],
    pages: &mut P,
    sink: &mut W,
    tests: &Tests,
) -> Status
    ensures usage { result ≡ Status.Usage ↔ read (map string_bytes words.now) ≡ None }
    ensures idle { result ≡ Status.Usage → (pages.new ≡ pages.old) × (sink.new ≡ sink.old) }

    // What was begun and written, whatever the status. The question has at most one plan: the law `one_plan`.
    ensures run { ForPlan (known tests.now) (read (map string_bytes words.now)) (λ plan. Run plan (pages_at pages.old (P.told pages.old) (P.begun pages.old) (P.faults pages.old))
        (pages_at pages.new (P.told pages.new) (P.begun pages.new) (P.faults pages.new))
        (sink_at (W.taken sink.old) (W.faults sink.old)) (sink_at (W.taken sink.new) (W.faults sink.new)) result) }
{
    write_form(alloc, read(words), pages, sink, tests)
}
