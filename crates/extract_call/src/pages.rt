//! The pages of a run, one after the other.
ghost use Rattle.std.specs.Prelude.{◌≡◌, ◌≢◌, ◌⊎◌, ℕ, List, Some, map, OnErr, IfOk, IsErrOf, Err, IfSome, string_bytes};
ghost use Rattle.std.specs.List.{AllByRecursion};
ghost use Rattle.io_edges.specs.Counts.{Rose, Grows};
ghost use Rattle.io_edges.specs.Pages.{page, Lacks};
ghost use Rattle.test_registry.specs.View.{known};
ghost use Rattle.page_records.specs.Lines.{HasNames};
ghost use Rattle.page_records.specs.Ordered.{IsOrderedEntry, IsStoredEntry};
ghost use Rattle.extract_call.specs.Answers.{Answer, answer_of};
ghost use Rattle.extract_call.specs.inner.OnePage.{TakesLine, TakesLinePart, Counted, status_of};
ghost use Rattle.extract_call.specs.PageLines.{IsPageLine, IsValuesLine, MakesLines};
ghost use Rattle.extract_call.specs.Plans.{over};
ghost use Rattle.extract_call.specs.Runs.{SinkAt, pages_at, sink_at, Run};
ghost use Rattle.extract_call.specs.inner.Asked.{shown_by, IsReady};

use crate::answers::Line;
use crate::asked::Asked;
use crate::laws::laws_below;
use crate::page_lines::{long_answer, page_answer, prepare_entries};
use crate::status::Status;
use crate::writing::write_line;
use io_edges::{Pages, ReadEnd, Sink, read_page};
use page_records::Entry;
use std::alloc::Global;
use test_registry::Tests;
use text_base::Seq;

/// Reads a page and makes its line.
fn read_line<P: Pages>(
    alloc: Global,
    asked: Asked<'_>,
    name: &str,
    pages: &mut P,
    tests: &Tests,
) -> Result<Line, Status>
    requires { IsReady (known tests.now) asked }
    ensures begun { Grows (P.begun pages.old) 1 (P.begun pages.new) }
    ensures counts { (sink : SinkAt) → Counted (pages_at pages.old (P.told pages.old) (P.begun pages.old) (P.faults pages.old))
        (pages_at pages.new (P.told pages.new) (P.begun pages.new) (P.faults pages.new)) sink sink (status_of result) }
    ensures ok { IfOk result (λ line. IfSome (P.told pages.old) (λ told. (bytes : List ℕ) × ((page told name.now ≡ Some bytes) × IsPageLine (shown_by (known tests.now) asked.entry) name.now bytes (answer_of line)))) }
    ensures read_fault { IsErrOf result Status.ReadFault → Rose (P.faults pages.old) (P.faults pages.new) ⊎ Lacks (P.told pages.old) name.now }
    ensures other { (result ≢ Err Status.Done) × (result ≢ Err Status.Refused) × (result ≢ Err Status.Usage) × (result ≢ Err Status.WriteFault) }
{
    let made = match read_page(alloc, pages, name) {
        Ok(bytes) => page_answer(alloc, asked, name, bytes.as_slice(), tests),
        Err(ReadEnd::Fault) => return Err(Status::ReadFault),
        Err(ReadEnd::TooLong) => long_answer(alloc, name),
        Err(ReadEnd::Memory) => return Err(Status::Memory),
    };
    match made {
        Ok(line) => Ok(line),
        Err(_) => Err(Status::Memory),
    }
}

/// Reads a page, writes its line, and tells whether it holds a refusal.
fn write_page<P: Pages, W: Sink>(
    alloc: Global,
    asked: Asked<'_>,
    name: &str,
    pages: &mut P,
    sink: &mut W,
    tests: &Tests,
) -> Result<bool, Status>
    requires { IsReady (known tests.now) asked }
    ensures begun { Grows (P.begun pages.old) 1 (P.begun pages.new) }
    ensures counts { Counted (pages_at pages.old (P.told pages.old) (P.begun pages.old) (P.faults pages.old))
        (pages_at pages.new (P.told pages.new) (P.begun pages.new) (P.faults pages.new))
        (sink_at (W.taken sink.old) (W.faults sink.old)) (sink_at (W.taken sink.new) (W.faults sink.new)) (status_of result) }
    ensures ok { IfOk result (λ r. (line : List ℕ → List ℕ → Answer) → MakesLines (shown_by (known tests.now) asked.entry) line → TakesLine line (P.told pages.old) name.now (W.taken sink.old) (W.taken sink.new) r) }
    ensures err { OnErr result ((line : List ℕ → List ℕ → Answer) → MakesLines (shown_by (known tests.now) asked.entry) line →
        (W.taken sink.new ≡ W.taken sink.old) ⊎ TakesLinePart line (P.told pages.old) name.now (W.taken sink.old) (W.taken sink.new)) }
    ensures read_fault { IsErrOf result Status.ReadFault → (Rose (P.faults pages.old) (P.faults pages.new) ⊎ Lacks (P.told pages.old) name.now) × (W.taken sink.new ≡ W.taken sink.old) }
    ensures other { (result ≢ Err Status.Done) × (result ≢ Err Status.Refused) × (result ≢ Err Status.Usage) }
{
    laws_below();
    match read_line(alloc, asked, name, pages, tests) {
        Ok(line) => match write_line(line, sink) {
            Ok(refused) => Ok(refused),
            Err(status) => Err(status),
        },
        Err(status) => Err(status),
    }
}

/// Reads each page and writes its line.
pub fn write_each<P: Pages, W: Sink>(
    alloc: Global,
    asked: Asked<'_>,
    names: &[String],
    pages: &mut P,
    sink: &mut W,
    tests: &Tests,
) -> Status
    requires { IsReady (known tests.now) asked }
    ensures run { (line : List ℕ → List ℕ → Answer) → MakesLines (shown_by (known tests.now) asked.entry) line → Run (over line (map string_bytes names.now)) (pages_at pages.old (P.told pages.old) (P.begun pages.old) (P.faults pages.old))
        (pages_at pages.new (P.told pages.new) (P.begun pages.new) (P.faults pages.new))
        (sink_at (W.taken sink.old) (W.faults sink.old)) (sink_at (W.taken sink.new) (W.faults sink.new)) result }
    ensures other { result ≢ Status.Usage }
{
    laws_below();
    let mut refused = false;
    for name in names {
        match write_page(alloc, asked, name.as_str(), pages, sink, tests) {
            Ok(one) => refused = refused || one,
            Err(status) => return status,
        }
    }
    if refused {
        Status::Refused
    } else {
        Status::Done
    }
}

/// Makes the entries ready, once for all pages, and then reads each page and writes its line. Where no memory is found for the
/// first, no page is begun.
pub fn write_pages<P: Pages, W: Sink>(
    alloc: Global,
    entries: &Seq<Entry>,
    names: &[String],
    pages: &mut P,
    sink: &mut W,
    tests: &Tests,
) -> Status
    requires ordered { AllByRecursion (IsOrderedEntry (known tests.now)) entries.now }
    requires stored { AllByRecursion (IsStoredEntry (known tests.now)) entries.now }
    requires names { AllByRecursion HasNames entries.now }
    ensures run { (line : List ℕ → List ℕ → Answer) → MakesLines (IsValuesLine (known tests.now) entries.now) line → Run (over line (map string_bytes names.now)) (pages_at pages.old (P.told pages.old) (P.begun pages.old) (P.faults pages.old))
        (pages_at pages.new (P.told pages.new) (P.begun pages.new) (P.faults pages.new))
        (sink_at (W.taken sink.old) (W.faults sink.old)) (sink_at (W.taken sink.new) (W.faults sink.new)) result }
    ensures other { result ≢ Status.Usage }
{
    laws_below();
    match prepare_entries(alloc, entries.as_slice(), tests) {
        Ok(ready) => write_each(
            alloc,
            Asked::Values(entries, ready.as_slice()),
            names,
            pages,
            sink,
            tests,
        ),
        Err(_) => Status::Memory,
    }
}
