//! The page that is asked about, read and answered.
ghost use Rattle.std.specs.Prelude.{◌≡◌, ◌≢◌, ◌⊎◌, ℕ, List, [], ◌∷◌, Some, IfOk, IsErrOf, Err, IfSome, string_bytes};
ghost use Rattle.io_edges.specs.Counts.{Rose, Grows};
ghost use Rattle.io_edges.specs.Pages.{page, Lacks};
ghost use Rattle.extract_call.specs.Answers.{Answer, answer_of};
ghost use Rattle.extract_call.specs.inner.OnePage.{Counted, status_of};
ghost use Rattle.extract_call.specs.Plans.{over};
ghost use Rattle.extract_call.specs.Runs.{SinkAt, pages_at, sink_at, Run};
ghost use Rattle.why_call.specs.Pages.{IsPageAnswer, MakesAnswers};

use crate::laws::laws_below;
use crate::pages::{long_answer, page_answer};
use extract_call::{Line, Status, write_line};
use io_edges::{Pages, ReadEnd, Sink, read_page};
use std::alloc::Global;

/// Reads a page and makes its answer.
fn read_answer<P: Pages>(alloc: Global, name: &str, pages: &mut P) -> Result<Line, Status>
    ensures begun { Grows (P.begun pages.old) 1 (P.begun pages.new) }
    ensures counts { (sink : SinkAt) → Counted (pages_at pages.old (P.told pages.old) (P.begun pages.old) (P.faults pages.old))
        (pages_at pages.new (P.told pages.new) (P.begun pages.new) (P.faults pages.new)) sink sink (status_of result) }
    ensures ok { IfOk result (λ line. IfSome (P.told pages.old) (λ told. (bytes : List ℕ) × ((page told name.now ≡ Some bytes) × IsPageAnswer bytes (answer_of line)))) }
    ensures read_fault { IsErrOf result Status.ReadFault → Rose (P.faults pages.old) (P.faults pages.new) ⊎ Lacks (P.told pages.old) name.now }
    ensures other { (result ≢ Err Status.Done) × (result ≢ Err Status.Refused) × (result ≢ Err Status.Usage) × (result ≢ Err Status.WriteFault) }
{
    let made = match read_page(alloc, pages, name) {
        Ok(bytes) => page_answer(alloc, bytes.as_slice()),
        Err(ReadEnd::Fault) => return Err(Status::ReadFault),
        Err(ReadEnd::TooLong) => long_answer(alloc),
        Err(ReadEnd::Memory) => return Err(Status::Memory),
    };
    match made {
        Ok(line) => Ok(line),
        Err(_) => Err(Status::Memory),
    }
}

/// Reads a page and writes its answer.
pub fn write_page<P: Pages, W: Sink>(
    alloc: Global,
    name: &str,
    pages: &mut P,
    sink: &mut W,
) -> Status
    ensures run { (line : List ℕ → List ℕ → Answer) → MakesAnswers line → Run (over line (name.now ∷ [])) (pages_at pages.old (P.told pages.old) (P.begun pages.old) (P.faults pages.old))
        (pages_at pages.new (P.told pages.new) (P.begun pages.new) (P.faults pages.new))
        (sink_at (W.taken sink.old) (W.faults sink.old)) (sink_at (W.taken sink.new) (W.faults sink.new)) result }
    ensures other { result ≢ Status.Usage }
{
    laws_below();
    match read_answer(alloc, name, pages) {
        Ok(line) => match write_line(line, sink) {
            Ok(refused) => {
                if refused {
                    Status::Refused
                } else {
                    Status::Done
                }
            }
            Err(status) => status,
        },
        Err(status) => status,
    }
}
