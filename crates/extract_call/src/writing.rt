//! Lines given to the sink.
ghost use Rattle.std.specs.Prelude.{◌≡◌, ◌≢◌, ◌≤◌, false, IfOk, IsOk, IsOkAnd, IsErrOf, OnErr, Err};
ghost use Rattle.io_edges.specs.Counts.{Rose};
ghost use Rattle.io_edges.specs.Sink.{grown, TakesPart};
ghost use Rattle.extract_call.specs.Answers.{Answer, answer_of, line_bytes};
ghost use Rattle.extract_call.specs.Plans.{alone};
ghost use Rattle.extract_call.specs.Runs.{PagesAt, sink_at, Run};

use crate::answers::Line;
use crate::laws::laws_below;
use crate::status::Status;
use io_edges::{Sink, write_whole};
use text_base::NoMemory;

/// Writes a line, and tells whether it holds a refusal.
pub fn write_line<W: Sink>(line: Line, sink: &mut W) -> Result<bool, Status>
    ensures ok { IfOk result (λ r. ((answer_of line).refused ≡ r) × (W.taken sink.new ≡ grown (W.taken sink.old) (line_bytes (answer_of line)))) }
    ensures err { OnErr result (TakesPart (W.taken sink.old) (line_bytes (answer_of line)) (W.taken sink.new)) }
    ensures never_falls { W.faults sink.old ≤ W.faults sink.new }
    ensures uncounted { ¬ IsErrOf result Status.WriteFault → W.faults sink.new ≡ W.faults sink.old }
    ensures write_fault { IsErrOf result Status.WriteFault → Rose (W.faults sink.old) (W.faults sink.new) }
    ensures other { (result ≢ Err Status.Done) × (result ≢ Err Status.Refused) × (result ≢ Err Status.Usage) × (result ≢ Err Status.ReadFault) }
{
    laws_below();
    let refused = line.refused;
    let mut text = line.text;
    match text.push_str("\n") {
        Ok(()) => {}
        Err(_) => return Err(Status::Memory),
    }
    match write_whole(sink, text.as_bytes()) {
        Ok(()) => Ok(refused),
        Err(_) => Err(Status::WriteFault),
    }
}

/// Writes the one line of a run without pages.
pub fn write_alone<W: Sink>(made: Result<Line, NoMemory>, sink: &mut W) -> Status
    ensures run { (a : Answer) → IfOk made (λ line. answer_of line ≡ a) → (none : PagesAt (Unit {0})) →
        Run (alone a) none none (sink_at (W.taken sink.old) (W.faults sink.old)) (sink_at (W.taken sink.new) (W.faults sink.new)) result }
    ensures done { result ≡ Status.Done → IsOkAnd made (λ line. line.refused ≡ false) }
    ensures made { result ≢ Status.Memory → IsOk made }
    ensures other { result ≢ Status.Usage }
{
    laws_below();
    let Ok(line) = made else {
        return Status::Memory;
    };
    match write_line(line, sink) {
        Ok(refused) => {
            if refused {
                Status::Refused
            } else {
                Status::Done
            }
        }
        Err(status) => status,
    }
}
