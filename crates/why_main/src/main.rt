//! The program `why`: it tells people why a selector, an expression, a script or a page is refused, and where.
#![tactic(auto)]

ghost use Rattle.std.specs.Prelude.{◌≡◌};
ghost use Rattle.why_main.specs.Messages as messages;

mod stored;

use crate::stored::why_words;
use extract_call::Status;
use io_edges::{FilePages, StdoutSink};
use programs::words_of;
use std::process::ExitCode;

/// Answers the program's words on files and standard output.
fn status_of(rt: &HostRuntime) -> Status {
    let Ok(words) = words_of(rt) else {
        return Status::Memory;
    };
    let mut pages = FilePages::new(rt);
    let mut sink = StdoutSink::new(rt);
    match why_words(rt.alloc(), words.as_slice(), &mut pages, &mut sink) {
        Ok(status) => status,
        Err(_) => Status::Memory,
    }
}

/// What is said on standard error of a run that ended so: nothing where all was written.
fn message_of(status: Status) -> &'static str
    ensures { result.now ≡ messages.message_of status }
{
    match status {
        Status::Done | Status::Refused => "",
        Status::Usage => "why: usage",
        Status::Memory => "why: no memory",
        Status::ReadFault => "why: read fault",
        Status::WriteFault => "why: write fault",
    }
}

fn main(rt: HostRuntime) -> ExitCode {
    let status = status_of(&rt);
    let message = message_of(status);
    if !message.is_empty() {
        let _ = rt.eprintln(message);
    }
    ExitCode::from(status.number())
}
