//! The program `extract`: compiles CSS selectors to XPath, runs scripts of queries on pages, and writes pages as canonical markup.
#![tactic(auto)]

ghost use Rattle.std.specs.Prelude.{◌≡◌};
ghost use Rattle.extract_main.specs.Messages as messages;

mod stored;

use crate::stored::run_words;
use extract_call::Status;
use io_edges::{FilePages, StdoutSink};
use programs::words_of;
use std::process::ExitCode;

/// Runs the program's words on files and standard output.
fn status_of(rt: &HostRuntime) -> Status {
    let Ok(words) = words_of(rt) else {
        return Status::Memory;
    };
    let mut pages = FilePages::new(rt);
    let mut sink = StdoutSink::new(rt);
    match run_words(rt.alloc(), words.as_slice(), &mut pages, &mut sink) {
        Ok(status) => status,
        Err(_) => Status::Memory,
    }
}

/// What is said on standard error of a run that ended so: nothing where all was written.
fn message_of(status: Status) -> &'static str
    ensures { result.now ≡ messages.message_of status }
{
    match status {
        Status::Done | Status::Refused => "",
        Status::Usage => "extract: usage",
        Status::Memory => "extract: no memory",
        Status::ReadFault => "extract: read fault",
        Status::WriteFault => "extract: write fault",
    }
}

fn main(rt: HostRuntime) -> ExitCode {
    let status = status_of(&rt);
    let message = message_of(status);
    if !message.is_empty() {
        let _ = rt.eprintln(message);
    }
    ExitCode::from(status.number())
}
