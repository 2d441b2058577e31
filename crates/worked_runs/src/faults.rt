//! Runs in which a call fails.
ghost use Rattle.std.specs.Prelude.{◌<◌};

use crate::tested::{files_of, sink_of, status_of};
use extract_call::Status;
use io_edges::{MemPages, MemSink, NullSink, SurePages};
use std::alloc::Global;
use std::test::Fail;
use text_base::{NoMemory, Seq};

/// The script of the runs.
const SCRIPT: &str = "t: css('p::text').get()";

/// The two pages.
const PAGES: [(&str, &[u8]); 2] = [("a.html", b"<p>a</p>"), ("b.html", b"<p>a</p>")];

/// Words that name both pages.
const TWO: [&str; 5] = ["run", "html", SCRIPT, "a.html", "b.html"];

/// Words that name a page that is not there, between them.
const LACKING: [&str; 6] = ["run", "html", SCRIPT, "a.html", "c.html", "b.html"];

/// Words that name the first page.
const ONE: [&str; 4] = ["run", "html", SCRIPT, "a.html"];

/// The line of the page `a.html`, of 54 bytes.
const FIRST: &str = "{\"fields\":[{\"name\":\"t\",\"value\":\"a\"}],\"page\":\"a.html\"}\n";

/// The lines of both pages.
const BOTH: &str =
    "{\"fields\":[{\"name\":\"t\",\"value\":\"a\"}],\"page\":\"a.html\"}\n{\"fields\":[{\"name\":\"t\",\"value\":\"a\"}],\"page\":\"b.html\"}\n";

/// The words on the pages, of which a read gives at most four bytes and the call of this number fails.
fn run_into(
    alloc: Global,
    words: &[&str],
    fails: u64,
    sink: &mut MemSink,
) -> Result<Status, NoMemory> {
    let numbers = vec![in alloc; fails]?;
    let mut pages = MemPages::new(files_of(alloc, &PAGES[..])?, 4, Seq::from_vec(numbers));
    status_of(alloc, words, &mut pages, sink)
}

/// Whether the run ends so and writes exactly these bytes, where the call of pages of the first number fails, the write of the
/// second, and a write takes at most `most` bytes.
fn ends(
    alloc: Global,
    words: &[&str],
    fails: u64,
    most: usize,
    write_fails: u64,
    status: Status,
    bytes: &[u8],
) -> Result<bool, NoMemory>
    requires { 0 < most }
{
    let mut sink = sink_of(alloc, most, write_fails)?;
    let ended = run_into(alloc, words, fails, &mut sink)?;
    Ok(ended == status && sink.bytes() == bytes)
}

/// A row: the number of the call that fails, the status and what is written.
const CALLS: [(u64, Status, &str); 9] = [
    (1, Status::ReadFault, ""),
    (2, Status::ReadFault, ""),
    (3, Status::ReadFault, ""),
    (4, Status::ReadFault, ""),
    (5, Status::ReadFault, FIRST),
    (6, Status::ReadFault, FIRST),
    (7, Status::ReadFault, FIRST),
    (8, Status::ReadFault, FIRST),
    (9, Status::Done, BOTH),
];

#[test]
fn failing_calls(rt: HostRuntime) -> Result<(), Fail> {
    for (fails, status, text) in CALLS {
        assert!(rt;
            ends(
                rt.alloc(),
                &TWO[..],
                fails,
                9_999,
                0,
                status,
                text.as_bytes()
            )?,
            "call {fails}"
        );
    }
    Ok(())
}

/// The first number of bytes, if there is one, for which a run ends otherwise than by a write fault with exactly so many bytes
/// written: each write takes one byte, and the one after so many fails.
fn first_wrong_write(alloc: Global, line: &[u8]) -> Result<Option<usize>, NoMemory> {
    let mut fails = 0u64;
    for n in 0..line.len() {
        fails = fails.wrapping_add(1);
        let Some(bytes) = line.get(..n) else {
            return Ok(Some(n));
        };
        if !ends(alloc, &ONE[..], 0, 1, fails, Status::WriteFault, bytes)? {
            return Ok(Some(n));
        }
    }
    Ok(None)
}

#[test]
fn failing_writes(rt: HostRuntime) -> Result<(), Fail> {
    let alloc = rt.alloc();
    let line = FIRST.as_bytes();
    assert_eq!(rt; line.len(), 54);
    assert_eq!(rt; first_wrong_write(alloc, line)?, None);
    assert!(rt; ends(alloc, &ONE[..], 0, 1, 55, Status::Done, line)?);
    Ok(())
}

#[test]
fn little_room(rt: HostRuntime) -> Result<(), Fail> {
    let alloc = rt.alloc();
    let mut short = MemSink::new(alloc, 10, 9_999, Seq::from_vec(Vec::new(alloc)))?;
    assert_eq!(rt;
        run_into(alloc, &ONE[..], 0, &mut short)?,
        Status::WriteFault
    );
    assert_eq!(rt; short.bytes(), b"{\"fields\":".as_slice());
    Ok(())
}

#[test]
fn faults(rt: HostRuntime) -> Result<(), Fail> {
    let alloc = rt.alloc();
    assert_eq!(rt; Status::ReadFault.number(), 4);
    // The third read of the second page fails: a sink that takes a byte at once takes the same bytes.
    let line = FIRST.as_bytes();
    assert!(rt; ends(alloc, &TWO[..], 8, 9_999, 0, Status::ReadFault, line)?);
    assert!(rt; ends(alloc, &TWO[..], 8, 1, 0, Status::ReadFault, line)?);
    // The first write fails.
    assert!(rt; ends(alloc, &TWO[..], 0, 9_999, 1, Status::WriteFault, b"")?);
    // A name that is not there.
    assert!(rt; ends(alloc, &LACKING[..], 0, 9_999, 0, Status::ReadFault, line)?);
    Ok(())
}

#[test]
fn sure_pages(rt: HostRuntime) -> Result<(), Fail> {
    let alloc = rt.alloc();
    let mut pages = SurePages::new(files_of(alloc, &PAGES[..])?, 4);
    let status = status_of(alloc, &TWO[..], &mut pages, &mut NullSink::new())?;
    assert_eq!(rt; status, Status::Done);
    Ok(())
}
