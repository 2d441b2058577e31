//! What the tests of runs share.
ghost use Rattle.std.specs.Prelude.{◌<◌};
ghost use Rattle.io_edges.specs.Sure as sure;

use extract_call::{Status, extract};
use io_edges::{BeginFault, Failed, MemSink, PageFile, Pages, Sink, SurePages};
use std::alloc::Global;
use text_base::{NoMemory, Seq, Txt};

/// How many bytes a sink of the tests takes.
const ROOM: usize = 16_777_216;

/// Pages that note the names that are begun.
#[derive(Drop)]
pub struct Noting {
    pages: SurePages,
    pub names: String,
}

impl Pages for Noting {
    ghost told = { λ n. sure.told_by n.pages };

    ghost left = { λ n. sure.left_of n.pages };

    ghost faults = { λ n. sure.faults_of n.pages };

    ghost begun = { λ n. sure.begun_of n.pages };

    fn begin(&mut self, name: &str) -> Result<(), BeginFault> {
        let _ = self.names.push_str(name);
        let _ = self.names.push_str(" ");
        self.pages.begin(name)
    }

    fn read(&mut self, into: &mut [u8]) -> Result<usize, Failed> {
        self.pages.read(into)
    }
}

/// The words.
pub fn words_of(alloc: Global, texts: &[&str]) -> Result<Vec<String>, NoMemory> {
    let mut words = Vec::new(alloc);
    for text in texts {
        words.push(String::from_str(alloc, text)?)?;
    }
    Ok(words)
}

/// Runs the words, and tells how the run ended.
pub fn status_of<P: Pages, W: Sink>(
    alloc: Global,
    texts: &[&str],
    pages: &mut P,
    sink: &mut W,
) -> Result<Status, NoMemory> {
    let words = words_of(alloc, texts)?;
    Ok(extract(alloc, words.as_slice(), pages, sink))
}

/// The file of this name and these bytes.
fn file_of(alloc: Global, name: &str, bytes: &[u8]) -> Result<PageFile, NoMemory> {
    Ok(PageFile {
        name: Txt::of(alloc, name)?,
        bytes: Seq::from_vec(bytes.to_vec(alloc)?),
    })
}

/// The files of these names and bytes.
pub fn files_of(alloc: Global, pages: &[(&str, &[u8])]) -> Result<Seq<PageFile>, NoMemory> {
    let mut files = Vec::new(alloc);
    for (name, bytes) in pages {
        files.push(file_of(alloc, name, bytes)?)?;
    }
    Ok(Seq::from_vec(files))
}

/// A sink with room that takes at most `most` bytes at once, and fails at the write of this number.
pub fn sink_of(alloc: Global, most: usize, fails: u64) -> Result<MemSink, NoMemory>
    requires { 0 < most }
{
    let numbers = vec![in alloc; fails]?;
    MemSink::new(alloc, ROOM, most, Seq::from_vec(numbers))
}

/// What a run gave: its status, what was written, and the names that were begun, a space behind each.
#[derive(Drop)]
pub struct Ran {
    pub status: Status,
    pub bytes: Vec<u8>,
    pub names: String,
}

/// Runs the words on these files, of which a read gives at most `most` bytes.
fn run_on(alloc: Global, words: &[&str], files: Seq<PageFile>, most: usize) -> Result<Ran, NoMemory>
    requires { 0 < most }
{
    let mut noting = Noting {
        pages: SurePages::new(files, most),
        names: String::new(alloc),
    };
    let mut sink = sink_of(alloc, 9_999, 0)?;
    let status = status_of(alloc, words, &mut noting, &mut sink)?;
    Ok(Ran {
        status,
        bytes: sink.bytes().to_vec(alloc)?,
        names: noting.names,
    })
}

/// Runs the words on these pages, of which a read gives at most `most` bytes.
pub fn run(
    alloc: Global,
    words: &[&str],
    pages: &[(&str, &[u8])],
    most: usize,
) -> Result<Ran, NoMemory>
    requires { 0 < most }
{
    run_on(alloc, words, files_of(alloc, pages)?, most)
}

/// Whether a run of the words on these pages, each read whole, ends so, writes exactly the lines and begins exactly these names.
pub fn gives(
    alloc: Global,
    words: &[&str],
    pages: &[(&str, &[u8])],
    status: Status,
    lines: &str,
    names: &str,
) -> Result<bool, NoMemory> {
    let ran = run(alloc, words, pages, 9_999)?;
    Ok(
        ran.status == status
            && ran.bytes.as_slice() == lines.as_bytes()
            && ran.names.as_str() == names,
    )
}

/// A row: a script, the bytes of the page `a.html`, the status and the line.
pub type Row = (&'static str, &'static [u8], Status, &'static str);

/// Whether a run of the script on the page `a.html` of these bytes ends so and writes exactly the line.
pub fn is_line(
    alloc: Global,
    script: &str,
    page: &[u8],
    status: Status,
    line: &str,
) -> Result<bool, NoMemory> {
    let words = ["run", "html", script, "a.html"];
    let mut files = Vec::new(alloc);
    files.push(file_of(alloc, "a.html", page)?)?;
    let ran = run_on(alloc, words.as_slice(), Seq::from_vec(files), 9_999)?;
    Ok(ran.status == status && ran.bytes.as_slice() == line.as_bytes())
}

/// The number of the first row that is not so, from 0.
pub fn first_wrong(alloc: Global, rows: &[Row]) -> Result<Option<usize>, NoMemory> {
    for (i, (script, page, status, line)) in rows.iter().enumerate() {
        if !is_line(alloc, script, page, *status, line)? {
            return Ok(Some(i));
        }
    }
    Ok(None)
}
