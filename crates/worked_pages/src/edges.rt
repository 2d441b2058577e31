//! Pages that are read whole, and lines that are written whole.
ghost use Rattle.std.specs.Prelude.{◌<◌};

use io_edges::{
    FilePages, MemPages, MemSink, NullSink, PageFile, Pages, ReadEnd, StdoutSink, SurePages,
    WriteFault, read_page, write_whole,
};
use std::alloc::Global;
use std::test::Fail;
use text_base::{NoMemory, Seq, Txt};

/// The files `a` and `b`, each with these bytes.
fn two_files(alloc: Global, bytes: &[u8]) -> Result<Seq<PageFile>, NoMemory> {
    let mut files = Vec::new(alloc);
    for name in ["a", "b"] {
        files.push(PageFile {
            name: Txt::of(alloc, name)?,
            bytes: Seq::from_vec(bytes.to_vec(alloc)?),
        })?;
    }
    Ok(Seq::from_vec(files))
}

/// How many bytes the page has, or why it was not read.
fn size_of<P: Pages>(alloc: Global, pages: &mut P, name: &str) -> Result<usize, ReadEnd> {
    Ok(read_page(alloc, pages, name)?.len())
}

/// The same of `a` and then of the named file, with this call failing.
fn sizes_of(
    alloc: Global,
    most: usize,
    fails: u64,
    name: &str,
) -> Result<(Result<usize, ReadEnd>, Result<usize, ReadEnd>), NoMemory>
    requires { 0 < most }
{
    let fails = Seq::from_vec([fails].as_slice().to_vec(alloc)?);
    let mut pages = MemPages::new(two_files(alloc, b"<p>a</p>")?, most, fails);
    let first = size_of(alloc, &mut pages, "a");
    Ok((first, size_of(alloc, &mut pages, name)))
}

#[test]
fn reads_whole_pages(rt: HostRuntime) -> Result<(), Fail> {
    let alloc = rt.alloc();
    let fault = Err(ReadEnd::Fault);
    for (most, fails, name, first, second) in [
        (1, 0, "b", Ok(8), Ok(8)),
        (3, 0, "b", Ok(8), Ok(8)),
        (9_999, 0, "b", Ok(8), Ok(8)),
        (3, 0, "c", Ok(8), fault),
        (3, 1, "b", fault, Ok(8)),
        (3, 2, "b", fault, Ok(8)),
        (3, 5, "b", fault, Ok(8)),
        (4, 8, "b", Ok(8), fault),
        (4, 9, "b", Ok(8), Ok(8)),
    ] {
        let sizes = sizes_of(alloc, most, fails, name)?;
        assert_eq!(rt; sizes, (first, second), "most {most}, fails {fails}");
    }
    let mut pages = SurePages::new(two_files(alloc, b"<p>a</p>")?, 3);
    assert_eq!(rt;
        read_page(alloc, &mut pages, "a")?.as_slice(),
        b"<p>a</p>".as_slice()
    );
    Ok(())
}

#[test]
fn keeps_the_limit(rt: HostRuntime) -> Result<(), Fail> {
    let alloc = rt.alloc();
    let mut bytes = Vec::new(alloc);
    bytes.resize(4_194_304, 60)?;
    let mut pages = SurePages::new(two_files(alloc, bytes.as_slice())?, 9_999);
    assert_eq!(rt; size_of(alloc, &mut pages, "a"), Ok(4_194_304));
    bytes.push(60)?;
    let mut pages = SurePages::new(two_files(alloc, bytes.as_slice())?, 9_999);
    assert_eq!(rt; size_of(alloc, &mut pages, "a"), Err(ReadEnd::TooLong));
    Ok(())
}

#[test]
fn reads_files(rt: HostRuntime) -> Result<(), Fail> {
    let mut pages = FilePages::new(&rt);
    for (name, size) in [
        ("/dev/null", Ok(0)),
        ("/dev/zero", Err(ReadEnd::TooLong)),
        ("/", Err(ReadEnd::Fault)),
        ("/dev/null/a", Err(ReadEnd::Fault)),
    ] {
        assert_eq!(rt; size_of(rt.alloc(), &mut pages, name), size, "{name}");
    }
    Ok(())
}

#[test]
fn writes_all(rt: HostRuntime) -> Result<(), Fail> {
    let alloc = rt.alloc();
    let whole = Ok(());
    for (room, most, fails, answer, taken) in [
        (9, 1, 0, whole, "one two"),
        (9, 9_999, 0, whole, "one two"),
        (9, 9_999, 1, Err(WriteFault), ""),
        (9, 2, 3, Err(WriteFault), "one "),
        (5, 2, 0, Err(WriteFault), "one t"),
    ] {
        let fails = Seq::from_vec([fails].as_slice().to_vec(alloc)?);
        let mut sink = MemSink::new(alloc, room, most, fails)?;
        assert_eq!(rt; write_whole(&mut sink, b"one two"), answer);
        assert_eq!(rt; sink.bytes(), taken.as_bytes());
    }
    assert_eq!(rt; write_whole(&mut NullSink::new(), b"one two"), whole);
    assert_eq!(rt; write_whole(&mut StdoutSink::new(&rt), b"one two\n"), whole);
    Ok(())
}
