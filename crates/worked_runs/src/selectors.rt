//! The command `css`.
ghost use Rattle.std.specs.Prelude.{◌<◌};

use crate::tested::{sink_of, status_of};
use extract_call::Status;
use io_edges::SurePages;
use std::alloc::Global;
use std::test::Fail;
use text_base::{NoMemory, Seq};

/// A row: the dialect, the selector, the status and the line.
type Row = (&'static str, &'static str, Status, &'static str);

/// The status of the command and what a sink took that takes `most` bytes at once and fails at the
/// write of this number.
fn run(
    alloc: Global,
    dialect: &str,
    selector: &str,
    most: usize,
    fails: u64,
) -> Result<(Status, Vec<u8>), NoMemory>
    requires { 0 < most }
{
    let words = ["css", dialect, selector];
    let mut pages = SurePages::new(Seq::from_vec(Vec::new(alloc)), 1);
    let mut sink = sink_of(alloc, most, fails)?;
    let status = status_of(alloc, words.as_slice(), &mut pages, &mut sink)?;
    Ok((status, sink.bytes().to_vec(alloc)?))
}

/// The number of the first row that is not so, from 0, where a sink takes `most` bytes at once.
fn first_wrong(alloc: Global, rows: &[Row], most: usize) -> Result<Option<usize>, NoMemory>
    requires { 0 < most }
{
    for (i, (dialect, selector, status, line)) in rows.iter().enumerate() {
        let (ended, bytes) = run(alloc, dialect, selector, most, 0)?;
        if ended != *status || bytes.as_slice() != line.as_bytes() {
            return Ok(Some(i));
        }
    }
    Ok(None)
}

/// Selectors that are printed.
const PRINTED: [Row; 17] = [
    (
        "html",
        "a",
        Status::Done,
        "{\"specificity\":[[0,0,1]],\"xpath\":\"descendant-or-self::a\"}\n",
    ),
    (
        "generic",
        "*",
        Status::Done,
        "{\"specificity\":[[0,0,0]],\"xpath\":\"descendant-or-self::*\"}\n",
    ),
    (
        "html",
        "ul > li a",
        Status::Done,
        "{\"specificity\":[[0,0,3]],\"xpath\":\"descendant-or-self::ul/li/descendant::a\"}\n",
    ),
    (
        "html",
        "div.content",
        Status::Done,
        "{\"specificity\":[[0,1,1]],\"xpath\":\"descendant-or-self::div[@class and contains(concat(' ', normalize-space(@class), ' '), ' content ')]\"}\n",
    ),
    (
        "html",
        "a[title=\"it's \\22 x\\22\"]",
        Status::Done,
        "{\"specificity\":[[0,1,1]],\"xpath\":\"descendant-or-self::a[@title = concat('it', \\\"'\\\", 's \\\"x\\\"')]\"}\n",
    ),
    (
        "html",
        "tr:nth-child(odd)",
        Status::Done,
        "{\"specificity\":[[0,1,1]],\"xpath\":\"descendant-or-self::tr[count(preceding-sibling::*) mod 2 = 0]\"}\n",
    ),
    (
        "html",
        "li:nth-child(-n+3)",
        Status::Done,
        "{\"specificity\":[[0,1,1]],\"xpath\":\"descendant-or-self::li[count(preceding-sibling::*) <= 2]\"}\n",
    ),
    (
        "html",
        "li:nth-child(0n+0)",
        Status::Done,
        "{\"specificity\":[[0,1,1]],\"xpath\":\"descendant-or-self::li[0]\"}\n",
    ),
    (
        "html",
        "li:nth-child(3n-4)",
        Status::Done,
        "{\"specificity\":[[0,1,1]],\"xpath\":\"descendant-or-self::li[count(preceding-sibling::*) mod 3 = 1]\"}\n",
    ),
    (
        "html",
        "li:not(:last-of-type)",
        Status::Done,
        "{\"specificity\":[[0,1,1]],\"xpath\":\"descendant-or-self::li[not(self::*[count(following-sibling::li) = 0])]\"}\n",
    ),
    (
        "html",
        "h1 + p, ul > li",
        Status::Done,
        "{\"specificity\":[[0,0,2],[0,0,2]],\"xpath\":\"descendant-or-self::h1/following-sibling::*[1][self::p] | descendant-or-self::ul/li\"}\n",
    ),
    (
        "html",
        "a[href^=\"\"]",
        Status::Done,
        "{\"specificity\":[[0,1,1]],\"xpath\":\"descendant-or-self::a[0]\"}\n",
    ),
    (
        "html",
        ".a\\ b",
        Status::Done,
        "{\"specificity\":[[0,1,0]],\"xpath\":\"descendant-or-self::*[0]\"}\n",
    ),
    (
        "html",
        "a:hover",
        Status::Done,
        "{\"specificity\":[[0,1,1]],\"xpath\":\"descendant-or-self::a[0]\"}\n",
    ),
    (
        "html",
        "[xlink\\:href]",
        Status::Done,
        "{\"specificity\":[[0,1,0]],\"xpath\":\"descendant-or-self::*[attribute::*[name() = 'xlink:href']]\"}\n",
    ),
    (
        "generic",
        ":lang(EN)",
        Status::Done,
        "{\"specificity\":[[0,1,0]],\"xpath\":\"descendant-or-self::*[lang('EN')]\"}\n",
    ),
    (
        "html",
        ":lang(EN)",
        Status::Done,
        "{\"specificity\":[[0,1,0]],\"xpath\":\"descendant-or-self::*[ancestor-or-self::*[@lang][1][starts-with(concat(translate(@lang, 'ABCDEFGHIJKLMNOPQRSTUVWXYZ', 'abcdefghijklmnopqrstuvwxyz'), '-'), 'en-')]]\"}\n",
    ),
];

/// Selectors that are refused.
const REFUSED: [Row; 9] = [
    (
        "html",
        "*:first-of-type",
        Status::Refused,
        "{\"refused\":\"css.OfType\"}\n",
    ),
    (
        "html",
        "a,",
        Status::Refused,
        "{\"refused\":\"css.Syntax\"}\n",
    ),
    (
        "html",
        "",
        Status::Refused,
        "{\"refused\":\"css.Syntax\"}\n",
    ),
    (
        "html",
        "a & b",
        Status::Refused,
        "{\"refused\":\"css.Text\"}\n",
    ),
    (
        "html",
        "[foo|bar]",
        Status::Refused,
        "{\"refused\":\"css.Prefix\"}\n",
    ),
    (
        "html",
        "a:frob",
        Status::Refused,
        "{\"refused\":\"css.UnknownPseudo\"}\n",
    ),
    (
        "html",
        "a::before",
        Status::Refused,
        "{\"refused\":\"css.PseudoElement\"}\n",
    ),
    (
        "html",
        "a::text b",
        Status::Refused,
        "{\"refused\":\"css.PseudoElement\"}\n",
    ),
    (
        "html",
        "li:nth-child(1000001)",
        Status::Refused,
        "{\"refused\":\"css.Number\"}\n",
    ),
];

#[test]
fn rows(rt: HostRuntime) -> Result<(), Fail> {
    let alloc = rt.alloc();
    for most in [1, 9_999] {
        assert_eq!(rt; first_wrong(alloc, &PRINTED[..], most)?, None);
        assert_eq!(rt; first_wrong(alloc, &REFUSED[..], most)?, None);
    }
    Ok(())
}

/// The selector that is so many times the letter and then the rest.
fn long_selector(alloc: Global, letters: usize, rest: &str) -> Result<String, NoMemory> {
    let mut selector = String::new(alloc);
    for _ in 0..letters {
        selector.push_str("a")?;
    }
    selector.push_str(rest)?;
    Ok(selector)
}

/// An id and 127 times a class of position.
fn positions(alloc: Global, id: &str) -> Result<String, NoMemory> {
    let mut rest = String::from_str(alloc, id)?;
    for _ in 0..127 {
        rest.push_str(":first-of-type")?;
    }
    Ok(rest)
}

#[test]
fn longest(rt: HostRuntime) -> Result<(), Fail> {
    let alloc = rt.alloc();
    let rest = positions(alloc, "#bb")?;
    let selector = long_selector(alloc, 8_160, rest.as_str())?;
    let (status, bytes) = run(alloc, "html", selector.as_str(), 9_999, 0)?;
    assert_eq!(rt; status, Status::Done);
    // The XPath has 1,048,576 bytes, and 39 stand around it.
    assert_eq!(rt; bytes.len(), 1_048_615);
    Ok(())
}

#[test]
fn too_long(rt: HostRuntime) -> Result<(), Fail> {
    let alloc = rt.alloc();
    let rest = positions(alloc, "#bbb")?;
    let selector = long_selector(alloc, 8_160, rest.as_str())?;
    let (status, bytes) = run(alloc, "html", selector.as_str(), 9_999, 0)?;
    assert_eq!(rt; status, Status::Refused);
    assert_eq!(rt;
        bytes.as_slice(),
        "{\"refused\":\"css.XPathLong\"}\n".as_bytes()
    );
    let selector = long_selector(alloc, 16_385, "")?;
    let (status, bytes) = run(alloc, "html", selector.as_str(), 9_999, 0)?;
    assert_eq!(rt; status, Status::Refused);
    assert_eq!(rt; bytes.as_slice(), "{\"refused\":\"css.Long\"}\n".as_bytes());
    Ok(())
}

#[test]
fn sink_fails(rt: HostRuntime) -> Result<(), Fail> {
    let alloc = rt.alloc();
    let (status, bytes) = run(alloc, "html", "a", 4, 3)?;
    assert_eq!(rt; status, Status::WriteFault);
    assert_eq!(rt; bytes.as_slice(), "{\"specif".as_bytes());
    assert_eq!(rt; status.number(), 5);
    Ok(())
}
