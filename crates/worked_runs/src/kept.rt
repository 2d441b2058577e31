//! Runs of scripts that keep items by stored tests, and ask them in XPath.
use crate::tested::{Row, files_of, first_wrong, sink_of, words_of};
use extract_call::{Status, extract_with};
use io_edges::SurePages;
use std::alloc::Global;
use std::test::Fail;
use test_registry::Tests;
use text_base::NoMemory;
use worked_tests::{STORED, answer};

const PAGE: &[u8] = b"<ul><li>5<li>120<li>x</ul>";

const KEPT: [Row; 8] = [
    (
        "r: css('li::text').keep(near, '110').getall()",
        PAGE,
        Status::Done,
        "{\"fields\":[{\"name\":\"r\",\"value\":[\"120\"]}],\"page\":\"a.html\"}\n",
    ),
    (
        "r: css('li').keep(ends-with, '</li>').css('li::text').getall()",
        PAGE,
        Status::Done,
        "{\"fields\":[{\"name\":\"r\",\"value\":[\"5\",\"120\",\"x\"]}],\"page\":\"a.html\"}\n",
    ),
    (
        "r: xpath('//li[same(., \"X\")]/text()').get()",
        PAGE,
        Status::Done,
        "{\"fields\":[{\"name\":\"r\",\"value\":\"x\"}],\"page\":\"a.html\"}\n",
    ),
    (
        "r: css('li').keep(foo, 'x').get()",
        PAGE,
        Status::Refused,
        "{\"fields\":[{\"name\":\"r\",\"refused\":\"field.Test\"}],\"page\":\"a.html\"}\n",
    ),
    (
        "r: css('li::text') . keep\t( has-word ,\t\"x\" ) . getall()",
        PAGE,
        Status::Done,
        "{\"fields\":[{\"name\":\"r\",\"value\":[\"x\"]}],\"page\":\"a.html\"}\n",
    ),
    (
        "r: css('li::text').re('.').keep(same, '1').css('a').get()",
        PAGE,
        Status::Refused,
        "{\"fields\":[{\"name\":\"r\",\"refused\":\"field.Order\"}],\"page\":\"a.html\"}\n",
    ),
    (
        "r: css('li').keep(foo, 'x').re('(').css('a').get()",
        PAGE,
        Status::Refused,
        "{\"fields\":[{\"name\":\"r\",\"refused\":\"field.Test\"}],\"page\":\"a.html\"}\n",
    ),
    (
        "r: css('li').keep(same 'x').get()",
        PAGE,
        Status::Refused,
        "{\"fields\":[{\"name\":\"r\",\"refused\":\"field.Chain\"}],\"page\":\"a.html\"}\n",
    ),
];

/// Whether the run of a row ends so and writes exactly its line where these tests are stored.
fn is_line_over(alloc: Global, row: &Row, tests: &Tests) -> Result<bool, NoMemory> {
    let (script, page, status, line) = row;
    let words = words_of(alloc, ["run", "html", script, "a.html"].as_slice())?;
    let files: [(&str, &[u8]); 1] = [("a.html", page)];
    let mut pages = SurePages::new(files_of(alloc, files.as_slice())?, 9_999);
    let mut sink = sink_of(alloc, 9_999, 0)?;
    let ended = extract_with(alloc, words.as_slice(), &mut pages, &mut sink, tests);
    Ok(ended == *status && sink.bytes() == line.as_bytes())
}

#[test]
fn over_stored_tests(rt: HostRuntime) -> Result<(), Fail> {
    let alloc = rt.alloc();
    let mut tests = Tests::new(alloc);
    for (name, kind) in STORED {
        let test: Box<dyn Fn(&str, &str) -> bool> = Box::new(
            alloc,
            move |a: &str, b: &str| answer(kind, a, b),
        )?;
        assert!(rt; tests.add(name, kind, test).is_ok());
    }
    for row in &KEPT[..] {
        assert!(rt; is_line_over(alloc, row, &tests)?, "{}", row.0);
    }
    Ok(())
}

const NONE_STORED: [Row; 2] = [
    (
        "r: css('li::text').keep(near, '110').getall()",
        PAGE,
        Status::Refused,
        "{\"fields\":[{\"name\":\"r\",\"refused\":\"field.Test\"}],\"page\":\"a.html\"}\n",
    ),
    (
        "r: xpath('//li[same(., \"X\")]/text()').get()",
        PAGE,
        Status::Refused,
        "{\"fields\":[{\"name\":\"r\",\"refused\":\"xpath.Function\"}],\"page\":\"a.html\"}\n",
    ),
];

#[test]
fn over_no_tests(rt: HostRuntime) -> Result<(), Fail> {
    assert_eq!(rt; first_wrong(rt.alloc(), &NONE_STORED[..])?, None);
    Ok(())
}
