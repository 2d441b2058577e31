//! Runs on pages that have no `html` element, and on a page that is cut at each byte.
use crate::tested::{Row, first_wrong, is_line};
use extract_call::Status;
use std::alloc::Global;
use std::test::Fail;
use text_base::NoMemory;

const FRAGMENTS: [Row; 4] = [
    (
        "t: xpath('/*').getall()",
        b"a<p>b</p><p>c",
        Status::Done,
        "{\"fields\":[{\"name\":\"t\",\"value\":[\"<html>a<p>b</p><p>c</p></html>\"]}],\"page\":\"a.html\"}\n",
    ),
    (
        "t: css('p + p::text').get()",
        b"<p>a</p><p>b</p>",
        Status::Done,
        "{\"fields\":[{\"name\":\"t\",\"value\":\"b\"}],\"page\":\"a.html\"}\n",
    ),
    (
        "t: xpath('//li/ancestor::*').xpath('name()').getall()",
        b"<div><p>a</p><ul><li>b</li></ul></div>",
        Status::Done,
        "{\"fields\":[{\"name\":\"t\",\"value\":[\"html\",\"div\",\"ul\"]}],\"page\":\"a.html\"}\n",
    ),
    (
        "t: css('html:only-child > p::text').get()",
        b"<p>x</p>",
        Status::Done,
        "{\"fields\":[{\"name\":\"t\",\"value\":\"x\"}],\"page\":\"a.html\"}\n",
    ),
];

#[test]
fn fragments(rt: HostRuntime) -> Result<(), Fail> {
    assert_eq!(rt; first_wrong(rt.alloc(), &FRAGMENTS[..])?, None);
    Ok(())
}

/// The page that is cut.
const CUT: &[u8] = b"<p><b class=\"x\">y</b><!--z--></p>";

/// Whether the run on the first `n` bytes of that page ends so and writes exactly the line.
fn is_cut_line(alloc: Global, n: usize, status: Status, line: &str) -> Result<bool, NoMemory> {
    match CUT.get(..n) {
        Some(bytes) => is_line(alloc, "t: css('p::text').get()", bytes, status, line),
        None => Ok(false),
    }
}

/// A row: from how many bytes to how many, the status and the line.
type Cut = (usize, usize, Status, &'static str);

/// The first number of bytes that is not answered by the line of its row.
fn first_wrong_cut(alloc: Global, rows: &[Cut]) -> Result<Option<usize>, NoMemory> {
    for (first, last, status, line) in rows {
        for n in *first..=*last {
            if !is_cut_line(alloc, n, *status, line)? {
                return Ok(Some(n));
            }
        }
    }
    Ok(None)
}

const CUTS_REFUSED: [Cut; 10] = [
    (
        0,
        0,
        Status::Refused,
        "{\"at\":0,\"page\":\"a.html\",\"refused\":\"page.NoRoot\"}\n",
    ),
    (
        2,
        2,
        Status::Refused,
        "{\"at\":0,\"page\":\"a.html\",\"refused\":\"page.BadTag\"}\n",
    ),
    (
        5,
        15,
        Status::Refused,
        "{\"at\":3,\"page\":\"a.html\",\"refused\":\"page.BadTag\"}\n",
    ),
    (
        16,
        16,
        Status::Refused,
        "{\"at\":16,\"page\":\"a.html\",\"refused\":\"page.Unclosed\"}\n",
    ),
    (
        17,
        17,
        Status::Refused,
        "{\"at\":17,\"page\":\"a.html\",\"refused\":\"page.Unclosed\"}\n",
    ),
    (
        18,
        18,
        Status::Refused,
        "{\"at\":18,\"page\":\"a.html\",\"refused\":\"page.Unclosed\"}\n",
    ),
    (
        19,
        20,
        Status::Refused,
        "{\"at\":17,\"page\":\"a.html\",\"refused\":\"page.BadTag\"}\n",
    ),
    (
        23,
        24,
        Status::Refused,
        "{\"at\":21,\"page\":\"a.html\",\"refused\":\"page.BadMarkup\"}\n",
    ),
    (
        25,
        28,
        Status::Refused,
        "{\"at\":21,\"page\":\"a.html\",\"refused\":\"page.BadComment\"}\n",
    ),
    (
        31,
        32,
        Status::Refused,
        "{\"at\":29,\"page\":\"a.html\",\"refused\":\"page.BadTag\"}\n",
    ),
];

#[test]
fn cuts_that_are_refused(rt: HostRuntime) -> Result<(), Fail> {
    assert_eq!(rt; first_wrong_cut(rt.alloc(), &CUTS_REFUSED[..])?, None);
    Ok(())
}

/// The line of a page whose `p` has no text.
const NULL: &str = "{\"fields\":[{\"name\":\"t\",\"value\":null}],\"page\":\"a.html\"}\n";

/// The line of a page that ends in a `<`.
const LESS: &str = "{\"fields\":[{\"name\":\"t\",\"value\":\"<\"}],\"page\":\"a.html\"}\n";

const CUTS_READ: [Cut; 8] = [
    (1, 1, Status::Done, NULL),
    (3, 3, Status::Done, NULL),
    (4, 4, Status::Done, LESS),
    (21, 21, Status::Done, NULL),
    (22, 22, Status::Done, LESS),
    (29, 29, Status::Done, NULL),
    (30, 30, Status::Done, LESS),
    (33, 33, Status::Done, NULL),
];

#[test]
fn cuts_that_are_read(rt: HostRuntime) -> Result<(), Fail> {
    assert_eq!(rt; first_wrong_cut(rt.alloc(), &CUTS_READ[..])?, None);
    Ok(())
}
