//! Runs of `clean`: the canonical markup of a page.
use crate::tested::{gives, run};
use extract_call::Status;
use std::alloc::Global;
use std::test::Fail;
use text_base::NoMemory;

/// Whether `clean` on the page `a.html` of these bytes ends so, writes exactly these bytes and begins the page once.
fn cleans(alloc: Global, page: &[u8], status: Status, written: &str) -> Result<bool, NoMemory> {
    let pages: [(&str, &[u8]); 1] = [("a.html", page)];
    gives(
        alloc,
        ["clean", "a.html"].as_slice(),
        pages.as_slice(),
        status,
        written,
        "a.html ",
    )
}

/// A row: the bytes of the page, the status and what is written.
type Clean = (&'static [u8], Status, &'static str);

const ROWS: [Clean; 9] = [
    (
        b"<ul><li>a<li>b &amp c</ul>",
        Status::Done,
        "<html><ul><li>a</li><li>b &amp;amp c</li></ul></html>\n",
    ),
    (
        b"<pre>\n\nx</pre>",
        Status::Done,
        "<html><pre>\n\nx</pre></html>\n",
    ),
    (
        b"<p title=\"&#13;\">a<br>",
        Status::Done,
        "<html><p title=\"&#13;\">a<br></p></html>\n",
    ),
    (
        b"<p>a</p></p>",
        Status::Refused,
        "{\"at\":8,\"page\":\"a.html\",\"refused\":\"page.StrayEnd\"}\n",
    ),
    (b"a\r\nb&#13;c", Status::Done, "<html>a\nb&#13;c</html>\n"),
    (
        b"<script>if (a < b && c) d(\"&amp;\")</script>",
        Status::Done,
        "<html><script>if (a < b && c) d(\"&amp;\")</script></html>\n",
    ),
    (
        b"<!--x-->\n<html>a</html><?y?>",
        Status::Done,
        "<!--x--><html>a</html><!--?y?-->\n",
    ),
    (
        b"<p>\xff",
        Status::Refused,
        "{\"at\":3,\"page\":\"a.html\",\"refused\":\"page.NotUtf8\"}\n",
    ),
    (
        b"",
        Status::Refused,
        "{\"at\":0,\"page\":\"a.html\",\"refused\":\"page.NoRoot\"}\n",
    ),
];

/// The number of the first row that is not so, from 0.
fn first_wrong(alloc: Global, rows: &[Clean]) -> Result<Option<usize>, NoMemory> {
    for (i, (page, status, written)) in rows.iter().enumerate() {
        if !cleans(alloc, page, *status, written)? {
            return Ok(Some(i));
        }
    }
    Ok(None)
}

#[test]
fn markup(rt: HostRuntime) -> Result<(), Fail> {
    assert_eq!(rt; first_wrong(rt.alloc(), &ROWS[..])?, None);
    Ok(())
}

/// What `clean` writes for a page is a page, of which it writes the same again.
fn writes_again(alloc: Global, page: &[u8]) -> Result<bool, NoMemory> {
    let words = ["clean", "a.html"];
    let pages: [(&str, &[u8]); 1] = [("a.html", page)];
    let once = run(alloc, words.as_slice(), pages.as_slice(), 9_999)?;
    let written: [(&str, &[u8]); 1] = [("a.html", once.bytes.as_slice())];
    let twice = run(alloc, words.as_slice(), written.as_slice(), 9_999)?;
    Ok(
        once.status == Status::Done
            && twice.status == Status::Done
            && once.bytes.as_slice() == twice.bytes.as_slice(),
    )
}

/// The line feed at the end of what was written is no text of a page with an `html` element.
#[test]
fn same_again(rt: HostRuntime) -> Result<(), Fail> {
    for page in [
        &b"<!DOCTYPE html>\n<html lang=en>\n<P Class=A CLASS=b hidden>a</P></html>\n"[..],
        &b"<pre>\n\nx</pre><textarea>\n</textarea>"[..],
        &b"<table><tr><td>1<td>2<tr><td>3</table><p>a<p>b<br><img src='a\"b'>"[..],
    ] {
        assert!(rt; writes_again(rt.alloc(), page)?);
    }
    Ok(())
}

/// `clean` takes one page.
#[test]
fn one_page(rt: HostRuntime) -> Result<(), Fail> {
    let alloc = rt.alloc();
    let pages: [(&str, &[u8]); 1] = [("a.html", &b"<p>"[..])];
    assert!(rt;
        gives(
            alloc,
            ["clean"].as_slice(),
            pages.as_slice(),
            Status::Usage,
            "",
            ""
        )?
    );
    assert!(rt;
        gives(
            alloc,
            ["clean", "a.html", "a.html"].as_slice(),
            pages.as_slice(),
            Status::Usage,
            "",
            ""
        )?
    );
    assert!(rt;
        gives(
            alloc,
            ["clean", "b.html"].as_slice(),
            pages.as_slice(),
            Status::ReadFault,
            "",
            "b.html "
        )?
    );
    Ok(())
}
