//! Runs of scripts on pages in memory.
use crate::tested::{Row, first_wrong, gives, run};
use extract_call::Status;
use std::alloc::Global;
use std::test::Fail;
use text_base::NoMemory;

const LINES: [Row; 3] = [
    (
        "x: css('li::text').getall()",
        b"<ul><li>a<li>b</ul>",
        Status::Done,
        "{\"fields\":[{\"name\":\"x\",\"value\":[\"a\",\"b\"]}],\"page\":\"a.html\"}\n",
    ),
    (
        "a: css('b::text').get(); c: xpath('1 div 2').get()",
        b"<b>x</b>",
        Status::Refused,
        "{\"fields\":[{\"name\":\"a\",\"value\":\"x\"},{\"name\":\"c\",\"refused\":\"xpath.Div\"}],\"page\":\"a.html\"}\n",
    ),
    (
        "",
        b"<p>",
        Status::Done,
        "{\"fields\":[],\"page\":\"a.html\"}\n",
    ),
];

#[test]
fn lines(rt: HostRuntime) -> Result<(), Fail> {
    assert_eq!(rt; first_wrong(rt.alloc(), &LINES[..])?, None);
    Ok(())
}

/// The script of the rows on one text.
const TEXT: &str = "t: css('p::text').get()";

const REFUSED: [Row; 10] = [
    (
        TEXT,
        b"",
        Status::Refused,
        "{\"at\":0,\"page\":\"a.html\",\"refused\":\"page.NoRoot\"}\n",
    ),
    (
        TEXT,
        b"<p><a hre",
        Status::Refused,
        "{\"at\":3,\"page\":\"a.html\",\"refused\":\"page.BadTag\"}\n",
    ),
    (
        TEXT,
        b"<p =\"x\">",
        Status::Refused,
        "{\"at\":0,\"page\":\"a.html\",\"refused\":\"page.BadAttribute\"}\n",
    ),
    (
        TEXT,
        b"<p><!-- x",
        Status::Refused,
        "{\"at\":3,\"page\":\"a.html\",\"refused\":\"page.BadComment\"}\n",
    ),
    (
        TEXT,
        b"<p><![CDATA[x]]></p>",
        Status::Refused,
        "{\"at\":3,\"page\":\"a.html\",\"refused\":\"page.BadMarkup\"}\n",
    ),
    (
        TEXT,
        b"<div>",
        Status::Refused,
        "{\"at\":5,\"page\":\"a.html\",\"refused\":\"page.Unclosed\"}\n",
    ),
    (
        TEXT,
        b"x<html>",
        Status::Refused,
        "{\"at\":0,\"page\":\"a.html\",\"refused\":\"page.TextOutside\"}\n",
    ),
    (
        TEXT,
        b"<html></html><p>",
        Status::Refused,
        "{\"at\":13,\"page\":\"a.html\",\"refused\":\"page.SecondRoot\"}\n",
    ),
    (
        TEXT,
        b"<p>\0",
        Status::Refused,
        "{\"at\":3,\"page\":\"a.html\",\"refused\":\"page.Nul\"}\n",
    ),
    (
        TEXT,
        b"<p>\xff",
        Status::Refused,
        "{\"at\":3,\"page\":\"a.html\",\"refused\":\"page.NotUtf8\"}\n",
    ),
];

#[test]
fn refused_pages(rt: HostRuntime) -> Result<(), Fail> {
    assert_eq!(rt; first_wrong(rt.alloc(), &REFUSED[..])?, None);
    Ok(())
}

/// The lines of two pages, the first of which is refused.
const SECOND: &str =
    "{\"at\":8,\"page\":\"a.html\",\"refused\":\"page.StrayEnd\"}\n{\"fields\":[{\"name\":\"t\",\"value\":\"b\"}],\"page\":\"b.html\"}\n";

#[test]
fn second_page(rt: HostRuntime) -> Result<(), Fail> {
    let words = ["run", "html", TEXT, "a.html", "b.html"];
    let pages: [(&str, &[u8]); 2] = [("b.html", b"<p>b</p>"), ("a.html", b"<p>a</p></p>")];
    assert!(rt;
        gives(
            rt.alloc(),
            words.as_slice(),
            pages.as_slice(),
            Status::Refused,
            SECOND,
            "a.html b.html "
        )?
    );
    Ok(())
}

/// The lines of two pages, for fields with patterns.
const EACH: &str =
    "{\"fields\":[{\"name\":\"d\",\"value\":[\"1\"]},{\"name\":\"w\",\"value\":[\"a\"]},{\"name\":\"b\",\"value\":null}],\"page\":\"a.html\"}\n{\"fields\":[{\"name\":\"d\",\"value\":[\"22\"]},{\"name\":\"w\",\"value\":[\"bc\"]},{\"name\":\"b\",\"value\":\"<b>x</b>\"}],\"page\":\"b.html\"}\n";

#[test]
fn fields_of_each_page(rt: HostRuntime) -> Result<(), Fail> {
    let words = [
        "run",
        "html",
        "d: css('p::text').re('\\d+').getall(); w: css('p::text').re('[a-z]+').getall(); b: css('b').get()",
        "a.html",
        "b.html",
    ];
    let pages: [(&str, &[u8]); 2] = [
        ("a.html", b"<p>a1</p>"),
        ("b.html", b"<p>22 bc</p><b>x</b>"),
    ];
    assert!(rt;
        gives(
            rt.alloc(),
            words.as_slice(),
            pages.as_slice(),
            Status::Done,
            EACH,
            "a.html b.html "
        )?
    );
    Ok(())
}

/// The line of a page with a line end and a character of two bytes.
const ENDED: &str = "{\"fields\":[{\"name\":\"t\",\"value\":\"\\n\u{e9}\"}],\"page\":\"a.html\"}\n";

#[test]
fn cut_reads(rt: HostRuntime) -> Result<(), Fail> {
    let words = ["run", "html", TEXT, "a.html"];
    let pages: [(&str, &[u8]); 1] = [("a.html", b"<p>\r\n\xc3\xa9</p>")];
    for most in [1, 9_999] {
        let ran = run(rt.alloc(), words.as_slice(), pages.as_slice(), most)?;
        assert_eq!(rt; ran.status, Status::Done);
        assert_eq!(rt; ran.bytes.as_slice(), ENDED.as_bytes());
    }
    Ok(())
}

/// The script of the row on a shop.
const SHOP_SCRIPT: &str =
    "title: css('title::text').get()\nlinks: css('li.item > a::attr(href)').getall()\nprices: css('ul.goods b::text').re('\\d+').getall()\nvb: xpath('//svg/@viewbox').get()\nsecond: css('li:nth-child(2) a').get()\n";

/// Its page.
const SHOP_PAGE: &str =
    "<!DOCTYPE html>\n<html lang=en>\n<head>\n<meta charset=\"utf-8\">\n<title>Shop &amp; more</title>\n<script>if (a < b) { run(\"</p>\"); }</script>\n</head>\n<body>\n<!-- list -->\n<svg viewBox=\"0 0 8 8\"><path d=\"M0 0\"/></svg>\n<ul class=\"goods wide\">\n<li class=item><a href=/p/1?x=1&y=2>One</a> <b>10&nbsp;EUR</b>\n<li class=item><a href=\"/p/2\">Two</a> <b>7&nbsp;EUR</b>\n</ul>\n</body>\n</html>\n";

/// Its line.
const SHOP_LINE: &str =
    "{\"fields\":[{\"name\":\"title\",\"value\":\"Shop & more\"},{\"name\":\"links\",\"value\":[\"/p/1?x=1&y=2\",\"/p/2\"]},{\"name\":\"prices\",\"value\":[\"10\",\"7\"]},{\"name\":\"vb\",\"value\":\"0 0 8 8\"},{\"name\":\"second\",\"value\":\"<a href=\\\"/p/2\\\">Two</a>\"}],\"page\":\"shop.html\"}\n";

#[test]
fn shop(rt: HostRuntime) -> Result<(), Fail> {
    let words = ["run", "html", SHOP_SCRIPT, "shop.html"];
    let pages = [("shop.html", SHOP_PAGE.as_bytes())];
    for most in [1, 2, 3, 9_999] {
        let ran = run(rt.alloc(), words.as_slice(), pages.as_slice(), most)?;
        assert_eq!(rt; ran.status, Status::Done);
        assert_eq!(rt; ran.bytes.as_slice(), SHOP_LINE.as_bytes());
    }
    Ok(())
}

/// The text so many times.
fn times(alloc: Global, text: &str, count: usize) -> Result<String, NoMemory> {
    let mut out = String::new(alloc);
    for _ in 0..count {
        out.push_str(text)?;
    }
    Ok(out)
}

/// Whether the script is refused as a whole by this line, and no page is begun.
fn is_refused(alloc: Global, script: &str, line: &str) -> Result<bool, NoMemory> {
    let words = ["run", "html", script, "a.html"];
    let pages: [(&str, &[u8]); 1] = [("a.html", b"<p>a</p>")];
    gives(
        alloc,
        words.as_slice(),
        pages.as_slice(),
        Status::Refused,
        line,
        "",
    )
}

#[test]
fn script_limits(rt: HostRuntime) -> Result<(), Fail> {
    let alloc = rt.alloc();
    let fields = times(alloc, "a: css('p').get();", 33)?;
    assert!(rt; is_refused(alloc, fields.as_str(), "{\"refused\":\"script.Fields\"}\n")?);
    let long = times(alloc, " ", 65_537)?;
    assert!(rt; is_refused(alloc, long.as_str(), "{\"refused\":\"script.Long\"}\n")?);
    Ok(())
}

const BULK: [(&str, &str); 3] = [
    (
        "3",
        "{\"fields\":[{\"name\":\"items\",\"value\":\"3\"},{\"name\":\"k3\",\"value\":\"1\"},{\"name\":\"last\",\"value\":\"item 3\"},{\"name\":\"odd\",\"value\":\"2\"},{\"name\":\"first\",\"value\":\"/p/1\"}],\"page\":\"bulk\"}\n",
    ),
    (
        "00300",
        "{\"fields\":[{\"name\":\"items\",\"value\":\"300\"},{\"name\":\"k3\",\"value\":\"43\"},{\"name\":\"last\",\"value\":\"item 300\"},{\"name\":\"odd\",\"value\":\"150\"},{\"name\":\"first\",\"value\":\"/p/1\"}],\"page\":\"bulk\"}\n",
    ),
    (
        "20000",
        "{\"fields\":[{\"name\":\"items\",\"value\":\"20000\"},{\"name\":\"k3\",\"value\":\"2857\"},{\"name\":\"last\",\"value\":\"item 20000\"},{\"name\":\"odd\",\"value\":\"10000\"},{\"name\":\"first\",\"value\":\"/p/1\"}],\"page\":\"bulk\"}\n",
    ),
];

#[test]
fn bulk(rt: HostRuntime) -> Result<(), Fail> {
    for (count, line) in BULK {
        let words = ["bulk", count];
        assert!(rt;
            gives(
                rt.alloc(),
                words.as_slice(),
                [].as_slice(),
                Status::Done,
                line,
                ""
            )?
        );
    }
    Ok(())
}

/// Whether the words have no form, nothing is read and nothing is written.
fn is_usage(alloc: Global, words: &[&str]) -> Result<bool, NoMemory> {
    let pages: [(&str, &[u8]); 1] = [("x", b"<p>")];
    gives(alloc, words, pages.as_slice(), Status::Usage, "", "")
}

/// Words that have none of the forms.
const WRONG: [&[&str]; 7] = [
    &[],
    &["css", "html"],
    &["css", "HTML", "a"],
    &["run", "html", "x"],
    &["bulk", "0"],
    &["bulk", "20001"],
    &["bulk", "000003"],
];

#[test]
fn usage(rt: HostRuntime) -> Result<(), Fail> {
    for words in WRONG {
        assert!(rt; is_usage(rt.alloc(), words)?);
    }
    Ok(())
}
