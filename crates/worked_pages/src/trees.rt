//! The trees of pages, and where they are refused.
use doc_model::{Kind, Tree, VecGrow, VecTree};
use html_reader::read_html;
use std::alloc::Global;
use std::test::Fail;
use text_base::{NoMemory, PAGE_LIMIT, PageFault, PageReason};

fn read(alloc: Global, page: &str) -> Result<VecTree, PageFault> {
    if page.len() > PAGE_LIMIT {
        return Err(PageFault {
            reason: PageReason::TooLong,
            at: PAGE_LIMIT,
        });
    }
    read_html(alloc, page, VecGrow::new(alloc))
}

/// The rows after the root node, each with its parent before it: elements as `0<p`, attributes as `1@id=a`, texts as
/// `1"a`, comments as `1!c`.
fn rows(alloc: Global, tree: &VecTree) -> Result<String, NoMemory> {
    let mut out = String::new(alloc);
    for i in 1..tree.len() {
        let parent = tree.parent(i);
        let name = tree.name(i);
        let text = tree.text(i);
        let row = match tree.kind(i) {
            Kind::Root => format!(in alloc; "?")?,
            Kind::Element => format!(in alloc; "{parent}<{name} ")?,
            Kind::Attribute => format!(in alloc; "{parent}@{name}={text} ")?,
            Kind::Text => format!(in alloc; "{parent}\"{text} ")?,
            Kind::Comment => format!(in alloc; "{parent}!{text} ")?,
        };
        out.push_str(row.as_str())?;
    }
    Ok(out)
}

/// A page as shops have them.
pub const SHOP: &str = "<!DOCTYPE html>
<html lang=en>
<head>
<meta charset=\"utf-8\">
<title>Shop &amp; more</title>
<script>if (a < b) { run(\"</p>\"); }</script>
</head>
<body>
<!-- list -->
<svg viewBox=\"0 0 8 8\"><path d=\"M0 0\"/></svg>
<ul class=\"goods wide\">
<li class=item><a href=/p/1?x=1&y=2>One</a> <b>10&nbsp;EUR</b>
<li class=item><a href=\"/p/2\">Two</a> <b>7&nbsp;EUR</b>
</ul>
</body>
</html>
";

const SHOP_ROWS: &str =
    "0<html 1@lang=en 1\"\n 1<head 4\"\n 4<meta 6@charset=utf-8 4\"\n 4<title 9\"Shop & more 4\"\n \
    4<script 12\"if (a < b) { run(\"</p>\"); } 4\"\n 1\"\n 1<body 16\"\n 16! list  16\"\n 16<svg 20@viewbox=0 0 8 8 \
    20<path 22@d=M0 0 16\"\n 16<ul 25@class=goods wide 25\"\n 25<li 28@class=item 28<a 30@href=/p/1?x=1&y=2 30\"One 28\"  \
    28<b 34\"10\u{a0}EUR 28\"\n 25<li 37@class=item 37<a 39@href=/p/2 39\"Two 37\"  37<b 43\"7\u{a0}EUR 37\"\n 16\"\n 1\"\n ";

/// The rows of a page as above, or its fault with the place.
fn told(alloc: Global, page: &str) -> Result<String, NoMemory> {
    match read(alloc, page) {
        Ok(tree) => rows(alloc, &tree),
        Err(fault) => Ok(format!(in alloc; "{:?} at {}", fault.reason, fault.at)?),
    }
}

#[test]
fn reads_a_shop(rt: HostRuntime) -> Result<(), Fail> {
    let got = told(rt.alloc(), SHOP).expect(&rt, "memory");
    assert_eq!(rt; got.as_str(), SHOP_ROWS);
    Ok(())
}

#[test]
fn inserts_ends(rt: HostRuntime) -> Result<(), Fail> {
    let pages: [(&str, &str); 5] = [
        ("<ul><li>a<li>b</ul>", "0<html 1<ul 2<li 3\"a 2<li 5\"b "),
        (
            "<table><tr><td>1<td>2<tr><td>3</table>",
            "0<html 1<table 2<tr 3<td 4\"1 3<td 6\"2 2<tr 8<td 9\"3 ",
        ),
        (
            "<select><optgroup><option>a<option>b<optgroup><option>c</select>",
            "0<html 1<select 2<optgroup 3<option 4\"a 3<option 6\"b 2<optgroup 8<option 9\"c ",
        ),
        (
            "<dl><dt>a<dd>b<dt>c</dl>",
            "0<html 1<dl 2<dt 3\"a 2<dd 5\"b 2<dt 7\"c ",
        ),
        (
            "<ruby>a<rt>b<rp>c</ruby>",
            "0<html 1<ruby 2\"a 2<rt 4\"b 2<rp 6\"c ",
        ),
    ];
    for (page, want) in pages {
        let got = told(rt.alloc(), page).expect(&rt, "memory");
        assert_eq!(rt; got.as_str(), want, "page {page}");
    }
    Ok(())
}

#[test]
fn keeps_texts_and_attributes(rt: HostRuntime) -> Result<(), Fail> {
    let pages: [(&str, &str); 6] = [
        ("<svg><pre/>\nx</svg>", "0<html 1<svg 2<pre 2\"x "),
        ("<PRE>\n\nx</pre>", "0<html 1<pre 2\"\nx "),
        ("<p>a<!doctype x>b</p>", "0<html 1<p 2\"ab "),
        (
            "<p>a<!--c-->b<br></p>\n<!--d-->",
            "0<html 1<p 2\"a 2!c 2\"b 2<br 1\"\n 1!d ",
        ),
        (
            "<p ID=a Title='&lt;b' id=b>&euro;</p>",
            "0<html 1<p 2@id=a 2@title=<b 2\"\u{20ac} ",
        ),
        (
            "<p a b c d e f g h i j k l m n o p q r s t B=2 T=5 u=6>x</p>",
            "0<html 1<p 2@a= 2@b= 2@c= 2@d= 2@e= 2@f= 2@g= 2@h= 2@i= 2@j= 2@k= 2@l= 2@m= 2@n= 2@o= 2@p= 2@q= 2@r= 2@s= 2@t= 2@u=6 2\"x ",
        ),
    ];
    for (page, want) in pages {
        let got = told(rt.alloc(), page).expect(&rt, "memory");
        assert_eq!(rt; got.as_str(), want, "page {page}");
    }
    Ok(())
}

#[test]
fn makes_a_root(rt: HostRuntime) -> Result<(), Fail> {
    let pages: [(&str, &str); 8] = [
        ("a<p>b</p><p>c", "0<html 1\"a 1<p 3\"b 1<p 5\"c "),
        ("<p>a</p><p>b</p>", "0<html 1<p 2\"a 1<p 4\"b "),
        ("x<p>", "0<html 1\"x 1<p "),
        (
            "<div><p>a</p><ul><li>b</li></ul></div>",
            "0<html 1<div 2<p 3\"a 2<ul 5<li 6\"b ",
        ),
        (
            "<head><title></title><p>a",
            "0<html 1<head 2<title 1<p 4\"a ",
        ),
        ("<p>a</p>b<!doctype x>c", "0<html 1<p 2\"a 1\"bc "),
        ("<!--c-->\n<b></b>", "0<html 1!c 1\"\n 1<b "),
        ("&nbsp;", "0<html 1\"\u{a0} "),
    ];
    for (page, want) in pages {
        let got = told(rt.alloc(), page).expect(&rt, "memory");
        assert_eq!(rt; got.as_str(), want, "page {page}");
    }
    Ok(())
}

#[test]
fn takes_the_root_of_a_page(rt: HostRuntime) -> Result<(), Fail> {
    let pages: [(&str, &str); 6] = [
        (
            "<html><head><title></title><p>a",
            "0<html 1<head 2<title 1<p 4\"a ",
        ),
        (
            " <!doctype html> <HTML><p>x</HTML> <!--c--> ",
            "0<html 1<p 2\"x 0!c ",
        ),
        ("<html></html>x", "TextOutside at 13"),
        ("<html></html><p>", "SecondRoot at 13"),
        ("x<html>", "TextOutside at 0"),
        ("x<html><!y", "TextOutside at 0"),
    ];
    for (page, want) in pages {
        let got = told(rt.alloc(), page).expect(&rt, "memory");
        assert_eq!(rt; got.as_str(), want, "page {page}");
    }
    Ok(())
}

#[test]
fn refuses_markup(rt: HostRuntime) -> Result<(), Fail> {
    let pages: [(&str, &str); 7] = [
        ("<p><a hre", "BadTag at 3"),
        ("<p =\"x\">", "BadAttribute at 0"),
        ("<p><!-- x", "BadComment at 3"),
        ("<p><![CDATA[x]]></p>", "BadMarkup at 3"),
        ("x<!y", "BadMarkup at 1"),
        ("x<!y<html>", "BadMarkup at 1"),
        ("x<html a=\"", "BadTag at 1"),
    ];
    for (page, want) in pages {
        let got = told(rt.alloc(), page).expect(&rt, "memory");
        assert_eq!(rt; got.as_str(), want, "page {page}");
    }
    Ok(())
}

#[test]
fn refuses_trees(rt: HostRuntime) -> Result<(), Fail> {
    let pages: [(&str, &str); 7] = [
        ("", "NoRoot at 0"),
        (" <!--c-->", "NoRoot at 9"),
        ("<div>", "Unclosed at 5"),
        ("<p>x</p></html>", "StrayEnd at 8"),
        ("<p>a<b>c</p>", "StrayEnd at 8"),
        ("<p>a</p></p>", "StrayEnd at 8"),
        ("<p>a</p></p><a hre", "StrayEnd at 8"),
    ];
    for (page, want) in pages {
        let got = told(rt.alloc(), page).expect(&rt, "memory");
        assert_eq!(rt; got.as_str(), want, "page {page}");
    }
    Ok(())
}

/// The fault of the page below, cut after so many bytes.
fn cut_fault(bytes: usize) -> Option<PageFault> {
    let (reason, at) = match bytes {
        0 => (PageReason::NoRoot, 0),
        2 => (PageReason::BadTag, 0),
        5..=15 => (PageReason::BadTag, 3),
        16..=18 => (PageReason::Unclosed, bytes),
        19..=20 => (PageReason::BadTag, 17),
        23..=24 => (PageReason::BadMarkup, 21),
        25..=28 => (PageReason::BadComment, 21),
        31..=32 => (PageReason::BadTag, 29),
        _ => return None,
    };
    Some(PageFault { reason, at })
}

#[test]
fn refuses_cut_pages(rt: HostRuntime) -> Result<(), Fail> {
    let mut page = String::new(rt.alloc());
    for c in "<p><b class=\"x\">y</b><!--z--></p>".chars() {
        let bytes = page.len();
        assert_eq!(rt;
            read(rt.alloc(), page.as_str()).err(),
            cut_fault(bytes),
            "{bytes} bytes"
        );
        page.push(c)?;
    }
    assert_eq!(rt; page.len(), 33);
    assert!(rt; read(rt.alloc(), page.as_str()).is_ok());
    Ok(())
}

/// `<b>` so many times in itself, with a start tag before and an end tag after.
fn nested(alloc: Global, before: &str, depth: usize, after: &str) -> Result<String, NoMemory> {
    let mut page = String::new(alloc);
    page.push_str(before)?;
    for _ in 0..depth {
        page.push_str("<b>")?;
    }
    for _ in 0..depth {
        page.push_str("</b>")?;
    }
    page.push_str(after)?;
    Ok(page)
}

#[test]
fn nests(rt: HostRuntime) -> Result<(), Fail> {
    for (before, after, deep) in [("", "", 1536), ("<html>", "</html>", 1542)] {
        let page = nested(rt.alloc(), before, 512, after).expect(&rt, "memory");
        match read(rt.alloc(), page.as_str()) {
            Ok(tree) => assert_eq!(rt; tree.len(), 514),
            Err(fault) => assert!(rt; false, "refused at {}", fault.at),
        }
        let page = nested(rt.alloc(), before, 513, after).expect(&rt, "memory");
        let fault = PageFault {
            reason: PageReason::Deep,
            at: deep,
        };
        assert_eq!(rt; read(rt.alloc(), page.as_str()).err(), Some(fault));
    }
    Ok(())
}
