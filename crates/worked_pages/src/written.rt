//! Canonical markup that is read back.
use crate::trees::SHOP;
use doc_model::{Tree, VecGrow};
use html_reader::read_html;
use markup_back::{canonical, read_back};
use std::alloc::Global;
use std::test::Fail;
use text_base::{NoMemory, PAGE_LIMIT};

/// The canonical markup of a page, or its fault with the place.
fn written(alloc: Global, page: &str) -> Result<String, NoMemory> {
    if page.len() > PAGE_LIMIT {
        return Err(NoMemory);
    }
    match read_html(alloc, page, VecGrow::new(alloc)) {
        Ok(tree) => canonical(alloc, &tree),
        Err(fault) => Ok(format!(in alloc; "{:?} at {}", fault.reason, fault.at)?),
    }
}

/// How many rows the tree of a page has, and how many the tree that is read back of it.
fn rows_back(alloc: Global, page: &str) -> Result<(u32, u32), NoMemory> {
    if page.len() > PAGE_LIMIT {
        return Err(NoMemory);
    }
    match read_html(alloc, page, VecGrow::new(alloc)) {
        Ok(tree) => {
            let text = canonical(alloc, &tree)?;
            if text.len() > PAGE_LIMIT {
                return Err(NoMemory);
            }
            let back = read_back(alloc, &tree)?;
            Ok((tree.len(), back.len()))
        }
        Err(_) => Err(NoMemory),
    }
}

#[test]
fn writes_what_reads_back(rt: HostRuntime) -> Result<(), Fail> {
    let pages: [(&str, &str); 8] = [
        (
            "<ul><li>a<li>b &amp c</ul>",
            "<html><ul><li>a</li><li>b &amp;amp c</li></ul></html>",
        ),
        ("<pre>\n\nx</pre>", "<html><pre>\n\nx</pre></html>"),
        (
            "<p title=\"&#13;\">a<br>",
            "<html><p title=\"&#13;\">a<br></p></html>",
        ),
        (
            "<!--c--><HTML LANG=en><script>a<b\r&amp;</script>",
            "<!--c--><html lang=\"en\"><script>a<b\r&amp;</script></html>",
        ),
        (
            "<textarea>\n\n</textarea><listing>\n</listing>",
            "<html><textarea>\n\n</textarea><listing></listing></html>",
        ),
        ("&nbsp;\"&lt;&#13;", "<html>&nbsp;\"&lt;&#13;</html>"),
        (
            "<svg><path d='\"'/></svg>",
            "<html><svg><path d=\"&quot;\"></path></svg></html>",
        ),
        ("<p>a</p></p>", "StrayEnd at 8"),
    ];
    for (page, want) in pages {
        let got = written(rt.alloc(), page).expect(&rt, "memory");
        assert_eq!(rt; got.as_str(), want, "page {page}");
    }
    Ok(())
}

#[test]
fn stays_as_it_is_written(rt: HostRuntime) -> Result<(), Fail> {
    let pages: [&str; 3] = [
        "<html><pre>\n\nx</pre></html>",
        "<!--c--><html lang=\"en\"><script>a<b\r&amp;</script></html>",
        "<html>&nbsp;\"&lt;&#13;<br></html>",
    ];
    for page in pages {
        let got = written(rt.alloc(), page).expect(&rt, "memory");
        assert_eq!(rt; got.as_str(), page);
    }
    Ok(())
}

#[test]
fn reads_a_shop_back(rt: HostRuntime) -> Result<(), Fail> {
    assert_eq!(rt; rows_back(rt.alloc(), SHOP).expect(&rt, "memory"), (48, 48));
    Ok(())
}
