//! The XPath that selectors are printed as.
use css_parser::parse_selectors;
use css_selectors::Dialect;
use css_translate::{literal, translate};
use std::alloc::Global;
use std::test::Fail;

/// The XPath of the selectors of a text, on HTML, or the word of what refuses them.
fn said(alloc: Global, text: &str) -> Result<String, Fail> {
    let list = match parse_selectors(alloc, text) {
        Ok(list) => list,
        Err(fault) => return Ok(String::from_str(alloc, fault.word())?),
    };
    match translate(alloc, Dialect::Html, &list) {
        Ok(path) => Ok(path),
        Err(fault) => Ok(String::from_str(alloc, fault.word())?),
    }
}

const ROWS: [(&str, &str); 7] = [
    (
        "a[title=\"it's \\22 x\\22\"]",
        "descendant-or-self::a[@title = concat('it', \"'\", 's \"x\"')]",
    ),
    (
        "li:nth-child(3n-4)",
        "descendant-or-self::li[count(preceding-sibling::*) mod 3 = 1]",
    ),
    (
        "li:not(:last-of-type)",
        "descendant-or-self::li[not(self::*[count(following-sibling::li) = 0])]",
    ),
    (
        "li:is(:first-of-type)",
        "descendant-or-self::li[self::*[count(preceding-sibling::li) = 0]]",
    ),
    (
        "ul:has(> li.x + li)",
        "descendant-or-self::ul[child::li[@class and contains(concat(' ', normalize-space(@class), ' '), ' x ')]/following-sibling::*[1][self::li]]",
    ),
    (
        "h1:has(+ p, ~ ul)",
        "descendant-or-self::h1[following-sibling::*[1][self::p] or following-sibling::ul]",
    ),
    (
        "p:not(:has(a))",
        "descendant-or-self::p[not(self::*[descendant::a])]",
    ),
];

#[test]
fn prints(rt: HostRuntime) -> Result<(), Fail> {
    let alloc = rt.alloc();
    for (text, want) in ROWS {
        let path = said(alloc, text)?;
        assert_eq!(rt; path.as_str(), want, "{text}");
    }
    assert_eq!(rt; literal(alloc, "''\"é")?.as_str(), "concat(\"''\", '\"é')");
    Ok(())
}
