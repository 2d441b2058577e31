//! Refusals in words.
use query_script::Reason;
use refusal_texts::{Refusal, push_place, push_refusal};
use std::alloc::Global;
use std::test::Fail;
use text_base::{NoMemory, PageReason, ScriptFault, SelectorFault, XPathFault};

/// What is written about a refusal.
fn written(
    alloc: Global,
    refusal: &Refusal,
    text: &str,
    place: Option<usize>,
) -> Result<String, Fail> {
    let mut out = String::new(alloc);
    push_refusal(alloc, &mut out, refusal, text, place)?;
    Ok(out)
}

#[test]
fn selectors(rt: HostRuntime) -> Result<(), Fail> {
    let alloc = rt.alloc();
    for (fault, text, place, lines) in [
        (
            SelectorFault::Text,
            "a[href=/p/1]",
            Some(7),
            "1:8: css.Text: no token begins at this character\n    a[href=/p/1]\n           ^\ninstead: put a value that is not a name in quotes: a[href=\"/p/1\"]; close each quote; an attribute is given by a::attr(href)",
        ),
        (
            SelectorFault::OfType,
            "*:first-of-type",
            None,
            "css.OfType: a class that counts by type has no type to count\ninstead: an element's name before the class: p:first-of-type",
        ),
        (
            SelectorFault::Number,
            "",
            Some(0),
            "1:1: css.Number: a number is larger than a million\n    \n    ^\ninstead: a number up to 1000000",
        ),
    ] {
        assert_eq!(rt;
            written(alloc, &Refusal::Css(fault), text, place)?.as_str(),
            lines
        );
    }
    Ok(())
}

/// Three lines, with a tabulator and letters of two and three bytes.
const THREE: &str = "ab\n\u{e9}\t\u{20ac}x\ny";

/// One line of 95 letters.
const LONG: &str =
    "0123456789012345678901234567890123456789012345678901234567890123456789X123456789012345678901234";

/// What is shown of it around the letter X.
const MIDDLE: &str =
    "    012345678901234567890123456789012345678901234567890123456789X1234567890123456789\n                                                                ^";

/// What stands after the place: the refusal, a line and its mark, and what helps.
fn around(alloc: Global, first: &str, middle: &str) -> Result<String, NoMemory> {
    let mut lines = String::new(alloc);
    lines.push_str(first)?;
    lines.push_str(": script.Fields: the script has more than 32 fields\n")?;
    lines.push_str(middle)?;
    lines.push_str(
        "\ninstead: fewer fields, or two scripts in two runs; a block counts as one field",
    )?;
    Ok(lines)
}

#[test]
fn lines(rt: HostRuntime) -> Result<(), Fail> {
    let alloc = rt.alloc();
    let refusal = Refusal::Script(ScriptFault::Fields);
    for (text, place, first, middle) in [
        (THREE, 9, "2:4", "    \u{e9} \u{20ac}x\n       ^"),
        (THREE, 7, "2:4", "    \u{e9} \u{20ac}x\n       ^"),
        (THREE, 10, "2:5", "    \u{e9} \u{20ac}x\n        ^"),
        (THREE, 99, "3:2", "    y\n     ^"),
        ("ab\n", 3, "2:1", "    \n    ^"),
        ("a\u{7f}\r\nb", 0, "1:1", "    a  \n    ^"),
        (LONG, 70, "1:71", MIDDLE),
    ] {
        assert_eq!(rt;
            written(alloc, &refusal, text, Some(place))?.as_str(),
            around(alloc, first, middle)?.as_str()
        );
        let mut at = String::new(alloc);
        push_place(alloc, &mut at, text, place)?;
        assert_eq!(rt; at.as_str(), first);
    }
    Ok(())
}

#[test]
fn words(rt: HostRuntime) -> Result<(), Fail> {
    for (refusal, first, second) in [
        (Refusal::Css(SelectorFault::Nested), "css", "Nested"),
        (Refusal::XPath(XPathFault::Div), "xpath", "Div"),
        (Refusal::Page(PageReason::StrayEnd), "page", "StrayEnd"),
        (Refusal::Field(Reason::Chain), "field", "Chain"),
        (Refusal::Field(Reason::Pattern), "re", "Pattern"),
        (
            Refusal::Field(Reason::Css(SelectorFault::Prefix)),
            "css",
            "Prefix",
        ),
        (
            Refusal::Field(Reason::XPath(XPathFault::Function)),
            "xpath",
            "Function",
        ),
        (Refusal::Script(ScriptFault::Long), "script", "Long"),
    ] {
        let (family, name) = refusal.words();
        assert_eq!(rt; family, first);
        assert_eq!(rt; name, second);
    }
    Ok(())
}

#[test]
fn sentences(rt: HostRuntime) -> Result<(), Fail> {
    for (refusal, sentence, advice) in [
        (
            Refusal::XPath(XPathFault::Div),
            "there is no division",
            "multiply the other side: a > 2 * b for a div b > 2; mod gives what is left",
        ),
        (
            Refusal::Page(PageReason::SecondRoot),
            "an element begins after the end of the element html",
            "move it before </html>",
        ),
        (
            Refusal::Field(Reason::Order),
            "a step wants elements where the step before it gives strings",
            "let the steps before give elements: re last, and //li for string(//li); re and keep of a block stand inside its braces",
        ),
        (
            Refusal::Field(Reason::Css(SelectorFault::Number)),
            "a number is larger than a million",
            "a number up to 1000000",
        ),
    ] {
        assert_eq!(rt; refusal.sentence(), sentence);
        assert_eq!(rt; refusal.advice(), advice);
    }
    Ok(())
}
