//! The values of fields, on small documents.
ghost use Rattle.std.specs.Prelude.{[]};
ghost use Rattle.query_script.specs.Ordered.{IsOrdered, KeepsStored};

use css_selectors::Dialect;
use doc_model::{Axes, Plain};
use query_chain::{prepare_with, run_field, run_ready_at};
use query_script::{Field, FieldValue, parse_script};
use std::alloc::Global;
use std::test::Fail;
use test_registry::Tests;
use text_base::{NoMemory, Txt};
use worked_trees::{Step, tree_of};

/// Adds texts, each behind a `|`.
fn push_texts(texts: &[Txt], out: &mut String) -> Result<(), NoMemory> {
    for text in texts {
        out.push_str("|")?;
        out.push_str(text.as_str())?;
    }
    Ok(())
}

/// A value as text: each text behind a `|`, `null`, or the reason.
fn shown(value: &FieldValue, out: &mut String) -> Result<(), NoMemory> {
    match value {
        FieldValue::All(texts) => push_texts(texts.as_slice(), out)?,
        FieldValue::One(Some(text)) => out.push_str(text.as_str())?,
        FieldValue::One(None) => out.push_str("null")?,
        FieldValue::Refused(reason) => out.push_str(reason.words().1)?,
    }
    Ok(())
}

/// The values of a script's fields, one after the other.
fn values<S: Axes>(alloc: Global, page: &S, script: &str) -> Result<String, NoMemory> {
    let mut out = String::new(alloc);
    let Ok(script) = parse_script(alloc, Dialect::Html, script) else {
        return Err(NoMemory);
    };
    for field in script.fields.as_slice() {
        shown(&run_field(alloc, page, field)?, &mut out)?;
    }
    Ok(out)
}

/// The values of a script on a page.
fn run(alloc: Global, steps: &[Step], script: &str) -> Result<String, NoMemory> {
    let page = Plain::new(tree_of(alloc, steps)?);
    values(alloc, &page, script)
}

/// `<div><div><b>x</b></div></div>`
const NESTED: [Step; 6] = [
    Step::Start("div", "", "", ""),
    Step::Start("div", "", "", ""),
    Step::Start("b", "", "", "x"),
    Step::End,
    Step::End,
    Step::End,
];

/// `<div><p>1</p><i>2</i></div>`
const NEXT: [Step; 6] = [
    Step::Start("div", "", "", ""),
    Step::Start("p", "", "", "1"),
    Step::End,
    Step::Start("i", "", "", "2"),
    Step::End,
    Step::End,
];

/// `<div><p>a</p><ul><li>b</li></ul></div>`
const LISTED: [Step; 8] = [
    Step::Start("div", "", "", ""),
    Step::Start("p", "", "", "a"),
    Step::End,
    Step::Start("ul", "", "", ""),
    Step::Start("li", "", "", "b"),
    Step::End,
    Step::End,
    Step::End,
];

/// `<p class="a&#12;b">x</p>`
const FED: [Step; 2] = [Step::Start("p", "class", "a\u{c}b", "x"), Step::End];

/// `<p>1-x 2-</p>`
const PAIRS: [Step; 2] = [Step::Start("p", "", "", "1-x 2-"), Step::End];

/// `<p>aab</p>`
const LETTERS: [Step; 2] = [Step::Start("p", "", "", "aab"), Step::End];

#[test]
fn gives_values(rt: HostRuntime) -> Result<(), Fail> {
    for (steps, script, want) in [
        (&NESTED[..], "x: css('div').css('b::text').getall()", "|x|x"),
        (&NEXT[..], "x: css('p').css('p + i::text').getall()", "|2"),
        (&NEXT[..], "x: xpath(\"number('x')\").get()", "NaN"),
        (&NEXT[..], "x: xpath('5 mod 0').get()", "NaN"),
        (&NEXT[..], "x: xpath('-5 mod 2').get()", "-1"),
        (
            &NEXT[..],
            "x: xpath(\"substring('12345', 0, 3)\").get()",
            "12",
        ),
        (&NEXT[..], "x: xpath('1 = 1').getall()", "|true"),
        (
            &LISTED[..],
            "x: xpath('name(//li/ancestor::*[1])').get()",
            "ul",
        ),
        (
            &LISTED[..],
            "x: xpath('//li/preceding::*[1]').getall()",
            "|<p>a</p>",
        ),
        (
            &LISTED[..],
            "x: xpath('//li/ancestor::*').xpath('name()').getall()",
            "|div|ul",
        ),
        (&FED[..], "f: css('p.a').getall()", ""),
        (&FED[..], "f: css('p.a').get()", "null"),
        (&FED[..], "f: css('p::attr(class)').get()", "a\u{c}b"),
        (
            &PAIRS[..],
            "r: css('p::text').re('(\\d+)-(x)?').getall()",
            "|1|x|2|",
        ),
        (&PAIRS[..], "r: css('p').re('\\d').re('.').getall()", "|1|2"),
        (&PAIRS[..], "r: css('p').re('z').get()", "null"),
        (&LETTERS[..], "r: css('p::text').re('a*').getall()", "|aa|"),
        (&LETTERS[..], "w: re('(').getall()", "Pattern"),
        (&LETTERS[..], "w: css('q').re('(').get()", "Pattern"),
        (
            &LETTERS[..],
            "1x: css('a').get(); y: css('a'); z: re('a').css('b').get()",
            "NameChainOrder",
        ),
    ] {
        let got = run(rt.alloc(), steps, script)?;
        assert_eq!(rt; got.as_str(), want, "{script}");
    }
    Ok(())
}

/// The values of a field that is prepared once: on two pages from the root node, and on the second from row 2.
fn values_of_one<S: Axes>(
    alloc: Global,
    first: &S,
    second: &S,
    field: &Field,
    out: &mut String,
) -> Result<(), NoMemory>
    requires ordered { IsOrdered field.now }
    requires stored { KeepsStored [] field.now }
{
    let tests = Tests::new(alloc);
    let ready = prepare_with(alloc, field, &tests)?;
    shown(&run_ready_at(alloc, first, &ready, 0, &tests)?, out)?;
    shown(&run_ready_at(alloc, second, &ready, 0, &tests)?, out)?;
    if second.len() <= 2 {
        return Err(NoMemory);
    }
    shown(&run_ready_at(alloc, second, &ready, 2, &tests)?, out)
}

#[test]
fn serves_each_page_and_row(rt: HostRuntime) -> Result<(), Fail> {
    let alloc = rt.alloc();
    let first = Plain::new(tree_of(alloc, &NESTED[..])?);
    let second = Plain::new(tree_of(alloc, &NEXT[..])?);
    let Ok(script) = parse_script(
        alloc,
        Dialect::Html,
        "t: xpath('.//text()').re('[a-z0-9]').getall(); n: xpath('name()').get(); w: re('(').get()",
    ) else {
        return Err(NoMemory.into());
    };
    let mut out = String::new(alloc);
    for field in script.fields.as_slice() {
        values_of_one(alloc, &first, &second, field, &mut out)?;
        out.push_str(";")?;
    }
    assert_eq!(rt; out.as_str(), "|x|1|2|1;p;PatternPatternPattern;");
    Ok(())
}

/// `<div>`, so many times `<i></i>`, `</div>`
fn many(alloc: Global, n: u32) -> Result<Vec<Step>, NoMemory> {
    let mut steps = Vec::new(alloc);
    steps.push(Step::Start("div", "", "", ""))?;
    for _ in 0..n {
        steps.push(Step::Start("i", "", "", ""))?;
        steps.push(Step::End)?;
    }
    steps.push(Step::End)?;
    Ok(steps)
}

#[test]
fn keeps_limits(rt: HostRuntime) -> Result<(), Fail> {
    let alloc = rt.alloc();
    for (n, script, want) in [
        (
            1000,
            "x: css('i').xpath('//i').xpath('1 = 2').re('t').getall()",
            "",
        ),
        (
            1001,
            "x: css('i').xpath('//i').xpath('1 = 2').re('t').getall()",
            "Selection",
        ),
    ] {
        let steps = many(alloc, n)?;
        let got = run(alloc, steps.as_slice(), script)?;
        assert_eq!(rt; got.as_str(), want, "{n} elements");
    }
    Ok(())
}
