//! The values of expressions on a small document.
use doc_model::{Axes, Plain};
use std::alloc::Global;
use text_base::NoMemory;
use worked_trees::{Step, tree_of};
use xpath_eval::eval;
use xpath_parser::parse_xpath;
use xpath_values::{Value, XNum};

/// `<div><p>a</p><ul><li>b</li></ul></div>`
pub(crate) const PAGE: [Step; 8] = [
    Step::Start("div", "", "", ""),
    Step::Start("p", "", "", "a"),
    Step::End,
    Step::Start("ul", "", "", ""),
    Step::Start("li", "", "", "b"),
    Step::End,
    Step::End,
    Step::End,
];

/// The value as text.
pub(crate) fn shown(alloc: Global, value: &Value) -> Result<String, NoMemory> {
    match value {
        Value::Bool(truth) => Ok(format!(in alloc; "{truth}")?),
        Value::Num(XNum::NaN) => Ok(String::from_str(alloc, "NaN")?),
        Value::Num(XNum::Whole(number)) => Ok(format!(in alloc; "{number}")?),
        Value::Str(text) => Ok(format!(in alloc; "'{}'", text.as_str())?),
        Value::Nodes(rows) => Ok(format!(in alloc; "{:?}", rows.as_slice())?),
    }
}

/// What an XPath text gives from the root node.
pub(crate) fn from_root<S: Axes>(
    alloc: Global,
    source: &S,
    text: &str,
) -> Result<String, NoMemory> {
    let Ok(typed) = parse_xpath(alloc, text) else {
        return Ok(String::from_str(alloc, "refused")?);
    };
    if source.len() == 0 {
        return Err(NoMemory);
    }
    let value = eval(alloc, source, &typed, 0)?;
    shown(alloc, &value)
}

#[test]
fn gives_values(rt: HostRuntime) {
    let alloc = rt.alloc();
    let page = Plain::new(tree_of(alloc, &PAGE[..]).expect(&rt, "memory"));
    for (text, want) in [
        ("name(//li/ancestor::*[1])", "'ul'"),
        ("//li/preceding::*[1]", "[2]"),
        ("//li/ancestor::*", "[1, 4]"),
        ("//li | //p | //li", "[2, 5]"),
        ("count(//node())", "6"),
        ("(//li | //p)[1]", "[2]"),
        ("//li[last()]", "[5]"),
        ("//*[position() = 2]", "[4]"),
        ("9007199254740991 + 1", "NaN"),
    ] {
        let got = from_root(alloc, &page, text).expect(&rt, "memory");
        assert_eq!(rt; got.as_str(), want, "{text}");
    }
}

/// So many times the front, `1`, and so many times the back.
fn around(alloc: Global, times: u32, front: &str, back: &str) -> Result<String, NoMemory> {
    let mut text = String::new(alloc);
    for _ in 0..times {
        text.push_str(front)?;
    }
    text.push_str("1")?;
    for _ in 0..times {
        text.push_str(back)?;
    }
    Ok(text)
}

#[test]
fn gives_values_of_long_texts(rt: HostRuntime) {
    let alloc = rt.alloc();
    let page = Plain::new(tree_of(alloc, &PAGE[..]).expect(&rt, "memory"));
    for (times, front, back) in [(64, "(", ")"), (100_000, "-", "")] {
        let text = around(alloc, times, front, back).expect(&rt, "memory");
        let got = from_root(alloc, &page, text.as_str()).expect(&rt, "memory");
        assert_eq!(rt; got.as_str(), "1");
    }
}
