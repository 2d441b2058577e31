//! Lines.
use css_selectors::SelectorList;
use json_lines::{css_line, page_line, reason_line, refused_line};
use query_script::{Chain, Field, FieldValue, Reason};
use std::alloc::Global;
use std::test::Fail;
use text_base::{NoMemory, PageFault, PageReason, SelectorFault, Seq, Txt, XPathFault};

#[test]
fn refusals(rt: HostRuntime) -> Result<(), Fail> {
    let alloc = rt.alloc();
    let line = reason_line(alloc, "script.Fields")?;
    assert_eq!(rt; line.as_str(), "{\"refused\":\"script.Fields\"}");
    let fault = PageFault {
        reason: PageReason::StrayEnd,
        at: 8,
    };
    let line = refused_line(alloc, "a \"b\".html", fault)?;
    assert_eq!(rt;
        line.as_str(),
        "{\"at\":8,\"page\":\"a \\\"b\\\".html\",\"refused\":\"page.StrayEnd\"}"
    );
    Ok(())
}

fn field(alloc: Global, name: &str) -> Result<Field, NoMemory> {
    Ok(Field {
        name: Txt::of(alloc, name)?,
        chain: Chain::Refused(Reason::Chain),
    })
}

#[test]
fn pages(rt: HostRuntime) -> Result<(), Fail> {
    let alloc = rt.alloc();
    let mut fields = Vec::new(alloc);
    for name in ["x", "n", "o", "c", "w", "s"] {
        fields.push(field(alloc, name)?)?;
    }
    let mut texts = Vec::new(alloc);
    texts.push(Txt::of(alloc, "a")?)?;
    texts.push(Txt::of(alloc, "\\ \u{8}\u{c}\u{1f}/\u{7f}\u{20ac}")?)?;
    let mut values = Vec::new(alloc);
    values.push(FieldValue::All(Seq::from_vec(texts)))?;
    values.push(FieldValue::One(None))?;
    values.push(FieldValue::One(Some(Txt::of(alloc, "\n\u{e9}")?)))?;
    values.push(FieldValue::Refused(Reason::XPath(XPathFault::Div)))?;
    values.push(FieldValue::Refused(Reason::Pattern))?;
    values.push(FieldValue::Refused(Reason::Css(SelectorFault::Syntax)))?;
    if values.len() == fields.len() {
        let line = page_line(
            alloc,
            "a.html",
            &Seq::from_vec(fields),
            &Seq::from_vec(values),
        )?;
        assert_eq!(rt;
            line.as_str(),
            "{\"fields\":[{\"name\":\"x\",\"value\":[\"a\",\"\\\\ \\b\\f\\u001f/\u{7f}\u{20ac}\"]},{\"name\":\"n\",\"value\":null},{\"name\":\"o\",\"value\":\"\\n\u{e9}\"},{\"name\":\"c\",\"refused\":\"xpath.Div\"},{\"name\":\"w\",\"refused\":\"re.Pattern\"},{\"name\":\"s\",\"refused\":\"css.Syntax\"}],\"page\":\"a.html\"}"
        );
    }
    let none = page_line(
        alloc,
        "b",
        &Seq::from_vec(Vec::new(alloc)),
        &Seq::from_vec(Vec::new(alloc)),
    )?;
    assert_eq!(rt; none.as_str(), "{\"fields\":[],\"page\":\"b\"}");
    Ok(())
}

#[test]
fn selectors(rt: HostRuntime) -> Result<(), Fail> {
    let alloc = rt.alloc();
    let list = SelectorList {
        items: Seq::from_vec(Vec::new(alloc)),
    };
    let line = css_line(alloc, &list, "a[@b = 'x']")?;
    assert_eq!(rt;
        line.as_str(),
        "{\"specificity\":[],\"xpath\":\"a[@b = 'x']\"}"
    );
    Ok(())
}
