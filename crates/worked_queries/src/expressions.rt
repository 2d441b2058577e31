//! What texts read as, as XPath.
use std::alloc::Global;
use std::test::Fail;
use test_registry::{TestKind, Tests, near};
use text_base::XPathFault;
use xpath_parser::{Typed, parse_xpath, parse_xpath_with};
use xpath_values::Shape;

/// Whether a fault of this word was found, or an expression of this shape.
fn shows(found: Result<Typed, XPathFault>, word: &str) -> bool {
    match found {
        Ok(typed) => {
            word == match typed.shape() {
                Shape::Nodes => "nodes",
                Shape::Str => "a string",
                Shape::Num => "a number",
                Shape::Bool => "a boolean",
            }
        }
        Err(fault) => word == fault.word(),
    }
}

fn gives(alloc: Global, text: &str, word: &str) -> bool {
    shows(parse_xpath(alloc, text), word)
}

/// A text so many times, and another text after it.
fn repeated(alloc: Global, part: &str, times: usize, end: &str) -> Result<String, Fail> {
    let mut text = String::new(alloc);
    for _ in 0..times {
        text.push_str(part)?;
    }
    text.push_str(end)?;
    Ok(text)
}

#[test]
fn worked_rows(rt: HostRuntime) -> Result<(), Fail> {
    let alloc = rt.alloc();
    let rows = [
        ("1.5", "Fraction"),
        ("9007199254740992", "Range"),
        ("$x", "Variable"),
        ("a:b", "Prefix"),
        ("foo()", "Function"),
        ("count()", "Arguments"),
        ("count(1)", "WrongType"),
        ("//", "Syntax"),
        ("a !", "Text"),
        ("/", "nodes"),
        ("div", "nodes"),
        ("div div", "Syntax"),
        ("1 div 2", "Div"),
        ("* * *", "a number"),
        ("and and and", "a boolean"),
        ("//a | 1", "WrongType"),
        ("a:b(1)", "Syntax"),
        ("a:b::c", "Syntax"),
        ("a:::b", "Text"),
        ("/ - 1", "a number"),
        ("/-1", "a number"),
        ("/ * 2", "Syntax"),
        ("not(count(1) = 1)", "WrongType"),
        ("count(//a[foo()], 1.5)", "Arguments"),
        ("string(1.5) | $x", "Fraction"),
        ("processing-instruction('x')", "nodes"),
        ("id('a')[2]/b", "nodes"),
        ("'a'", "a string"),
        ("@*/..//.", "nodes"),
        ("concat('a', 'b')[1]", "WrongType"),
        ("near('1', '2')", "Function"),
    ];
    for (text, word) in rows {
        assert!(rt; gives(alloc, text, word), "{text}");
    }
    Ok(())
}

#[test]
fn long_texts(rt: HostRuntime) -> Result<(), Fail> {
    let alloc = rt.alloc();
    let rows = [
        (repeated(alloc, "(", 65, "")?, "Deep"),
        (repeated(alloc, " ", 1_048_577, "")?, "Long"),
        (repeated(alloc, "-", 100_000, "1")?, "a number"),
    ];
    for (text, word) in rows {
        assert!(rt; gives(alloc, text.as_str(), word), "{word}");
    }
    let mut nested = repeated(alloc, "(", 64, "1")?;
    nested.push_str(repeated(alloc, ")", 64, "")?.as_str())?;
    assert!(rt; gives(alloc, nested.as_str(), "a number"));
    Ok(())
}

#[test]
fn stored_tests(rt: HostRuntime) -> Result<(), Fail> {
    let alloc = rt.alloc();
    let mut tests = Tests::new(alloc);
    let test: Box<dyn Fn(&str, &str) -> bool> = Box::new(
        alloc,
        |a: &str, b: &str| near(100, a, b),
    )?;
    assert!(rt; tests.add("near", TestKind::Near(100), test).is_ok());
    for (text, word) in [
        ("near('1', '2')", "a boolean"),
        ("//li[near(., 110)]", "nodes"),
        ("near(//a, near(1, true()))", "a boolean"),
        ("near('1')", "Arguments"),
        ("near(1, 2, 3)", "Arguments"),
        ("nearby('1', '2')", "Function"),
        ("near", "nodes"),
        ("near('1', '2')[1]", "WrongType"),
    ] {
        assert!(rt;
            shows(parse_xpath_with(alloc, text, &tests), word),
            "{text}"
        );
    }
    Ok(())
}
