//! Tests that are stored, asked by their names and in XPath texts.
use crate::evaluation::{PAGE, shown};
use doc_model::{Axes, Plain};
use std::alloc::Global;
use std::test::Fail;
use test_registry::{AddFault, TestKind, Tests, same_folded};
use text_base::NoMemory;
use worked_tests::{STORED, answer};
use worked_trees::tree_of;
use xpath_eval::eval_with;
use xpath_parser::parse_xpath_with;

/// What the test of that name answers, if there is one.
fn asked(tests: &Tests, name: &str, a: &str, b: &str) -> Option<bool> {
    match tests.find(name) {
        Some(kind) => Some(tests.ask(kind, a, b)),
        None => None,
    }
}

/// What an XPath text that may call stored tests gives from the root node.
fn from_root_with<S: Axes>(
    alloc: Global,
    source: &S,
    text: &str,
    tests: &Tests,
) -> Result<String, NoMemory> {
    let Ok(typed) = parse_xpath_with(alloc, text, tests) else {
        return Ok(String::from_str(alloc, "refused")?);
    };
    if source.len() == 0 {
        return Err(NoMemory);
    }
    let value = eval_with(alloc, source, &typed, 0, tests)?;
    shown(alloc, &value)
}

#[test]
fn asks_stored_tests(rt: HostRuntime) -> Result<(), Fail> {
    let alloc = rt.alloc();
    let page = Plain::new(tree_of(alloc, &PAGE[..]).expect(&rt, "memory"));
    let mut tests = Tests::new(alloc);
    for (name, kind) in STORED {
        let test: Box<dyn Fn(&str, &str) -> bool> = Box::new(
            alloc,
            move |a: &str, b: &str| answer(kind, a, b),
        )?;
        assert!(rt; tests.add(name, kind, test).is_ok());
    }
    for (name, a, b, want) in [
        ("same", "AbC", "aBc", Some(true)),
        ("same", "é", "É", Some(false)),
        ("ends-with", "abc", "", Some(true)),
        ("ends-with", "abc", "ab", Some(false)),
        ("has-word", "a b", "", Some(false)),
        ("has-word", "a\tb", "b", Some(true)),
        ("has-word", "a\u{c}b", "b", Some(false)),
        ("near", "10", "110", Some(true)),
        ("near", "9", "110", Some(false)),
        ("near", "0000000005", "5", Some(false)),
        ("near", "", "5", Some(false)),
        ("nearby", "1", "2", None),
    ] {
        assert_eq!(rt; asked(&tests, name, a, b), want, "{name}");
    }
    for (text, want) in [
        ("same('AbC', 'aBc')", "true"),
        ("ends-with('abc', '')", "true"),
        ("ends-with('ab', 'a')", "false"),
        ("has-word('a b', '')", "false"),
        ("near('5', 110)", "false"),
        ("near('10', 110)", "true"),
        ("near('120', 110)", "true"),
        ("near('x', 110)", "false"),
        ("count(//*[near(count(.//node()), 103)])", "1"),
        ("//li[same(., 'B') and not(same(//p, //li))]", "[5]"),
        ("nearby('1', '2')", "refused"),
    ] {
        let got = from_root_with(alloc, &page, text, &tests).expect(&rt, "memory");
        assert_eq!(rt; got.as_str(), want, "{text}");
    }
    Ok(())
}

#[test]
fn refuses_names(rt: HostRuntime) -> Result<(), Fail> {
    let alloc = rt.alloc();
    let mut tests = Tests::new(alloc);
    for (name, want) in [
        ("same", Ok(())),
        ("same", Err(AddFault::Known)),
        ("Same", Ok(())),
        ("count", Err(AddFault::BadName)),
        ("processing-instruction", Err(AddFault::BadName)),
        ("", Err(AddFault::BadName)),
        ("1a", Err(AddFault::BadName)),
        ("a:b", Err(AddFault::BadName)),
        ("a b", Err(AddFault::BadName)),
        ("_é-1.", Ok(())),
    ] {
        let test: Box<dyn Fn(&str, &str) -> bool> = Box::new(
            alloc,
            |a: &str, b: &str| same_folded(a, b),
        )?;
        assert_eq!(rt; tests.add(name, TestKind::SameFolded, test), want, "{name}");
    }
    Ok(())
}
