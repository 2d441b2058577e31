//! Which texts are lists of selectors, and why a text is none.
use css_parser::parse_selectors;
use css_selectors::{Link, Test};
use std::alloc::Global;
use std::test::Fail;

/// Whether the text gives a fault of this word, or a list where the word is `Ok`.
fn gives(alloc: Global, text: &str, word: &str) -> bool {
    match parse_selectors(alloc, text) {
        Ok(_) => word == "Ok",
        Err(fault) => fault.word() == word,
    }
}

#[test]
fn worked_rows(rt: HostRuntime) -> Result<(), Fail> {
    let alloc = rt.alloc();
    let rows = [
        ("a", "Ok"),
        ("a[title=\"it's \\22 x\\22\"]", "Ok"),
        ("tr:NTH-child( -n + 3 )", "Ok"),
        ("li:not(:last-of-type)", "Ok"),
        ("h1 + p, ul > li", "Ok"),
        ("[xlink\\:href]:lang(EN)", "Ok"),
        ("ul.goods b::text", "Ok"),
        ("::attr( href )", "Ok"),
        (":nth-child(2/**/n+1)", "Ok"),
        (":\\6e th-child(n)", "Ok"),
        ("", "Syntax"),
        ("a,", "Syntax"),
        ("::not(a)", "Syntax"),
        ("::nth-child(x)", "Syntax"),
        (":nth-child(\\6e)", "Syntax"),
        (":nth-child(+ 2n)", "Syntax"),
        ("a & b", "Text"),
        ("[foo|bar]", "Prefix"),
        ("a:frob", "UnknownPseudo"),
        (":foo(not(a))", "UnknownPseudo"),
        ("a::before", "PseudoElement"),
        ("a::text b", "PseudoElement"),
        ("::nth-child(2)", "PseudoElement"),
        ("li:nth-child(1000001)", "Number"),
        ("li:nth-child(0001000000n)", "Ok"),
        ("*:first-of-type", "OfType"),
        (":nth-of-type(1000001)", "OfType"),
    ];
    for (text, word) in rows {
        assert!(rt; gives(alloc, text, word));
    }
    Ok(())
}

#[test]
fn too_long(rt: HostRuntime) -> Result<(), Fail> {
    let alloc = rt.alloc();
    let mut text = String::new(alloc);
    for _ in 0..16384 {
        text.push('a')?;
    }
    assert!(rt; gives(alloc, text.as_str(), "Ok"));
    text.push('a')?;
    assert!(rt; gives(alloc, text.as_str(), "Long"));
    Ok(())
}

#[test]
fn choices(rt: HostRuntime) -> Result<(), Fail> {
    let alloc = rt.alloc();
    let rows = [
        ("a:is(.x, #y)", "Ok"),
        (":where(li, td):not(p.x, b)", "Ok"),
        (":not(:not(a))", "Ok"),
        (":IS( a.b , #c )", "Ok"),
        (":\\69s(a)", "Ok"),
        (":is()", "Syntax"),
        (":is(a b)", "Syntax"),
        (":is(a > b)", "Syntax"),
        (":is(a,)", "Syntax"),
        (":is(a", "Syntax"),
        ("::is(a)", "Syntax"),
        ("::where(a)", "Syntax"),
        (":foo(:is())", "UnknownPseudo"),
        (":is", "UnknownPseudo"),
        (":is(> a)", "Syntax"),
    ];
    for (text, word) in rows {
        assert!(rt; gives(alloc, text, word));
    }
    Ok(())
}

#[test]
fn relatives(rt: HostRuntime) -> Result<(), Fail> {
    let alloc = rt.alloc();
    let rows = [
        ("ul:has(> li.x + li)", "Ok"),
        ("h1:has(+ p, ~ ul)", "Ok"),
        ("p:not(:has(a))", "Ok"),
        ("a:has(b, c):has(d)", "Ok"),
        ("a:is(:has(b), :has(c))", "Ok"),
        (":has( > a b ~ c , d )", "Ok"),
        (":has(+ a+b)", "Ok"),
        (":HAS(a)", "Ok"),
        (":h\\61s(a)", "Ok"),
        ("a:has(b)::text", "Ok"),
        (":has()", "Syntax"),
        (":has(>)", "Syntax"),
        (":has(> > a)", "Syntax"),
        (":has(a > )", "Syntax"),
        (":has(a,)", "Syntax"),
        (":has(a", "Syntax"),
        ("::has(a)", "Syntax"),
        (":foo(:has())", "UnknownPseudo"),
        (":has", "UnknownPseudo"),
    ];
    for (text, word) in rows {
        assert!(rt; gives(alloc, text, word));
    }
    Ok(())
}

/// The link of the first part of the first relative that the text begins with.
fn first_link(alloc: Global, text: &str) -> Option<Link> {
    let list = parse_selectors(alloc, text).ok()?;
    let selector = list.items.as_slice().first()?;
    let part = selector.parts.as_slice().first()?;
    let simple = part.simples.as_slice().first()?;
    match &simple.test {
        Test::Has(relatives) => {
            let relative = relatives.as_slice().first()?;
            let first = relative.parts.as_slice().first()?;
            Some(first.link)
        }
        _ => None,
    }
}

#[test]
fn signs(rt: HostRuntime) -> Result<(), Fail> {
    let alloc = rt.alloc();
    assert!(rt; first_link(alloc, ":has(a)") == Some(Link::Descendant));
    assert!(rt; first_link(alloc, ":has( > a)") == Some(Link::Child));
    assert!(rt; first_link(alloc, ":has(+ a > b)") == Some(Link::Next));
    assert!(rt; first_link(alloc, ":has(~a)") == Some(Link::Later));
    Ok(())
}

#[test]
fn refused_in_relatives(rt: HostRuntime) -> Result<(), Fail> {
    let alloc = rt.alloc();
    let rows = [
        ("a:has(b:has(c))", "Nested"),
        (":has(:is(:has(a)))", "Nested"),
        (":has(:not(:not(:has(a))))", "Nested"),
        (":has(:has(:foo))", "Nested"),
        (":has(:has())", "Syntax"),
        (":has(:foo:has(a))", "UnknownPseudo"),
        (":has(a:nth-child(1000001):has(b))", "Number"),
        ("li:has(:first-of-type)", "OfType"),
        (":has(li > :first-of-type)", "OfType"),
        ("li:is(:has(:first-of-type))", "OfType"),
        (":has(li:first-of-type > a)", "Ok"),
        ("li:has(b:is(:first-of-type))", "Ok"),
        ("a:has(x|b, :foo)", "Prefix"),
        ("a:has(b::text)", "PseudoElement"),
        (":is(:is(:is(:is(:is(:is(:is(:has(a))))))))", "Ok"),
        (":is(:is(:is(:is(:is(:is(:is(:is(:has(a)))))))))", "Nested"),
        (":has(:is(:is(:is(:is(:is(:is(:is(a))))))))", "Ok"),
        (":has(:is(:is(:is(:is(:is(:is(:is(:is(a)))))))))", "Nested"),
    ];
    for (text, word) in rows {
        assert!(rt; gives(alloc, text, word));
    }
    Ok(())
}

#[test]
fn refused_in_choices(rt: HostRuntime) -> Result<(), Fail> {
    let alloc = rt.alloc();
    let rows = [
        ("li:is(:first-of-type)", "Ok"),
        (":is(a:first-of-type)", "Ok"),
        (":is(:first-of-type)", "OfType"),
        (":where(:nth-of-type(1000001))", "OfType"),
        (":is(:nth-child(1000001), :first-of-type)", "Number"),
        (":is(x|a, :foo)", "Prefix"),
        (":is(::text)", "PseudoElement"),
        ("a:not(::text)::text", "PseudoElement"),
    ];
    for (text, word) in rows {
        assert!(rt; gives(alloc, text, word));
    }
    Ok(())
}

#[test]
fn eight_choices(rt: HostRuntime) -> Result<(), Fail> {
    let alloc = rt.alloc();
    let rows = [
        (":not(:not(:not(:not(:not(:not(:not(:not(a))))))))", "Ok"),
        (
            ":not(:not(:not(:not(:not(:not(:not(:not(:not(a)))))))))",
            "Nested",
        ),
        (
            ":is(:is(:is(:is(:is(:is(:is(:is(:is(:foo)))))))))",
            "Nested",
        ),
        (
            ":is(:is(:is(:is(:is(:is(:is(:is(:foo,:is(a)))))))))",
            "UnknownPseudo",
        ),
        (":is(:is(:is(:is(:is(:is(:is(:is(:is()))))))))", "Syntax"),
    ];
    for (text, word) in rows {
        assert!(rt; gives(alloc, text, word));
    }
    Ok(())
}

/// Choices in each other, so many deep, around a text.
fn nested(alloc: Global, depth: usize, inside: &str) -> Result<String, Fail> {
    let mut text = String::new(alloc);
    for _ in 0..depth {
        text.push_str(":is(")?;
    }
    text.push_str(inside)?;
    for _ in 0..depth {
        text.push(')')?;
    }
    Ok(text)
}

#[test]
fn deepest(rt: HostRuntime) -> Result<(), Fail> {
    let alloc = rt.alloc();
    assert!(rt; gives(alloc, nested(alloc, 3276, "a")?.as_str(), "Nested"));
    assert!(rt; gives(alloc, nested(alloc, 3276, "")?.as_str(), "Syntax"));
    assert!(rt; gives(alloc, nested(alloc, 3276, "a b")?.as_str(), "Syntax"));
    Ok(())
}
