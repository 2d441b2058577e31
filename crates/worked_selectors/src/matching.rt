//! Which rows of a document a selector matches.
use css_meaning::matches;
use css_parser::parse_selectors;
use css_selectors::{Dialect, Link, Part, Relative, Selector, Simple, Tail, Test};
use doc_model::Tree;
use std::alloc::Global;
use std::test::Fail;
use text_base::{NoMemory, Seq, Txt};
use worked_trees::{Step, tree_of};

/// The rows of the page that one of the selectors matches, as they are printed.
fn matched(
    alloc: Global,
    steps: &[Step],
    dialect: Dialect,
    list: &[Selector],
) -> Result<String, NoMemory> {
    let tree = tree_of(alloc, steps)?;
    let mut rows = Vec::new(alloc);
    for selector in list {
        for e in 0..tree.len() {
            if matches(&tree, dialect, selector, e) {
                rows.push(e)?;
            }
        }
    }
    Ok(format!(in alloc; "{rows:?}")?)
}

/// `<r><a></a><b></b><x></x><b></b><c class="k w"></c></r>`, in rows 1 to 6
const SIBLINGS: [Step; 12] = [
    Step::Start("r", "", "", ""),
    Step::Start("a", "", "", ""),
    Step::End,
    Step::Start("b", "", "", ""),
    Step::End,
    Step::Start("x", "", "", ""),
    Step::End,
    Step::Start("b", "", "", ""),
    Step::End,
    Step::Start("c", "class", "k w", ""),
    Step::End,
    Step::End,
];

/// `<a><b><b><c>ab<i>cd</i></c></b></b><c></c></a>`: rows 1 to 4 are the first four elements, 6 is the `i`, 8 the
/// last `c`, and 5 and 7 are texts
const NESTED: [Step; 12] = [
    Step::Start("a", "", "", ""),
    Step::Start("b", "", "", ""),
    Step::Start("b", "", "", ""),
    Step::Start("c", "", "", "ab"),
    Step::Start("i", "", "", "cd"),
    Step::End,
    Step::End,
    Step::End,
    Step::End,
    Step::Start("c", "", "", ""),
    Step::End,
    Step::End,
];

/// What the selectors of a text match on the two pages, in either dialect.
fn said(alloc: Global, is_nested: bool, dialect: Dialect, text: &str) -> Result<String, NoMemory> {
    let Ok(list) = parse_selectors(alloc, text) else {
        return Ok(String::from_str(alloc, "refused")?);
    };
    if is_nested {
        matched(alloc, &NESTED[..], dialect, list.items.as_slice())
    } else {
        matched(alloc, &SIBLINGS[..], dialect, list.items.as_slice())
    }
}

#[test]
fn matches_by_the_standard(rt: HostRuntime) -> Result<(), Fail> {
    let alloc = rt.alloc();
    for (is_nested, dialect, text, want) in [
        // It fails at the nearest `b`.
        (false, Dialect::Generic, "a + b ~ c", "[6]"),
        (false, Dialect::Generic, "a ~ b + c", "[6]"),
        // Only one `b` follows the `x`.
        (false, Dialect::Generic, "x ~ b ~ b", "[]"),
        (false, Dialect::Generic, "r > :nth-child(2n+1)", "[2, 4, 6]"),
        (false, Dialect::Generic, "b:not(:first-of-type)", "[5]"),
        (false, Dialect::Generic, ".w", "[6]"),
        (false, Dialect::Generic, ":is(b, .w)", "[3, 5, 6]"),
        (false, Dialect::Generic, "r > :not(b, .w)", "[2, 4]"),
        // It fails at the nearest `b` above.
        (true, Dialect::Generic, "a > b c", "[4]"),
        (true, Dialect::Generic, "b > :not(c)", "[3]"),
        // The text lies over two rows.
        (true, Dialect::Generic, "c:contains(\"bc\")", "[4]"),
        (true, Dialect::Generic, "i:contains(\"bc\")", "[]"),
        (true, Dialect::Html, "B ~ C:empty", "[8]"),
        (true, Dialect::Generic, "B ~ C:empty", "[]"),
    ] {
        let got = said(alloc, is_nested, dialect, text)?;
        assert_eq!(rt; got.as_str(), want, "{text}");
    }
    Ok(())
}

/// `b:has(+ x)`
fn ahead(alloc: Global) -> Result<Selector, NoMemory> {
    let next = Part {
        link: Link::Next,
        element: Some(Txt::of(alloc, "x")?),
        simples: Seq::from_vec(Vec::new(alloc)),
    };
    let parts = Seq::from_vec(vec![in alloc; next]?);
    let simple = Simple {
        negated: false,
        test: Test::Has(Seq::from_vec(vec![in alloc; Relative { parts }]?)),
    };
    let part = Part {
        link: Link::First,
        element: Some(Txt::of(alloc, "b")?),
        simples: Seq::from_vec(vec![in alloc; simple]?),
    };
    Ok(Selector {
        parts: Seq::from_vec(vec![in alloc; part]?),
        tail: Tail::Element,
    })
}

/// A selector without a compound.
fn empty(alloc: Global) -> Selector {
    Selector {
        parts: Seq::from_vec(Vec::new(alloc)),
        tail: Tail::Element,
    }
}

#[test]
fn matches_what_no_text_gives(rt: HostRuntime) -> Result<(), Fail> {
    let alloc = rt.alloc();
    let list = vec![in alloc; ahead(alloc)?]?;
    let got = matched(alloc, &SIBLINGS[..], Dialect::Generic, list.as_slice())?;
    assert_eq!(rt; got.as_str(), "[3]");
    let list = vec![in alloc; empty(alloc)]?;
    let got = matched(alloc, &NESTED[..], Dialect::Generic, list.as_slice())?;
    assert_eq!(rt; got.as_str(), "[]");
    Ok(())
}
