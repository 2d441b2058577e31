//! The markup of rows, and of documents so that HTML reads it back.
use doc_model::Tree;
use markup_out::{TooLarge, canonical, markup};
use std::alloc::Global;
use std::test::Fail;
use worked_trees::{Step, tree_of};

/// The markup of a row, or `Limit`, or `Memory`.
fn shown(alloc: Global, steps: &[Step], i: u32, limit: usize) -> Result<String, TooLarge> {
    match tree_of(alloc, steps) {
        Err(_) => Err(TooLarge::Memory),
        Ok(tree) => {
            if i < tree.len() {
                markup(alloc, &tree, i, limit)
            } else {
                Err(TooLarge::Memory)
            }
        }
    }
}

/// The canonical markup of a document, or `Limit`, or `Memory`.
fn read_back(alloc: Global, steps: &[Step], limit: usize) -> Result<String, TooLarge> {
    match tree_of(alloc, steps) {
        Err(_) => Err(TooLarge::Memory),
        Ok(tree) => canonical(alloc, &tree, limit),
    }
}

/// `<ul><li>a<li>b</ul>`
const ITEMS: [Step; 6] = [
    Step::Start("ul", "", "", ""),
    Step::Start("li", "", "", "a"),
    Step::End,
    Step::Start("li", "", "", "b"),
    Step::End,
    Step::End,
];

/// `<div title='a"&<b'>1 < 2 & 3 > 2<br id=x><!--&--><script>a<b&&c</script></div>`, with no-break spaces
const MIXED: [Step; 7] = [
    Step::Start("div", "title", "a\"\u{a0}&<b", "1 < 2\u{a0}& 3 > 2"),
    Step::Start("br", "id", "x", ""),
    Step::End,
    Step::Comment("&"),
    Step::Start("script", "", "", "a<b&&c"),
    Step::End,
    Step::End,
];

#[test]
fn shows_markup(rt: HostRuntime) -> Result<(), Fail> {
    let alloc = rt.alloc();
    let items = "<ul><li>a</li><li>b</li></ul>";
    let mixed =
        "<div title=\"a&quot;&nbsp;&amp;<b\">1 &lt; 2&nbsp;&amp; 3 &gt; 2<br id=\"x\"><!--&--><script>a<b&&c</script></div>";
    for (steps, i, limit, want) in [
        (&ITEMS[..], 1, 29, Ok(items)),
        (&ITEMS[..], 1, 28, Err(TooLarge::Limit)),
        (&ITEMS[..], 0, 29, Ok(items)),
        (&ITEMS[..], 4, 10, Ok("<li>b</li>")),
        (&ITEMS[..], 5, 1, Ok("b")),
        (&ITEMS[..], 5, 0, Err(TooLarge::Limit)),
        (&MIXED[..], 0, 200, Ok(mixed)),
        (&MIXED[..], 2, 100, Ok("a&quot;&nbsp;&amp;<b")),
        (&MIXED[..], 4, 100, Ok("<br id=\"x\">")),
        (&MIXED[..], 6, 100, Ok("<!--&-->")),
        (&MIXED[..], 8, 100, Ok("a<b&&c")),
    ] {
        match (shown(alloc, steps, i, limit), want) {
            (Ok(text), Ok(want)) => assert_eq!(rt; text.as_str(), want),
            (Err(fault), Err(want)) => assert_eq!(rt; fault, want),
            (got, _) => assert_eq!(rt; got.is_ok(), want.is_ok(), "row {i}"),
        }
    }
    Ok(())
}

/// `<html a=" &#13;"><pre>`, two newlines, `x &#13;</pre><textarea><!----></textarea>`, a script with a carriage return, `</html>`
const RETURNS: [Step; 10] = [
    Step::Start("html", "a", " \r", ""),
    Step::Start("pre", "b", "\n", "\nx \r"),
    Step::End,
    Step::Start("textarea", "", "", ""),
    Step::Comment("\n"),
    Step::End,
    Step::Start("script", "", "", "\n\r<"),
    Step::End,
    Step::Start("br", "", "", ""),
    Step::End,
];

#[test]
fn writes_canonical(rt: HostRuntime) -> Result<(), Fail> {
    let alloc = rt.alloc();
    let mut steps = Vec::new(alloc);
    for step in &RETURNS[..] {
        steps.push(*step)?;
    }
    steps.push(Step::End)?;
    let back =
        "<html a=\" &#13;\"><pre b=\"\n\">\n\nx &#13;</pre><textarea><!--\n--></textarea><script>\n\r<</script><br></html>";
    let plain =
        "<html a=\" \r\"><pre b=\"\n\">\nx \r</pre><textarea><!--\n--></textarea><script>\n\r<</script><br></html>";
    for (got, want) in [
        (read_back(alloc, steps.as_slice(), 200), Ok(back)),
        (read_back(alloc, steps.as_slice(), 10), Err(TooLarge::Limit)),
        (shown(alloc, steps.as_slice(), 0, 200), Ok(plain)),
    ] {
        match (got, want) {
            (Ok(text), Ok(want)) => assert_eq!(rt; text.as_str(), want),
            (Err(fault), Err(want)) => assert_eq!(rt; fault, want),
            (got, _) => assert_eq!(rt; got.is_ok(), want.is_ok()),
        }
    }
    Ok(())
}

/// `<b>` 512 times in itself
#[test]
fn shows_nested(rt: HostRuntime) -> Result<(), Fail> {
    let alloc = rt.alloc();
    let mut steps = Vec::new(alloc);
    let mut want = String::new(alloc);
    for _ in 0..512 {
        steps.push(Step::Start("b", "", "", ""))?;
        want.push_str("<b>")?;
    }
    for _ in 0..512 {
        steps.push(Step::End)?;
        want.push_str("</b>")?;
    }
    let got = shown(alloc, steps.as_slice(), 1, 3584);
    assert!(rt; got.is_ok());
    if let Ok(text) = got {
        assert_eq!(rt; text.as_str(), want.as_str());
    }
    Ok(())
}
