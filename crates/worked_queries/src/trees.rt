//! The same pages as documents that own their rows and as documents in an arena: values of expressions over both, and
//! what tables over a document answer.
ghost use Rattle.std.specs.Prelude.{◌≡◌, ◌<◌};

use crate::evaluation::from_root;
use arena_tree::ArenaGrow;
use bumpalo::Bump;
use doc_model::{Plain, Tree, VecGrow};
use html_reader::read_html;
use std::alloc::Global;
use std::marker::Brand;
use std::sync::ledger::{Blank, Ledger};
use std::test::Fail;
use step_index::{Indexed, Steps};
use text_base::{NoMemory, PAGE_LIMIT, Txt};

/// The value of an expression from the root node of a page, whose document owns its rows.
fn over_rows(alloc: Global, page: &str, text: &str) -> Result<String, NoMemory> {
    if page.len() > PAGE_LIMIT {
        return Err(NoMemory);
    }
    match read_html(alloc, page, VecGrow::new(alloc)) {
        Ok(tree) => from_root(alloc, &Plain::new(tree), text),
        Err(_) => Err(NoMemory),
    }
}

/// The same, whose document lies in an arena.
fn over_arena(alloc: Global, page: &str, text: &str) -> Result<String, NoMemory> {
    if page.len() > PAGE_LIMIT {
        return Err(NoMemory);
    }
    let arena = Bump::new(alloc);
    match read_html(alloc, page, ArenaGrow::new(&arena)) {
        Ok(tree) => from_root(alloc, &Plain::new(tree), text),
        Err(_) => Err(NoMemory),
    }
}

/// The same, by tables over a document in an arena.
fn over_tables(alloc: Global, page: &str, text: &str) -> Result<String, NoMemory> {
    if page.len() > PAGE_LIMIT {
        return Err(NoMemory);
    }
    let arena = Bump::new(alloc);
    match read_html(alloc, page, ArenaGrow::new(&arena)) {
        Ok(tree) => from_root(alloc, &Indexed::new(alloc, tree)?, text),
        Err(_) => Err(NoMemory),
    }
}

const PAGE: &str = "<div id=\"top\"><p class=\"a b\">one</p><!--c--><p>two <b>three</b></p>\
    <ul><li>4</li><li title=\"x\">5</li></ul></div>";

#[test]
fn gives_values_of_counts(rt: HostRuntime) -> Result<(), Fail> {
    let alloc = rt.alloc();
    for (text, want) in [
        ("count(//node())", "14"),
        ("count(//@*)", "3"),
        ("count(//p | //li | //p)", "4"),
        ("count(//p/following-sibling::*)", "2"),
        ("count(//p[1]/following::node())", "10"),
        ("count(//b/preceding::node())", "4"),
        ("sum(//li)", "9"),
        ("string-length(/)", "14"),
        ("//li > 4", "true"),
        ("boolean(//ul/following::node())", "false"),
    ] {
        assert_eq!(rt; over_rows(alloc, PAGE, text)?.as_str(), want, "{text}");
        assert_eq!(rt; over_arena(alloc, PAGE, text)?.as_str(), want, "{text}");
        assert_eq!(rt; over_tables(alloc, PAGE, text)?.as_str(), want, "{text}");
    }
    Ok(())
}

#[test]
fn gives_values_of_texts(rt: HostRuntime) -> Result<(), Fail> {
    let alloc = rt.alloc();
    for (text, want) in [
        ("string(//p[2])", "'two three'"),
        ("string(//comment())", "'c'"),
        ("name(//b/ancestor::*[2])", "'div'"),
        ("string(//li[@title = 'x']/preceding-sibling::li)", "'4'"),
        ("concat(//li[last()], '-', name(//*[@id]))", "'5-div'"),
        ("substring-after(//p/@class, ' ')", "'b'"),
    ] {
        assert_eq!(rt; over_rows(alloc, PAGE, text)?.as_str(), want, "{text}");
        assert_eq!(rt; over_arena(alloc, PAGE, text)?.as_str(), want, "{text}");
        assert_eq!(rt; over_tables(alloc, PAGE, text)?.as_str(), want, "{text}");
    }
    Ok(())
}

const NESTED: &str = "<div><b><div><b>x</b>y</div></b><div></div><i>z</i></div>";

#[test]
fn gives_values_of_nested_elements(rt: HostRuntime) -> Result<(), Fail> {
    let alloc = rt.alloc();
    for (text, want) in [
        ("count(//div//b)", "2"),
        ("count(//b[count(ancestor::div) = 2])", "1"),
        ("count(//div[not(node())])", "1"),
        ("count(//b/ancestor-or-self::*)", "5"),
        ("string(//b/following-sibling::text())", "'y'"),
        ("name((//b/following::*)[last()])", "'i'"),
        ("string(/html/div/*[2]/following-sibling::*[1])", "'z'"),
    ] {
        assert_eq!(rt; over_rows(alloc, NESTED, text)?.as_str(), want, "{text}");
        assert_eq!(rt; over_arena(alloc, NESTED, text)?.as_str(), want, "{text}");
        assert_eq!(rt; over_tables(alloc, NESTED, text)?.as_str(), want, "{text}");
    }
    Ok(())
}

/// What is asked of tables.
#[derive(Clone, Copy)]
enum Ask {
    /// The first element of this `id`.
    Id(&'static str),
    /// The element of this name at this place, from 0.
    Place(&'static str, u32),
    /// The elements of this name below this row.
    Below(u32, &'static str),
}

/// The element of a name at a place, with a counter over the blank ledger.
fn placed<T: Tree, L: Ledger>(tables: &Indexed<T>, name: &Txt, k: u32, blank: Blank) -> Option<u32>
    requires name { blank.name ≡ L.name }
    requires parts { blank.parts ≡ L.parts }
    requires some { 0 < L.parts }
{
    let mut steps = Steps::<L>::new(blank);
    tables.row_at(name.as_str(), k, &mut steps)
}

/// The elements of a name below a row, with a counter over the blank ledger.
fn listed<T: Tree, L: Ledger>(
    tables: &Indexed<T>,
    x: u32,
    name: &Txt,
    rows: &mut Vec<u32>,
    blank: Blank,
) -> Result<(), NoMemory>
    requires name { blank.name ≡ L.name }
    requires parts { blank.parts ≡ L.parts }
    requires some { 0 < L.parts }
{
    if x >= tables.len() {
        return Err(NoMemory);
    }
    let mut steps = Steps::<L>::new(blank);
    tables.named_below(x, name.as_str(), rows, &mut steps)
}

/// The row, or the rows, as text.
fn answer<T: Tree>(alloc: Global, tables: &Indexed<T>, ask: Ask) -> Result<String, NoMemory> {
    match ask {
        Ask::Id(word) => {
            let row = tables.first_id(word);
            Ok(format!(in alloc; "{row:?}")?)
        }
        Ask::Place(name, k) => {
            let name = Txt::of(alloc, name)?;
            let row = placed::<T, Brand>(tables, &name, k, Blank::new(1));
            Ok(format!(in alloc; "{row:?}")?)
        }
        Ask::Below(x, name) => {
            let name = Txt::of(alloc, name)?;
            let mut rows = Vec::new(alloc);
            listed::<T, Brand>(tables, x, &name, &mut rows, Blank::new(1))?;
            Ok(format!(in alloc; "{rows:?}")?)
        }
    }
}

/// The answer of the tables over a page's document in an arena.
fn with_ids(alloc: Global, page: &str, ask: Ask) -> Result<String, NoMemory> {
    if page.len() > PAGE_LIMIT {
        return Err(NoMemory);
    }
    let arena = Bump::new(alloc);
    match read_html(alloc, page, ArenaGrow::new(&arena)) {
        Ok(tree) => answer(alloc, &Indexed::new(alloc, tree)?, ask),
        Err(_) => Err(NoMemory),
    }
}

/// The same, where the table by attribute `id` is left out.
fn without_ids(alloc: Global, page: &str, ask: Ask) -> Result<String, NoMemory> {
    if page.len() > PAGE_LIMIT {
        return Err(NoMemory);
    }
    let arena = Bump::new(alloc);
    match read_html(alloc, page, ArenaGrow::new(&arena)) {
        Ok(tree) => answer(alloc, &Indexed::without_ids(alloc, tree)?, ask),
        Err(_) => Err(NoMemory),
    }
}

const ITEMS: &str = "<ul><li>a<li>b</ul>";

const IDS: &str = "<div id=x><p id=a>1<b id=a>2</b></p><b>3</b></div>";

#[test]
fn answers_by_name_place_and_id(rt: HostRuntime) -> Result<(), Fail> {
    let alloc = rt.alloc();
    for (page, ask, want) in [
        (ITEMS, Ask::Below(0, "li"), "[3, 5]"),
        (ITEMS, Ask::Below(3, "li"), "[]"),
        (ITEMS, Ask::Place("li", 1), "Some(5)"),
        (ITEMS, Ask::Place("li", 2), "None"),
        (IDS, Ask::Below(2, "b"), "[7, 10]"),
        (IDS, Ask::Below(4, "b"), "[7]"),
        (IDS, Ask::Below(0, "i"), "[]"),
        (IDS, Ask::Place("b", 0), "Some(7)"),
        (IDS, Ask::Id("a"), "Some(4)"),
        (IDS, Ask::Id("x"), "Some(2)"),
        (IDS, Ask::Id("b"), "None"),
    ] {
        assert_eq!(rt; with_ids(alloc, page, ask)?.as_str(), want);
        assert_eq!(rt; without_ids(alloc, page, ask)?.as_str(), want);
    }
    Ok(())
}
