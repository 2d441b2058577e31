//! The functions of XPath, comparisons and conversions, on a small document.
ghost use Rattle.std.specs.Prelude.{◌≡◌, ◌<◌, None, IsTrue};
ghost use Rattle.std.specs.List.{All};
ghost use Rattle.xpath_parser.specs.Asking.{stored_kind};
ghost use Rattle.xpath_parser.specs.Conversions.{rows_of};

use doc_model::{Tree, VecTree};
use std::alloc::Global;
use std::test::Fail;
use text_base::{NoMemory, Seq, Txt};
use worked_trees::{Step, tree_of};
use xpath_functions::{call, fits, number_of, text_of, truth_of};
use xpath_parser::Func;
use xpath_values::{Compare, Value, XNum};

/// `<div xml:lang="en-GB"><p id="b">1</p><p id="b">x</p></div>`
const PAGE: [Step; 6] = [
    Step::Start("div", "xml:lang", "en-GB", ""),
    Step::Start("p", "id", "b", "1"),
    Step::End,
    Step::Start("p", "id", "b", "x"),
    Step::End,
    Step::End,
];

/// An argument of a test.
#[derive(Clone, Copy)]
enum Arg {
    Text(&'static str),
    Number(i64),
    NaN,
    Truth(bool),
    Rows(&'static [u32]),
}

fn value(alloc: Global, arg: Arg) -> Result<Value, NoMemory> {
    Ok(match arg {
        Arg::Text(text) => Value::Str(Txt::of(alloc, text)?),
        Arg::Number(number) => Value::Num(XNum::Whole(number)),
        Arg::NaN => Value::Num(XNum::NaN),
        Arg::Truth(truth) => Value::Bool(truth),
        Arg::Rows(rows) => Value::Nodes(Seq::from_slice(alloc, rows)?),
    })
}

fn values(alloc: Global, args: &[Arg]) -> Result<Seq<Value>, NoMemory> {
    let mut out = Vec::new(alloc);
    for arg in args {
        out.push(value(alloc, *arg)?)?;
    }
    Ok(Seq::from_vec(out))
}

fn are_rows(len: u32, rows: &[u32]) -> bool
    ensures { IsTrue result → All (λ y. y < len) rows.now }
{
    rows.iter().all(|y| *y < len)
}

fn is_within(len: u32, value: &Value) -> bool
    ensures { IsTrue result → All (λ y. y < len) (rows_of value.now) }
{
    match value {
        Value::Nodes(rows) => are_rows(len, rows.as_slice()),
        Value::Bool(_) | Value::Num(_) | Value::Str(_) => true,
    }
}

fn are_within(len: u32, values: &[Value]) -> bool
    ensures { IsTrue result → All (λ v. All (λ y. y < len) (rows_of v)) values.now }
{
    values.iter().all(|value| is_within(len, value))
}

/// The value as text; of a node-set the numbers of its rows.
fn shown(alloc: Global, tree: &VecTree, value: &Value) -> Result<String, NoMemory> {
    if let Value::Nodes(rows) = value {
        let rows = rows.as_slice();
        return Ok(format!(in alloc; "{rows:?}")?);
    }
    if !is_within(tree.len(), value) {
        return Err(NoMemory);
    }
    let text = text_of(alloc, tree, value)?;
    Ok(String::from_str(alloc, text.as_str())?)
}

fn is_own(func: Func) -> bool
    ensures { IsTrue result → stored_kind func ≡ None }
{
    match func {
        Func::Stored(_) => false,
        _ => true,
    }
}

/// What a function gives at a row, at position 2 of 5.
fn called(
    alloc: Global,
    tree: &VecTree,
    func: Func,
    args: &[Arg],
    node: u32,
) -> Result<String, NoMemory> {
    let args = values(alloc, args)?;
    if node >= tree.len() || !are_within(tree.len(), args.as_slice()) || !is_own(func) {
        return Err(NoMemory);
    }
    let value = call(alloc, tree, func, &args, node, 2, 5)?;
    shown(alloc, tree, &value)
}

const NODES: [(Func, &[Arg], u32, &str); 14] = [
    (Func::Last, &[], 0, "5"),
    (Func::Position, &[], 0, "2"),
    (Func::Count, &[Arg::Rows(&[3, 6])], 0, "2"),
    (Func::Id, &[Arg::Text("z b\tb")], 0, "[3]"),
    (Func::Id, &[Arg::Rows(&[4, 7])], 0, "[3]"),
    (Func::Id, &[Arg::Text("z")], 0, "[]"),
    (Func::LocalName, &[], 1, "div"),
    (Func::Name, &[Arg::Rows(&[2, 3])], 0, "xml:lang"),
    (Func::Name, &[Arg::Rows(&[])], 1, ""),
    (Func::NamespaceUri, &[], 1, ""),
    (Func::Lang, &[Arg::Text("en")], 5, "true"),
    (Func::Lang, &[Arg::Text("EN-gb")], 4, "true"),
    (Func::Lang, &[Arg::Text("e")], 5, "false"),
    (Func::Lang, &[Arg::Text("en")], 0, "false"),
];

const STRINGS: [(Func, &[Arg], u32, &str); 24] = [
    (Func::Str, &[Arg::Number(-7)], 0, "-7"),
    (Func::Str, &[Arg::Truth(false)], 0, "false"),
    (Func::Str, &[], 1, "1x"),
    (
        Func::Concat,
        &[Arg::Text("a"), Arg::Number(1), Arg::Rows(&[6, 3])],
        0,
        "a1x",
    ),
    (
        Func::StartsWith,
        &[Arg::Text("abc"), Arg::Text("")],
        0,
        "true",
    ),
    (
        Func::StartsWith,
        &[Arg::Text("abc"), Arg::Text("b")],
        0,
        "false",
    ),
    (
        Func::Contains,
        &[Arg::Text("abc"), Arg::Text("bc")],
        0,
        "true",
    ),
    (
        Func::SubstringBefore,
        &[Arg::Text("1999/04/01"), Arg::Text("/")],
        0,
        "1999",
    ),
    (
        Func::SubstringAfter,
        &[Arg::Text("1999/04/01"), Arg::Text("/")],
        0,
        "04/01",
    ),
    (
        Func::SubstringAfter,
        &[Arg::Text("1999/04/01"), Arg::Text("19")],
        0,
        "99/04/01",
    ),
    (
        Func::Substring,
        &[Arg::Text("12345"), Arg::Number(0), Arg::Number(3)],
        0,
        "12",
    ),
    (
        Func::Substring,
        &[Arg::Text("12345"), Arg::Number(2)],
        0,
        "2345",
    ),
    (
        Func::Substring,
        &[Arg::Text("12345"), Arg::Number(2), Arg::Number(3)],
        0,
        "234",
    ),
    (
        Func::Substring,
        &[Arg::Text("12345"), Arg::Number(-42), Arg::Number(1000)],
        0,
        "12345",
    ),
    (Func::Substring, &[Arg::Text("12345"), Arg::NaN], 0, ""),
    (
        Func::Substring,
        &[Arg::Text("12345"), Arg::Number(1), Arg::NaN],
        0,
        "",
    ),
    (Func::StringLength, &[Arg::Text("é")], 0, "1"),
    (Func::StringLength, &[], 1, "2"),
    (
        Func::NormalizeSpace,
        &[Arg::Text(" a\t\n b\rc ")],
        0,
        "a b c",
    ),
    (Func::NormalizeSpace, &[Arg::Text("a\u{c}b")], 0, "a\u{c}b"),
    (
        Func::Translate,
        &[Arg::Text("bar"), Arg::Text("abc"), Arg::Text("ABC")],
        0,
        "BAr",
    ),
    (
        Func::Translate,
        &[Arg::Text("--aaa--"), Arg::Text("abc-"), Arg::Text("ABC")],
        0,
        "AAA",
    ),
    (
        Func::Translate,
        &[Arg::Text("aé"), Arg::Text("aa"), Arg::Text("éa")],
        0,
        "éé",
    ),
    (
        Func::Translate,
        &[Arg::Text("bar"), Arg::Text("abc"), Arg::Text("AB")],
        0,
        "BAr",
    ),
];

const NUMBERS: [(Func, &[Arg], u32, &str); 15] = [
    (Func::Boolean, &[Arg::Rows(&[])], 0, "false"),
    (Func::Boolean, &[Arg::Text("false")], 0, "true"),
    (Func::Not, &[Arg::NaN], 0, "true"),
    (Func::True, &[], 0, "true"),
    (Func::False, &[], 0, "false"),
    (Func::Number, &[Arg::Text(" -7 ")], 0, "-7"),
    (Func::Number, &[Arg::Text("1.0")], 0, "NaN"),
    (Func::Number, &[Arg::Truth(true)], 0, "1"),
    (Func::Number, &[], 3, "1"),
    (Func::Sum, &[Arg::Rows(&[3, 5])], 0, "2"),
    (Func::Sum, &[Arg::Rows(&[3, 6])], 0, "NaN"),
    (Func::Floor, &[Arg::NaN], 0, "NaN"),
    (Func::Ceiling, &[Arg::Number(3)], 0, "3"),
    (Func::Round, &[Arg::Number(-3)], 0, "-3"),
    (Func::Round, &[Arg::NaN], 0, "NaN"),
];

#[test]
fn calls_functions(rt: HostRuntime) -> Result<(), Fail> {
    let alloc = rt.alloc();
    let tree = tree_of(alloc, &PAGE[..]).expect(&rt, "memory");
    for table in [&NODES[..], &STRINGS[..], &NUMBERS[..]] {
        for (func, args, node, want) in table {
            let text = called(alloc, &tree, *func, args, *node).expect(&rt, "memory");
            assert_eq!(rt; text.as_str(), *want, "{func:?}");
        }
    }
    Ok(())
}

/// Whether a comparison holds between two values.
fn compared(alloc: Global, tree: &VecTree, op: Compare, a: Arg, b: Arg) -> Result<bool, NoMemory> {
    let a = value(alloc, a)?;
    let b = value(alloc, b)?;
    if !is_within(tree.len(), &a) || !is_within(tree.len(), &b) {
        return Err(NoMemory);
    }
    fits(alloc, tree, op, &a, &b)
}

#[test]
fn compares_values(rt: HostRuntime) -> Result<(), Fail> {
    let alloc = rt.alloc();
    let tree = tree_of(alloc, &PAGE[..]).expect(&rt, "memory");
    for (op, a, b, want) in [
        (Compare::Equal, Arg::NaN, Arg::NaN, false),
        (Compare::Unequal, Arg::NaN, Arg::NaN, true),
        (Compare::Equal, Arg::Rows(&[3, 6]), Arg::Rows(&[8]), true),
        (Compare::Equal, Arg::Rows(&[3]), Arg::Rows(&[8]), false),
        (Compare::Unequal, Arg::Rows(&[3]), Arg::Rows(&[5]), false),
        (Compare::Unequal, Arg::Rows(&[3, 6]), Arg::Rows(&[5]), true),
        (Compare::Less, Arg::Rows(&[3, 6]), Arg::Number(2), true),
        (Compare::Less, Arg::Number(1), Arg::Rows(&[3, 6]), false),
        (
            Compare::LessEqual,
            Arg::Rows(&[6, 3]),
            Arg::Rows(&[5]),
            true,
        ),
        (Compare::Greater, Arg::Rows(&[3]), Arg::Rows(&[3]), false),
        (
            Compare::GreaterEqual,
            Arg::Rows(&[3]),
            Arg::Rows(&[8]),
            false,
        ),
        (Compare::Equal, Arg::Rows(&[]), Arg::Truth(false), true),
        (Compare::Unequal, Arg::Rows(&[]), Arg::Text("a"), false),
        (Compare::Equal, Arg::Text("x"), Arg::Rows(&[3, 6]), true),
    ] {
        let found = compared(alloc, &tree, op, a, b).expect(&rt, "memory");
        assert_eq!(rt; found, want, "{op:?}");
    }
    Ok(())
}

#[test]
fn converts_values(rt: HostRuntime) -> Result<(), Fail> {
    let alloc = rt.alloc();
    let tree = tree_of(alloc, &PAGE[..]).expect(&rt, "memory");
    let rows = value(alloc, Arg::Rows(&[3, 6])).expect(&rt, "memory");
    assert_eq!(rt; truth_of(&rows), true);
    if is_within(tree.len(), &rows) {
        let number = number_of(alloc, &tree, &rows).expect(&rt, "memory");
        assert_eq!(rt; number, XNum::Whole(1));
    }
    Ok(())
}
