//! What the forms of expressions do to values.
ghost use Rattle.std.specs.Prelude.{◌≡◌, ◌<◌, ◌≤◌, ◌+◌, [], length, slice_set, IsTrue, IfOk, if◌then◌else◌};
ghost use Rattle.doc_model.specs.Axes.{axis_list};
ghost use Rattle.xpath_values.specs.Numbers as numbers;
ghost use Rattle.xpath_parser.specs.declared.expression.Func.TheVariants as f;
ghost use Rattle.xpath_parser.specs.Conversions.{rows_of};
ghost use Rattle.xpath_parser.specs.Denote as spec;
ghost use Rattle.xpath_parser.specs.Functions as functions;
ghost use Rattle.xpath_parser.specs.Asking.{stored_kind, IsStored};
ghost use Rattle.xpath_functions.specs.Rows.{AreWithin, IsWithin};
ghost use Rattle.xpath_eval.specs.inner.Places.{context};
ghost use Rattle.doc_model.specs.RowLists.{AllBelow};
ghost use Rattle.xpath_eval.specs.Rows.{AreRows};

use crate::place::Place;
use doc_model::{Axes, Axis, NodeTest, Tree};
use std::alloc::Global;
use test_registry::Asks;
use text_base::{NoMemory, Seq};
use xpath_functions::{call_with, fits, number_of, truth_of};
use xpath_parser::{Func, Infix};
use xpath_values::{Value, XNum, add, mul, neg, rem, sub, whole};

/// Whether a predicate of this value keeps the row at this position, XPath 1.0, section 2.4: a number where it is the
/// position, anything else where it is true.
pub fn keeps(position: u32, value: &Value) -> bool
    ensures { result ≡ spec.keeps position value.now }
{
    match value {
        Value::Num(XNum::Whole(n)) => *n >= 0 && *n as u64 == position as u64,
        Value::Num(XNum::NaN) => false,
        other => truth_of(other),
    }
}

/// The rows of a node-set; of any other value none.
pub fn nodes(alloc: Global, value: Value) -> Seq<u32>
    ensures { result ≡ rows_of value }
{
    match value {
        Value::Nodes(rows) => rows,
        _ => Seq::new(alloc),
    }
}

/// The rows of a node-set, as a list of its own.
pub fn rows_of_nodes<T: Tree>(alloc: Global, tree: &T, value: Value) -> Result<Vec<u32>, NoMemory>
    requires { AreRows (T.document tree.now) (rows_of value) }
    ensures rows { IfOk result (λ rows. rows.items ≡ rows_of value) }
    ensures below { IfOk result (λ rows. AllBelow (length (T.document tree.now)) rows.items) }
    ensures few { IfOk result (λ rows. length rows.items ≤ length (T.document tree.now)) }
{
    let rows = nodes(alloc, value);
    Ok(Vec::from_slice(alloc, rows.as_slice())?)
}

/// The rows on an axis that a test lets through, in the order of the axis.
pub fn axis_rows<S: Axes>(
    alloc: Global,
    source: &S,
    x: u32,
    axis: Axis,
    test: &NodeTest,
) -> Result<Vec<u32>, NoMemory>
    requires { x < length (S.document source.now) }
    ensures rows { IfOk result (λ rows. rows.items ≡ axis_list (S.document source.now) x axis test.now) }
    ensures below { IfOk result (λ rows. AllBelow (length (S.document source.now)) rows.items) }
    ensures few { IfOk result (λ rows. length rows.items ≤ length (S.document source.now)) }
{
    let mut rows = Vec::new(alloc);
    source.axis_into(x, axis, test, &mut rows)?;
    Ok(rows)
}

/// The number that is written so.
pub fn literal_number(n: &i64) -> XNum
    ensures { result ≡ numbers.whole n.now }
{
    whole(*n)
}

/// The number behind so many signs.
pub fn signed(signs: u32, number: XNum) -> XNum
    ensures { result ≡ spec.signed signs number }
{
    if signs % 2 == 0 { number } else { neg(number) }
}

/// The value of an operator between two values, XPath 1.0, sections 3.4 and 3.5.
pub fn applied<T: Tree>(
    alloc: Global,
    tree: &T,
    op: Infix,
    a: &Value,
    b: &Value,
) -> Result<Value, NoMemory>
    requires left { IsWithin (T.document tree.now) a.now }
    requires right { IsWithin (T.document tree.now) b.now }
    ensures value { IfOk result (λ v. v ≡ spec.applied (T.document tree.now) op a.now b.now) }
    ensures rows { IfOk result (λ v. rows_of v ≡ []) }
{
    match op {
        Infix::Compare(compare) => Ok(Value::Bool(fits(alloc, tree, compare, a, b)?)),
        Infix::Add => Ok(Value::Num(add(number_of(alloc, tree, a)?, number_of(alloc, tree, b)?))),
        Infix::Sub => Ok(Value::Num(sub(number_of(alloc, tree, a)?, number_of(alloc, tree, b)?))),
        Infix::Mul => Ok(Value::Num(mul(number_of(alloc, tree, a)?, number_of(alloc, tree, b)?))),
        Infix::Mod => Ok(Value::Num(rem(number_of(alloc, tree, a)?, number_of(alloc, tree, b)?))),
    }
}

/// Puts a row that is wanted to a place of the list, and gives the place after it.
pub fn put_if(rows: &mut Vec<u32>, end: usize, row: u32, wanted: bool) -> usize
    requires { end < length rows.old.items }
    ensures rows { rows.new.items ≡ (if wanted then slice_set rows.old.items end row else rows.old.items) }
    ensures end { result ≡ (if wanted then end + 1 else end) }
{
    if wanted {
        rows[end] = row;
        return end + 1;
    }
    end
}

/// Whether a function is `not`.
pub fn is_not(func: Func) -> bool
    ensures { IsTrue result → func ≡ f.Not }
{
    matches!(func, Func::Not)
}

/// The value of a function or of a stored test at a place.
pub fn called<S: Axes, Q: Asks>(
    alloc: Global,
    source: &S,
    func: Func,
    args: &Seq<Value>,
    place: Place,
    tests: &Q,
) -> Result<Value, NoMemory>
    requires row { place.row < length (S.document source.now) }
    requires rows { AreWithin (S.document source.now) args.now }
    requires kind { IsStored (Q.kinds tests.now) (stored_kind func) }
    ensures { IfOk result (λ v. v ≡ functions.called (S.document source.now) func args.now (context place)) }
{
    call_with(
        alloc,
        source,
        func,
        args,
        place.row,
        place.position,
        place.size,
        tests,
    )
}
