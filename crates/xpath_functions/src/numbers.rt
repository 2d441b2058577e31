//! The functions on numbers, XPath 1.0, section 4.4.
ghost use Rattle.std.specs.Prelude.{◌≡◌, ◌<◌, ◌∷◌, [], length, pos, IfOk};
ghost use Rattle.doc_model.specs.RowLists.{AllBelow};
ghost use Rattle.xpath_values.specs.declared.value.Value.TheVariants.{Nodes};
ghost use Rattle.xpath_values.specs.Numbers as numbers;
ghost use Rattle.xpath_parser.specs.Conversions as spec;
ghost use Rattle.xpath_parser.specs.Functions.{arg, sum_of};
ghost use Rattle.xpath_functions.specs.Rows.{AreWithin};

use crate::conversions::number_of;
use crate::nodes::rows_at;
use crate::texts::row_text;
use doc_model::Tree;
use std::alloc::Global;
use text_base::{NoMemory, Seq};
use xpath_values::{LARGEST_WHOLE, Value, XNum, add, to_number};

/// The number of so many things.
pub fn counted(n: u64) -> XNum
    ensures { result ≡ numbers.whole (pos n) }
{
    if n > LARGEST_WHOLE {
        return XNum::NaN;
    }
    XNum::Whole(n as i64)
}

/// `number`
pub fn number<T: Tree>(
    alloc: Global,
    tree: &T,
    args: &Seq<Value>,
    node: u32,
) -> Result<XNum, NoMemory>
    requires row { node < length (T.document tree.now) }
    requires rows { AreWithin (T.document tree.now) args.now }
    ensures { IfOk result (λ n. n ≡ spec.number_of (T.document tree.now) (arg 0 args.now (Nodes (node ∷ [])))) }
{
    let args = args.as_slice();
    if args.len() == 0 {
        return Ok(to_number(row_text(alloc, tree, node)?.as_str()));
    }
    number_of(alloc, tree, &args[0])
}

/// The sum of the numbers of the rows.
fn sum_of<T: Tree>(alloc: Global, tree: &T, rows: &[u32]) -> Result<XNum, NoMemory>
    requires { AllBelow (length (T.document tree.now)) rows.now }
    ensures { IfOk result (λ n. n ≡ sum_of (T.document tree.now) rows.now) }
{
    let mut total = XNum::Whole(0);
    for x in rows {
        total = add(total, to_number(row_text(alloc, tree, *x)?.as_str()));
    }
    Ok(total)
}

/// `sum`
pub fn sum<T: Tree>(alloc: Global, tree: &T, args: &Seq<Value>) -> Result<XNum, NoMemory>
    requires { AreWithin (T.document tree.now) args.now }
    ensures { IfOk result (λ n. n ≡ sum_of (T.document tree.now) (spec.rows_of (arg 0 args.now (Nodes [])))) }
{
    sum_of(alloc, tree, rows_at(args))
}

/// The number of the first argument.
fn number_at<T: Tree>(alloc: Global, tree: &T, args: &Seq<Value>) -> Result<XNum, NoMemory>
    requires { AreWithin (T.document tree.now) args.now }
    ensures { IfOk result (λ n. n ≡ spec.number_of (T.document tree.now) (arg 0 args.now (Nodes []))) }
{
    let args = args.as_slice();
    if args.len() == 0 {
        return Ok(XNum::NaN);
    }
    number_of(alloc, tree, &args[0])
}

/// `floor`, which changes nothing, as numbers are whole
pub fn floor<T: Tree>(alloc: Global, tree: &T, args: &Seq<Value>) -> Result<XNum, NoMemory>
    requires { AreWithin (T.document tree.now) args.now }
    ensures { IfOk result (λ n. n ≡ spec.number_of (T.document tree.now) (arg 0 args.now (Nodes []))) }
{
    number_at(alloc, tree, args)
}

/// `ceiling`, which changes nothing, as numbers are whole
pub fn ceiling<T: Tree>(alloc: Global, tree: &T, args: &Seq<Value>) -> Result<XNum, NoMemory>
    requires { AreWithin (T.document tree.now) args.now }
    ensures { IfOk result (λ n. n ≡ spec.number_of (T.document tree.now) (arg 0 args.now (Nodes []))) }
{
    number_at(alloc, tree, args)
}

/// `round`, which changes nothing, as numbers are whole
pub fn round<T: Tree>(alloc: Global, tree: &T, args: &Seq<Value>) -> Result<XNum, NoMemory>
    requires { AreWithin (T.document tree.now) args.now }
    ensures { IfOk result (λ n. n ≡ spec.number_of (T.document tree.now) (arg 0 args.now (Nodes []))) }
{
    number_at(alloc, tree, args)
}
