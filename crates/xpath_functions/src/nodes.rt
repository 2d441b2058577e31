//! The functions on node-sets, XPath 1.0, section 4.1.
ghost use Rattle.std.specs.Prelude.{◌≡◌, ◌<◌, ◌∷◌, [], length, pos, IfOk};
ghost use Rattle.doc_model.specs.RowLists.{AllBelow};
ghost use Rattle.xpath_values.specs.declared.value.Value.TheVariants.{Nodes};
ghost use Rattle.xpath_values.specs.Numbers as numbers;
ghost use Rattle.xpath_parser.specs.Conversions.{rows_of};
ghost use Rattle.xpath_parser.specs.Functions as functions;
ghost use Rattle.xpath_parser.specs.Functions.{arg, first_name};
ghost use Rattle.xpath_functions.specs.Rows.{AreWithin};

use crate::ids::{rows_with_ids, words_of_value};
use crate::numbers::counted;
use crate::texts::nothing;
use doc_model::Tree;
use std::alloc::Global;
use text_base::{NoMemory, Seq, Txt};
use xpath_values::{Value, XNum};

/// The rows of a value: none but of a node-set.
pub fn rows_of(value: &Value) -> &[u32]
    ensures { result.now ≡ rows_of value.now }
{
    match value {
        Value::Nodes(rows) => rows.as_slice(),
        _ => &[],
    }
}

/// The rows of the first argument, or none where it is missing.
pub fn rows_at(args: &Seq<Value>) -> &[u32]
    ensures { result.now ≡ rows_of (arg 0 args.now (Nodes [])) }
{
    let args = args.as_slice();
    if args.len() == 0 {
        return &[];
    }
    rows_of(&args[0])
}

/// `last`
pub fn last(size: u32) -> XNum
    ensures { result ≡ numbers.whole (pos size) }
{
    counted(u64::from(size))
}

/// `position`
pub fn position(position: u32) -> XNum
    ensures { result ≡ numbers.whole (pos position) }
{
    counted(u64::from(position))
}

/// `count`
pub fn count(args: &Seq<Value>) -> XNum
    ensures { result ≡ numbers.whole (pos (length (rows_of (arg 0 args.now (Nodes []))))) }
{
    counted(rows_at(args).len() as u64)
}

/// `id`
pub fn id<T: Tree>(alloc: Global, tree: &T, args: &Seq<Value>) -> Result<Seq<u32>, NoMemory>
    requires { AreWithin (T.document tree.now) args.now }
    ensures { IfOk result (λ v. v ≡ functions.ids (T.document tree.now) (arg 0 args.now (Nodes []))) }
{
    let args = args.as_slice();
    if args.len() == 0 {
        return Ok(Seq::new(alloc));
    }
    let words = words_of_value(alloc, tree, &args[0])?;
    Ok(Seq::from_vec(rows_with_ids(alloc, tree, words.as_slice())?))
}

/// A copy of the name of the first row, or the empty text.
fn first_name<T: Tree>(alloc: Global, tree: &T, rows: &[u32]) -> Result<Txt, NoMemory>
    requires { AllBelow (length (T.document tree.now)) rows.now }
    ensures { IfOk result (λ t. t ≡ first_name (T.document tree.now) rows.now) }
{
    if rows.len() == 0 {
        return Txt::of(alloc, nothing());
    }
    Txt::of(alloc, tree.name(rows[0]))
}

/// `name`
pub fn name<T: Tree>(alloc: Global, tree: &T, args: &Seq<Value>, node: u32) -> Result<Txt, NoMemory>
    requires row { node < length (T.document tree.now) }
    requires rows { AreWithin (T.document tree.now) args.now }
    ensures { IfOk result (λ t. t ≡ first_name (T.document tree.now) (rows_of (arg 0 args.now (Nodes (node ∷ []))))) }
{
    let args = args.as_slice();
    if args.len() == 0 {
        return Txt::of(alloc, tree.name(node));
    }
    first_name(alloc, tree, rows_of(&args[0]))
}

/// `local-name`, which is the name, as no name has a prefix
pub fn local_name<T: Tree>(
    alloc: Global,
    tree: &T,
    args: &Seq<Value>,
    node: u32,
) -> Result<Txt, NoMemory>
    requires row { node < length (T.document tree.now) }
    requires rows { AreWithin (T.document tree.now) args.now }
    ensures { IfOk result (λ t. t ≡ first_name (T.document tree.now) (rows_of (arg 0 args.now (Nodes (node ∷ []))))) }
{
    name(alloc, tree, args, node)
}

/// `namespace-uri`, which is empty, as no name is in a namespace
pub fn namespace_uri(alloc: Global) -> Result<Txt, NoMemory>
    ensures { IfOk result (λ t. t ≡ []) }
{
    Txt::of(alloc, nothing())
}
