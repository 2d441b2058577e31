//! The functions on booleans, XPath 1.0, section 4.3.
ghost use Rattle.std.specs.Prelude.{◌≡◌, ◌<◌, [], length, not, IfOk};
ghost use Rattle.xpath_values.specs.declared.value.Value.TheVariants.{Nodes};
ghost use Rattle.xpath_parser.specs.Conversions as spec;
ghost use Rattle.xpath_parser.specs.Functions as functions;
ghost use Rattle.xpath_parser.specs.Functions.{arg};
ghost use Rattle.xpath_functions.specs.Rows.{AreWithin};

use crate::conversions::truth_of;
use crate::languages::speaks;
use crate::texts::text_at;
use doc_model::Tree;
use std::alloc::Global;
use text_base::{NoMemory, Seq};
use xpath_values::Value;

/// `boolean`
pub fn boolean(args: &Seq<Value>) -> bool
    ensures { result ≡ spec.truth_of (arg 0 args.now (Nodes [])) }
{
    let args = args.as_slice();
    if args.len() == 0 {
        return false;
    }
    truth_of(&args[0])
}

/// `not`
pub fn not(args: &Seq<Value>) -> bool
    ensures { result ≡ not (spec.truth_of (arg 0 args.now (Nodes []))) }
{
    !boolean(args)
}

/// `lang`
pub fn lang<T: Tree>(
    alloc: Global,
    tree: &T,
    args: &Seq<Value>,
    node: u32,
) -> Result<bool, NoMemory>
    requires row { node < length (T.document tree.now) }
    requires rows { AreWithin (T.document tree.now) args.now }
    ensures { IfOk result (λ r. r ≡ functions.lang (T.document tree.now) (spec.text_of (T.document tree.now) (arg 0 args.now (Nodes []))) node) }
{
    let language = text_at(alloc, tree, args, 0)?;
    speaks(alloc, tree, language.as_str(), node)
}
