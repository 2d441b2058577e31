//! The table of functions.
ghost use Rattle.std.specs.Prelude.{◌≡◌, ◌<◌, length, None, IfOk};
ghost use Rattle.xpath_functions.specs.Rows.{AreWithin};
ghost use Rattle.xpath_parser.specs.Asking.{stored_kind, IsStored};
ghost use Rattle.xpath_parser.specs.Functions as functions;

use crate::{booleans, nodes, numbers, strings};
use doc_model::Tree;
use std::alloc::Global;
use test_registry::{Asks, TestKind};
use text_base::{NoMemory, Seq};
use xpath_parser::Func;
use xpath_values::Value;

/// The value of one of the 27 functions, XPath 1.0, section 4, at a row, of which the context position and size are given. An
/// argument that is missing is the context row alone where the function may go without it, and else no node at all.
pub fn call<T: Tree>(
    alloc: Global,
    tree: &T,
    func: Func,
    args: &Seq<Value>,
    node: u32,
    position: u32,
    size: u32,
) -> Result<Value, NoMemory>
    requires row { node < length (T.document tree.now) }
    requires rows { AreWithin (T.document tree.now) args.now }
    requires own { stored_kind func ≡ None }
    ensures { IfOk result (λ v. v ≡ functions.called (T.document tree.now) func args.now (record { row = node; position = position; size = size })) }
{
    let value = match func {
        Func::Last => Value::Num(nodes::last(size)),
        Func::Position => Value::Num(nodes::position(position)),
        Func::Count => Value::Num(nodes::count(args)),
        Func::Id => Value::Nodes(nodes::id(alloc, tree, args)?),
        Func::LocalName => Value::Str(nodes::local_name(alloc, tree, args, node)?),
        Func::NamespaceUri => Value::Str(nodes::namespace_uri(alloc)?),
        Func::Name => Value::Str(nodes::name(alloc, tree, args, node)?),
        Func::Str => Value::Str(strings::string(alloc, tree, args, node)?),
        Func::Concat => Value::Str(strings::concat(alloc, tree, args)?),
        Func::StartsWith => Value::Bool(strings::starts_with(alloc, tree, args)?),
        Func::Contains => Value::Bool(strings::contains(alloc, tree, args)?),
        Func::SubstringBefore => Value::Str(strings::substring_before(alloc, tree, args)?),
        Func::SubstringAfter => Value::Str(strings::substring_after(alloc, tree, args)?),
        Func::Substring => Value::Str(strings::substring(alloc, tree, args)?),
        Func::StringLength => Value::Num(strings::string_length(alloc, tree, args, node)?),
        Func::NormalizeSpace => Value::Str(strings::normalize_space(alloc, tree, args, node)?),
        Func::Translate => Value::Str(strings::translate(alloc, tree, args)?),
        Func::Boolean => Value::Bool(booleans::boolean(args)),
        Func::Not => Value::Bool(booleans::not(args)),
        Func::True => Value::Bool(true),
        Func::False => Value::Bool(false),
        Func::Lang => Value::Bool(booleans::lang(alloc, tree, args, node)?),
        Func::Number => Value::Num(numbers::number(alloc, tree, args, node)?),
        Func::Sum => Value::Num(numbers::sum(alloc, tree, args)?),
        Func::Floor => Value::Num(numbers::floor(alloc, tree, args)?),
        Func::Ceiling => Value::Num(numbers::ceiling(alloc, tree, args)?),
        Func::Round => Value::Num(numbers::round(alloc, tree, args)?),
        Func::Stored(_) => unreachable!(),
    };
    Ok(value)
}

/// The kind of a stored test. The functions of XPath 1.0 have none.
fn stored_kind(func: Func) -> Option<TestKind>
    ensures { result ≡ stored_kind func }
{
    match func {
        Func::Stored(kind) => Some(kind),
        _ => None,
    }
}

/// The value of a function, as `call` says, or of a stored test: what its kind answers for the string values of its two
/// arguments.
pub fn call_with<T: Tree, Q: Asks>(
    alloc: Global,
    tree: &T,
    func: Func,
    args: &Seq<Value>,
    node: u32,
    position: u32,
    size: u32,
    tests: &Q,
) -> Result<Value, NoMemory>
    requires row { node < length (T.document tree.now) }
    requires rows { AreWithin (T.document tree.now) args.now }
    requires kind { IsStored (Q.kinds tests.now) (stored_kind func) }
    ensures { IfOk result (λ v. v ≡ functions.called (T.document tree.now) func args.now (record { row = node; position = position; size = size })) }
{
    match stored_kind(func) {
        Some(kind) => Ok(Value::Bool(strings::stored(alloc, tree, args, kind, tests)?)),
        None => call(alloc, tree, func, args, node, position, size),
    }
}
