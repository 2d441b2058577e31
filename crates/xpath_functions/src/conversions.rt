//! Conversions of values, XPath 1.0, sections 4.2 to 4.4.
ghost use Rattle.std.specs.Prelude.{◌≡◌, IfOk};
ghost use Rattle.xpath_functions.specs.Rows.{IsWithin};
ghost use Rattle.xpath_parser.specs.Conversions as spec;

use crate::texts::value_text;
use doc_model::Tree;
use std::alloc::Global;
use text_base::{NoMemory, Txt, is_empty};
use xpath_values::{Value, XNum, to_number};

/// The string of a value: of a node-set the string value of its first row, or the empty text.
pub fn text_of<T: Tree>(alloc: Global, tree: &T, value: &Value) -> Result<Txt, NoMemory>
    requires { IsWithin (T.document tree.now) value.now }
    ensures { IfOk result (λ t. t ≡ spec.text_of (T.document tree.now) value.now) }
{
    value_text(alloc, tree, value)?.into_txt(alloc)
}

/// The number of a value: of a node-set that of its string.
pub fn number_of<T: Tree>(alloc: Global, tree: &T, value: &Value) -> Result<XNum, NoMemory>
    requires { IsWithin (T.document tree.now) value.now }
    ensures { IfOk result (λ n. n ≡ spec.number_of (T.document tree.now) value.now) }
{
    match value {
        Value::Bool(true) => Ok(XNum::Whole(1)),
        Value::Bool(false) => Ok(XNum::Whole(0)),
        Value::Num(number) => Ok(*number),
        Value::Str(text) => Ok(to_number(text.as_str())),
        Value::Nodes(_) => Ok(to_number(value_text(alloc, tree, value)?.as_str())),
    }
}

/// The truth of a value: that a node-set or a string is not empty, and a number neither 0 nor NaN.
pub fn truth_of(value: &Value) -> bool
    ensures { result ≡ spec.truth_of value.now }
{
    match value {
        Value::Bool(truth) => *truth,
        Value::Num(XNum::Whole(number)) => *number != 0,
        Value::Num(XNum::NaN) => false,
        Value::Str(text) => !is_empty(text.as_str()),
        Value::Nodes(rows) => rows.as_slice().len() != 0,
    }
}
