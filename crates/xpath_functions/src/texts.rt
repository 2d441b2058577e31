//! The texts of rows and values, borrowed where they stand in the document or the value.
ghost use Rattle.std.specs.Prelude.{◌≡◌, ◌<◌, ◌∷◌, [], length, IfOk, string_bytes, encode_utf8_all};
ghost use Rattle.std.specs.Str.{chars};
ghost use Rattle.doc_model.specs.StringValue as rows;
ghost use Rattle.doc_model.specs.RowLists.{AllBelow};
ghost use Rattle.xpath_values.specs.declared.value.Value.TheVariants.{Nodes};
ghost use Rattle.xpath_values.specs.declared.value.XNum.TheVariants.{Whole};
ghost use Rattle.xpath_values.specs.Numbers as numbers;
ghost use Rattle.xpath_values.specs.Strings as strings;
ghost use Rattle.xpath_parser.specs.Conversions as spec;
ghost use Rattle.xpath_parser.specs.Functions.{arg};
ghost use Rattle.xpath_functions.specs.Rows.{AreWithin, IsWithin};
ghost use Rattle.xpath_functions.specs.inner.Texts.{chars_of};

use doc_model::{Kind, Tree, string_value};
use std::alloc::Global;
use text_base::{NoMemory, Seq, Txt};
use xpath_values::{Value, XNum, num_text};

/// The text itself.
fn whole(text: &str) -> &str
    ensures chars { chars result.now ≡ chars text.now }
    ensures bytes { result.now ≡ encode_utf8_all (chars text.now) }
{
    text
}

/// The empty text.
pub fn nothing() -> &'static str
    ensures { chars result.now ≡ [] }
{
    ""
}

/// A text that stands in the document or a value, or was made.
#[derive(Drop)]
pub enum Text<'a> {
    Lent(&'a str),
    Made(String),
}

impl Text<'_> {
    /// The text.
    pub fn as_str(&self) -> &str
        ensures chars { chars result.now ≡ chars_of self.now }
        ensures bytes { result.now ≡ encode_utf8_all (chars_of self.now) }
    {
        match self {
            Text::Lent(text) => whole(text),
            Text::Made(text) => whole(text.as_str()),
        }
    }

    /// The text, copied where it is borrowed.
    pub fn into_txt(self, alloc: Global) -> Result<Txt, NoMemory>
        ensures { IfOk result (λ t. t ≡ chars_of self.entry) }
    {
        match self {
            Text::Lent(text) => Txt::of(alloc, text),
            Text::Made(text) => Ok(Txt::from_string(text)),
        }
    }
}

fn whole_text(alloc: Global, whole: i64) -> Result<String, NoMemory>
    ensures { IfOk result (λ s. chars (string_bytes s) ≡ numbers.num_text (Whole whole)) }
{
    num_text(alloc, XNum::Whole(whole))
}

/// The digits of a number, or `NaN`.
fn number_text(alloc: Global, number: XNum) -> Result<String, NoMemory>
    ensures { IfOk result (λ s. chars (string_bytes s) ≡ numbers.num_text number) }
{
    match number {
        XNum::Whole(whole) => whole_text(alloc, whole),
        XNum::NaN => num_text(alloc, XNum::NaN),
    }
}

/// The string value of a row.
pub fn row_text<'a, T: Tree>(alloc: Global, tree: &'a T, i: u32) -> Result<Text<'a>, NoMemory>
    requires { i < length (T.document tree.now) }
    ensures { IfOk result (λ t. chars_of t ≡ rows.string_value (T.document tree.now) i) }
{
    match tree.kind(i) {
        Kind::Root | Kind::Element => Ok(Text::Made(string_value(alloc, tree, i)?)),
        Kind::Attribute | Kind::Text | Kind::Comment => Ok(Text::Lent(tree.text(i))),
    }
}

/// The string value of the first row, or the empty text.
fn first_text<'a, T: Tree>(alloc: Global, tree: &'a T, rows: &[u32]) -> Result<Text<'a>, NoMemory>
    requires { AllBelow (length (T.document tree.now)) rows.now }
    ensures { IfOk result (λ t. chars_of t ≡ spec.text_of_rows (T.document tree.now) rows.now) }
{
    if rows.len() == 0 {
        return Ok(Text::Lent(nothing()));
    }
    row_text(alloc, tree, rows[0])
}

fn truth_text(truth: bool) -> &'static str
    ensures { chars result.now ≡ strings.text_of_bool truth }
{
    if truth { "true" } else { "false" }
}

/// The string of a value.
pub fn value_text<'a, T: Tree>(
    alloc: Global,
    tree: &'a T,
    value: &'a Value,
) -> Result<Text<'a>, NoMemory>
    requires { IsWithin (T.document tree.now) value.now }
    ensures { IfOk result (λ t. chars_of t ≡ spec.text_of (T.document tree.now) value.now) }
{
    match value {
        Value::Bool(truth) => Ok(Text::Lent(truth_text(*truth))),
        Value::Num(number) => Ok(Text::Made(number_text(alloc, *number)?)),
        Value::Str(text) => Ok(Text::Lent(text.as_str())),
        Value::Nodes(rows) => first_text(alloc, tree, rows.as_slice()),
    }
}

/// The string of an argument, or the empty text where it is missing.
pub fn text_at<'a, T: Tree>(
    alloc: Global,
    tree: &'a T,
    args: &'a Seq<Value>,
    i: usize,
) -> Result<Text<'a>, NoMemory>
    requires { AreWithin (T.document tree.now) args.now }
    ensures { IfOk result (λ t. chars_of t ≡ spec.text_of (T.document tree.now) (arg i args.now (Nodes []))) }
{
    let args = args.as_slice();
    if i < args.len() {
        return value_text(alloc, tree, &args[i]);
    }
    Ok(Text::Lent(nothing()))
}

/// The string of the first argument, or of the row where it is missing.
pub fn text_or_row<'a, T: Tree>(
    alloc: Global,
    tree: &'a T,
    args: &'a Seq<Value>,
    node: u32,
) -> Result<Text<'a>, NoMemory>
    requires row { node < length (T.document tree.now) }
    requires rows { AreWithin (T.document tree.now) args.now }
    ensures { IfOk result (λ t. chars_of t ≡ spec.text_of (T.document tree.now) (arg 0 args.now (Nodes (node ∷ [])))) }
{
    let args = args.as_slice();
    if args.len() == 0 {
        return row_text(alloc, tree, node);
    }
    value_text(alloc, tree, &args[0])
}
