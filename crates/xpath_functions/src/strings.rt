//! The functions on strings, XPath 1.0, section 4.2.
ghost use Rattle.std.specs.Prelude.{◌≡◌, ◌<◌, ◌∷◌, [], length, pos, encode_utf8_all, IfOk};
ghost use Rattle.test_registry.specs.Kinds.{HasKind};
ghost use Rattle.test_registry.specs.Meets.{meets};
ghost use Rattle.xpath_values.specs.declared.value.Value.TheVariants.{Nodes};
ghost use Rattle.text_base.specs.Strings as texts;
ghost use Rattle.xpath_values.specs.Numbers as numbers;
ghost use Rattle.xpath_values.specs.Strings as strings;
ghost use Rattle.xpath_parser.specs.Conversions as spec;
ghost use Rattle.xpath_parser.specs.Functions.{arg, concat_of, substring_at};
ghost use Rattle.xpath_functions.specs.Rows.{AreWithin};

use crate::building::{joined, normalized, translated};
use crate::conversions::number_of;
use crate::numbers::counted;
use crate::parts::{after, before, part_from, part_of};
use crate::texts::{nothing, text_at, text_or_row};
use doc_model::Tree;
use std::alloc::Global;
use test_registry::{Asks, TestKind};
use text_base::{NoMemory, Seq, Txt, begins, char_len, includes};
use xpath_values::{Value, XNum};

/// `string`
pub fn string<T: Tree>(
    alloc: Global,
    tree: &T,
    args: &Seq<Value>,
    node: u32,
) -> Result<Txt, NoMemory>
    requires row { node < length (T.document tree.now) }
    requires rows { AreWithin (T.document tree.now) args.now }
    ensures { IfOk result (λ t. t ≡ spec.text_of (T.document tree.now) (arg 0 args.now (Nodes (node ∷ [])))) }
{
    text_or_row(alloc, tree, args, node)?.into_txt(alloc)
}

/// `concat`
pub fn concat<T: Tree>(alloc: Global, tree: &T, args: &Seq<Value>) -> Result<Txt, NoMemory>
    requires { AreWithin (T.document tree.now) args.now }
    ensures { IfOk result (λ t. t ≡ concat_of (T.document tree.now) args.now) }
{
    Ok(Txt::from_string(joined(alloc, tree, args.as_slice())?))
}

/// `starts-with`
pub fn starts_with<T: Tree>(alloc: Global, tree: &T, args: &Seq<Value>) -> Result<bool, NoMemory>
    requires { AreWithin (T.document tree.now) args.now }
    ensures { IfOk result (λ r. r ≡ texts.starts_with (spec.text_of (T.document tree.now) (arg 0 args.now (Nodes []))) (spec.text_of (T.document tree.now) (arg 1 args.now (Nodes [])))) }
{
    let text = text_at(alloc, tree, args, 0)?;
    let start = text_at(alloc, tree, args, 1)?;
    Ok(begins(text.as_str(), start.as_str()))
}

/// What the first stored test of the kind answers for two strings.
pub fn stored<T: Tree, Q: Asks>(
    alloc: Global,
    tree: &T,
    args: &Seq<Value>,
    kind: TestKind,
    tests: &Q,
) -> Result<bool, NoMemory>
    requires rows { AreWithin (T.document tree.now) args.now }
    requires kind { HasKind kind (Q.kinds tests.now) }
    ensures { IfOk result (λ r. r ≡ meets kind (encode_utf8_all (spec.text_of (T.document tree.now) (arg 0 args.now (Nodes [])))) (encode_utf8_all (spec.text_of (T.document tree.now) (arg 1 args.now (Nodes []))))) }
{
    let text = text_at(alloc, tree, args, 0)?;
    let other = text_at(alloc, tree, args, 1)?;
    Ok(tests.asked(kind, text.as_str(), other.as_str()))
}

/// `contains`
pub fn contains<T: Tree>(alloc: Global, tree: &T, args: &Seq<Value>) -> Result<bool, NoMemory>
    requires { AreWithin (T.document tree.now) args.now }
    ensures { IfOk result (λ r. r ≡ texts.contains (spec.text_of (T.document tree.now) (arg 0 args.now (Nodes []))) (spec.text_of (T.document tree.now) (arg 1 args.now (Nodes [])))) }
{
    let text = text_at(alloc, tree, args, 0)?;
    let part = text_at(alloc, tree, args, 1)?;
    Ok(includes(text.as_str(), part.as_str()))
}

/// `substring-before`
pub fn substring_before<T: Tree>(
    alloc: Global,
    tree: &T,
    args: &Seq<Value>,
) -> Result<Txt, NoMemory>
    requires { AreWithin (T.document tree.now) args.now }
    ensures { IfOk result (λ t. t ≡ strings.str_before (spec.text_of (T.document tree.now) (arg 0 args.now (Nodes []))) (spec.text_of (T.document tree.now) (arg 1 args.now (Nodes [])))) }
{
    let text = text_at(alloc, tree, args, 0)?;
    let mark = text_at(alloc, tree, args, 1)?;
    Txt::of(alloc, before(text.as_str(), mark.as_str()))
}

/// `substring-after`
pub fn substring_after<T: Tree>(alloc: Global, tree: &T, args: &Seq<Value>) -> Result<Txt, NoMemory>
    requires { AreWithin (T.document tree.now) args.now }
    ensures { IfOk result (λ t. t ≡ strings.str_after (spec.text_of (T.document tree.now) (arg 0 args.now (Nodes []))) (spec.text_of (T.document tree.now) (arg 1 args.now (Nodes [])))) }
{
    let text = text_at(alloc, tree, args, 0)?;
    let mark = text_at(alloc, tree, args, 1)?;
    Txt::of(alloc, after(text.as_str(), mark.as_str()))
}

/// `substring`
pub fn substring<T: Tree>(alloc: Global, tree: &T, args: &Seq<Value>) -> Result<Txt, NoMemory>
    requires { AreWithin (T.document tree.now) args.now }
    ensures { IfOk result (λ t. t ≡ substring_at (T.document tree.now) args.now) }
{
    let text = text_at(alloc, tree, args, 0)?;
    match args.as_slice() {
        [] | [_] => Txt::of(alloc, nothing()),
        [_, from] => Txt::of(
            alloc,
            part_from(text.as_str(), number_of(alloc, tree, from)?),
        ),
        [_, from, len, ..] => {
            let from = number_of(alloc, tree, from)?;
            let len = number_of(alloc, tree, len)?;
            Txt::of(alloc, part_of(text.as_str(), from, len))
        }
    }
}

/// `string-length`
pub fn string_length<T: Tree>(
    alloc: Global,
    tree: &T,
    args: &Seq<Value>,
    node: u32,
) -> Result<XNum, NoMemory>
    requires row { node < length (T.document tree.now) }
    requires rows { AreWithin (T.document tree.now) args.now }
    ensures { IfOk result (λ n. n ≡ numbers.whole (pos (length (spec.text_of (T.document tree.now) (arg 0 args.now (Nodes (node ∷ []))))))) }
{
    let text = text_or_row(alloc, tree, args, node)?;
    Ok(counted(char_len(text.as_str())))
}

/// `normalize-space`
pub fn normalize_space<T: Tree>(
    alloc: Global,
    tree: &T,
    args: &Seq<Value>,
    node: u32,
) -> Result<Txt, NoMemory>
    requires row { node < length (T.document tree.now) }
    requires rows { AreWithin (T.document tree.now) args.now }
    ensures { IfOk result (λ t. t ≡ strings.normalized (spec.text_of (T.document tree.now) (arg 0 args.now (Nodes (node ∷ []))))) }
{
    let text = text_or_row(alloc, tree, args, node)?;
    Ok(Txt::from_string(normalized(alloc, text.as_str())?))
}

/// `translate`
pub fn translate<T: Tree>(alloc: Global, tree: &T, args: &Seq<Value>) -> Result<Txt, NoMemory>
    requires { AreWithin (T.document tree.now) args.now }
    ensures { IfOk result (λ t. t ≡ strings.translated (spec.text_of (T.document tree.now) (arg 0 args.now (Nodes []))) (spec.text_of (T.document tree.now) (arg 1 args.now (Nodes []))) (spec.text_of (T.document tree.now) (arg 2 args.now (Nodes [])))) }
{
    let text = text_at(alloc, tree, args, 0)?;
    let from = text_at(alloc, tree, args, 1)?;
    let to = text_at(alloc, tree, args, 2)?;
    let out = translated(alloc, text.as_str(), from.as_str(), to.as_str())?;
    Ok(Txt::from_string(out))
}
