//! Comparisons of values, XPath 1.0, section 3.4.
ghost use Rattle.std.specs.Prelude.{◌≡◌, ◌<◌, ℕ, List, true, false, length, map, IfOk};
ghost use Rattle.std.specs.List.{list_any};
ghost use Rattle.std.specs.Str.{bytes_eq};
ghost use Rattle.doc_model.specs.StringValue as values;
ghost use Rattle.doc_model.specs.RowLists.{AllBelow};
ghost use Rattle.xpath_functions.specs.inner.Extremes as extremes;
ghost use Rattle.xpath_functions.specs.inner.Plain.{as_plain};
ghost use Rattle.xpath_functions.specs.Rows.{IsWithin};
ghost use Rattle.xpath_functions.specs.inner.Sets.{has_text};
ghost use Rattle.xpath_functions.specs.inner.Texts.{chars_of};
ghost use Rattle.xpath_parser.specs.Conversions as spec;
ghost use Rattle.xpath_values.specs.Atoms as atoms;
ghost use Rattle.xpath_values.specs.declared.value.Compare.TheVariants as op;
ghost use Rattle.xpath_values.specs.declared.value.Value.TheVariants.{Nodes};

use crate::sets::{add, has};
use crate::texts::{Text, row_text};
use doc_model::Tree;
use std::alloc::Global;
use std::collections::BTreeSet;
use text_base::NoMemory;
use xpath_values::{Atom, Compare, Value, XNum, compare_atoms, num_fits, to_number};

/// A value that is no node-set; a node-set as the boolean that it is.
fn atom_of(value: &Value) -> Atom<'_>
    ensures { atoms.plain_of result ≡ as_plain value.now }
{
    match value {
        Value::Bool(truth) => Atom::Bool(*truth),
        Value::Num(number) => Atom::Num(*number),
        Value::Str(text) => Atom::Str(text.as_str()),
        Value::Nodes(rows) => Atom::Bool(rows.as_slice().len() != 0),
    }
}

/// Whether the comparison holds for one of the rows on its left side.
fn row_fits<T: Tree>(
    alloc: Global,
    tree: &T,
    op: Compare,
    rows: &[u32],
    b: Atom<'_>,
) -> Result<bool, NoMemory>
    requires { AllBelow (length (T.document tree.now)) rows.now }
    ensures { IfOk result (λ r. r ≡ spec.row_fits (T.document tree.now) op rows.now (atoms.plain_of b.entry)) }
{
    for x in rows {
        let text = row_text(alloc, tree, *x)?;
        if compare_atoms(op, Atom::Str(text.as_str()), b) {
            return Ok(true);
        }
    }
    Ok(false)
}

/// Whether the comparison holds for one of the rows on its right side.
fn fits_row<T: Tree>(
    alloc: Global,
    tree: &T,
    op: Compare,
    a: Atom<'_>,
    rows: &[u32],
) -> Result<bool, NoMemory>
    requires { AllBelow (length (T.document tree.now)) rows.now }
    ensures { IfOk result (λ r. r ≡ spec.fits_row (T.document tree.now) op (atoms.plain_of a.entry) rows.now) }
{
    for y in rows {
        let text = row_text(alloc, tree, *y)?;
        if compare_atoms(op, a, Atom::Str(text.as_str())) {
            return Ok(true);
        }
    }
    Ok(false)
}

/// The string values of the rows.
fn texts_of<'a, T: Tree>(
    alloc: Global,
    tree: &'a T,
    rows: &[u32],
) -> Result<Vec<Text<'a>>, NoMemory>
    requires { AllBelow (length (T.document tree.now)) rows.now }
    ensures { IfOk result (λ v. map chars_of v.items ≡ map (values.string_value (T.document tree.now)) rows.now) }
{
    let mut texts = Vec::new(alloc);
    for x in rows {
        texts.push(row_text(alloc, tree, *x)?)?;
    }
    Ok(texts)
}

/// The texts as a set.
fn set_of<'a>(alloc: Global, texts: &'a [Text<'a>]) -> Result<BTreeSet<&'a str>, NoMemory>
    ensures { IfOk result (λ s. (q : List ℕ) → has_text s q ≡ list_any (λ t. bytes_eq (chars_of t) q) texts.now) }
{
    let mut set = BTreeSet::new(alloc);
    for text in texts {
        add(&mut set, text.as_str())?;
    }
    Ok(set)
}

/// Whether a row of each side has one string value. Each string value is looked up once.
fn share<T: Tree>(alloc: Global, tree: &T, xs: &[u32], ys: &[u32]) -> Result<bool, NoMemory>
    requires left { AllBelow (length (T.document tree.now)) xs.now }
    requires right { AllBelow (length (T.document tree.now)) ys.now }
    ensures { IfOk result (λ r. r ≡ spec.fits (T.document tree.now) op.Equal (Nodes xs.now) (Nodes ys.now)) }
{
    let texts = texts_of(alloc, tree, xs)?;
    let known = set_of(alloc, texts.as_slice())?;
    for y in ys {
        let text = row_text(alloc, tree, *y)?;
        if has(&known, text.as_str()) {
            return Ok(true);
        }
    }
    Ok(false)
}

/// Whether a row of each side have two string values: whether one of all rows has another than the first row.
fn differ<T: Tree>(alloc: Global, tree: &T, xs: &[u32], ys: &[u32]) -> Result<bool, NoMemory>
    requires left { AllBelow (length (T.document tree.now)) xs.now }
    requires right { AllBelow (length (T.document tree.now)) ys.now }
    ensures { IfOk result (λ r. r ≡ spec.fits (T.document tree.now) op.Unequal (Nodes xs.now) (Nodes ys.now)) }
{
    if xs.len() == 0 {
        return Ok(false);
    }
    if ys.len() == 0 {
        return Ok(false);
    }
    let text = row_text(alloc, tree, xs[0])?;
    let first = Atom::Str(text.as_str());
    if row_fits(alloc, tree, Compare::Unequal, xs, first)? {
        return Ok(true);
    }
    fits_row(alloc, tree, Compare::Unequal, first, ys)
}

/// The smaller of two numbers where `least` is true, else the larger; NaN is left out.
fn extreme(least: bool, a: XNum, b: XNum) -> XNum
    ensures { result ≡ extremes.extreme least a b }
{
    match (a, b) {
        (XNum::NaN, _) => b,
        (_, XNum::NaN) => a,
        (XNum::Whole(x), XNum::Whole(y)) => {
            let other = if least { y < x } else { x < y };
            if other { b } else { a }
        }
    }
}

/// The least or the greatest of the numbers of the rows; NaN where no row has a number.
fn extreme_of<T: Tree>(alloc: Global, tree: &T, least: bool, rows: &[u32]) -> Result<XNum, NoMemory>
    requires { AllBelow (length (T.document tree.now)) rows.now }
    ensures { IfOk result (λ n. n ≡ extremes.extreme_of (T.document tree.now) least rows.now) }
{
    let mut found = XNum::NaN;
    for x in rows {
        let text = row_text(alloc, tree, *x)?;
        found = extreme(least, found, to_number(text.as_str()));
    }
    Ok(found)
}

/// Whether the order asks for the least number on its left side.
fn goes_up(op: Compare) -> bool
    ensures { result ≡ extremes.goes_up op }
{
    matches!(op, Compare::Less | Compare::LessEqual)
}

/// Whether an order holds between a row of each side: whether it holds between the least number of one side and the
/// greatest of the other.
fn in_order<T: Tree>(
    alloc: Global,
    tree: &T,
    op: Compare,
    xs: &[u32],
    ys: &[u32],
) -> Result<bool, NoMemory>
    requires order { extremes.is_order op ≡ true }
    requires left { AllBelow (length (T.document tree.now)) xs.now }
    requires right { AllBelow (length (T.document tree.now)) ys.now }
    ensures { IfOk result (λ r. r ≡ spec.fits (T.document tree.now) op (Nodes xs.now) (Nodes ys.now)) }
{
    let up = goes_up(op);
    let left = extreme_of(alloc, tree, up, xs)?;
    let right = extreme_of(alloc, tree, !up, ys)?;
    Ok(num_fits(op, left, right))
}

/// Whether the comparison holds between a row of each side.
fn rows_fit<T: Tree>(
    alloc: Global,
    tree: &T,
    op: Compare,
    xs: &[u32],
    ys: &[u32],
) -> Result<bool, NoMemory>
    requires left { AllBelow (length (T.document tree.now)) xs.now }
    requires right { AllBelow (length (T.document tree.now)) ys.now }
    ensures { IfOk result (λ r. r ≡ spec.fits (T.document tree.now) op (Nodes xs.now) (Nodes ys.now)) }
{
    match op {
        Compare::Equal => share(alloc, tree, xs, ys),
        Compare::Unequal => differ(alloc, tree, xs, ys),
        _ => in_order(alloc, tree, op, xs, ys),
    }
}

/// Whether a comparison holds between two values, XPath 1.0, section 3.4. With a node-set it holds where it holds for
/// one of its rows, by their string values; a node-set beside a boolean is a boolean.
pub fn fits<T: Tree>(
    alloc: Global,
    tree: &T,
    op: Compare,
    a: &Value,
    b: &Value,
) -> Result<bool, NoMemory>
    requires left { IsWithin (T.document tree.now) a.now }
    requires right { IsWithin (T.document tree.now) b.now }
    ensures { IfOk result (λ r. r ≡ spec.fits (T.document tree.now) op a.now b.now) }
{
    match (a, b) {
        (Value::Nodes(xs), Value::Nodes(ys)) => {
            rows_fit(alloc, tree, op, xs.as_slice(), ys.as_slice())
        }
        (Value::Nodes(xs), Value::Num(_) | Value::Str(_)) => {
            row_fits(alloc, tree, op, xs.as_slice(), atom_of(b))
        }
        (Value::Num(_) | Value::Str(_), Value::Nodes(ys)) => {
            fits_row(alloc, tree, op, atom_of(a), ys.as_slice())
        }
        _ => Ok(compare_atoms(op, atom_of(a), atom_of(b))),
    }
}
