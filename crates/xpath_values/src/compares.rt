ghost use Rattle.std.specs.Prelude.{◌≡◌, IfOk, string_bytes, encode_utf8_all};
ghost use Rattle.std.specs.Str.{chars, bytes_eq};
ghost use Rattle.xpath_values.specs.Atoms as atoms;
ghost use Rattle.xpath_values.specs.Numbers as numbers;
ghost use Rattle.xpath_values.specs.Compares as spec;

use crate::numbers::num_fits;
use crate::reading::to_number;
use crate::value::{Atom, Compare, XNum};
use std::alloc::Global;
use text_base::{NoMemory, is_empty};

/// The decimal digits of a number after an optional `-`, or `NaN`.
pub fn num_text(alloc: Global, number: XNum) -> Result<String, NoMemory>
    ensures { IfOk result (λ s. string_bytes s ≡ numbers.num_text number) }
{
    match number {
        XNum::Whole(whole) => Ok(format!(in alloc; "{whole}")?),
        XNum::NaN => Ok(String::from_str(alloc, "NaN")?),
    }
}

fn whole_is_not_zero(number: XNum) -> bool
    ensures { result ≡ numbers.truth_of_num number }
{
    match number {
        XNum::Whole(whole) => whole != 0,
        XNum::NaN => false,
    }
}

fn truth_of(atom: Atom<'_>) -> bool
    ensures { result ≡ spec.truth_of (atoms.plain_of atom.entry) }
{
    match atom {
        Atom::Bool(truth) => truth,
        Atom::Num(number) => whole_is_not_zero(number),
        Atom::Str(text) => !is_empty(text),
    }
}

fn number_of(atom: Atom<'_>) -> XNum
    ensures { result ≡ spec.number_of (atoms.plain_of atom.entry) }
{
    match atom {
        Atom::Bool(true) => XNum::Whole(1),
        Atom::Bool(false) => XNum::Whole(0),
        Atom::Num(number) => number,
        Atom::Str(text) => to_number(text),
    }
}

/// Whether the texts of two values are equal.
#[tactic(auto, using(text_base::proofs::ByteParts::same_chars))]
fn are_equal_texts(a: &str, b: &str) -> bool
    ensures { result ≡ bytes_eq (chars a.now) (chars b.now) }
{
    a == b
}

fn are_equal(a: Atom<'_>, b: Atom<'_>) -> bool
    ensures { result ≡ spec.equal (atoms.plain_of a.entry) (atoms.plain_of b.entry) }
{
    match (a, b) {
        (Atom::Bool(_), _) | (_, Atom::Bool(_)) => truth_of(a) == truth_of(b),
        (Atom::Str(a), Atom::Str(b)) => are_equal_texts(a, b),
        _ => num_fits(Compare::Equal, number_of(a), number_of(b)),
    }
}

/// Whether a comparison holds between two values that are no node-sets, XPath 1.0, section 3.4:
/// `=` and `!=` go by boolean where one side is a boolean, else by number where one side is a
/// number, else by string; the orders go by number.
pub fn compare_atoms(op: Compare, a: Atom<'_>, b: Atom<'_>) -> bool
    ensures { result ≡ spec.plain_fits op (atoms.plain_of a.entry) (atoms.plain_of b.entry) }
{
    match op {
        Compare::Equal => are_equal(a, b),
        Compare::Unequal => !are_equal(a, b),
        _ => num_fits(op, number_of(a), number_of(b)),
    }
}
