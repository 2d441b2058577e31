ghost use Rattle.std.specs.Prelude.{◌≡◌, ◌+◌, ◌^◌, ◌<◌, ◌≤◌, length, map, sum_by};
ghost use Rattle.css_selectors.specs.Specificity.{name_count, tail_count};
ghost use Rattle.css_selectors.specs.Sizes.{test_size, compound_size, part_size, relative_size, simple_size, size_of};
ghost use Rattle.css_selectors.specs.Specificity as spec;
ghost use Rattle.css_selectors.specs.Specificity.{test_triple, compound_triple, part_triple, relative_triple, simple_triple, triple_of, sum_from, greatest, triple, IsAtMost};

use crate::selector::{Compound, Part, Relative, Selector, Simple, Tail, Test, Triple, Weight};
use text_base::Txt;

/// The three counts.
fn triple_with(a: u32, b: u32, c: u32) -> Triple
    ensures { result ≡ triple a b c }
{
    Triple { a, b, c }
}

/// One name, or none.
fn named(name: &Option<Txt>) -> Triple
    ensures value { result ≡ triple 0 0 (name_count name.now) }
    ensures bound { IsAtMost 1 result }
{
    match name {
        None => triple_with(0, 0, 0),
        Some(_) => triple_with(0, 0, 1),
    }
}

/// A pseudo-element as a type.
fn tail_counts(tail: &Tail) -> Triple
    ensures value { result ≡ triple 0 0 (tail_count tail.now) }
    ensures bound { IsAtMost 1 result }
{
    match tail {
        Tail::Element => triple_with(0, 0, 0),
        Tail::Text | Tail::Attr(_) => triple_with(0, 0, 1),
    }
}

/// Both together.
fn plus(s: Triple, t: Triple) -> Triple
    requires a { s.a + t.a < 2 ^ 32 }
    requires b { s.b + t.b < 2 ^ 32 }
    requires c { s.c + t.c < 2 ^ 32 }
    ensures { result ≡ spec.plus s t }
{
    Triple {
        a: s.a + t.a,
        b: s.b + t.b,
        c: s.c + t.c,
    }
}

/// Whether the first is less, compared by ids, then classes, then types.
fn is_less(s: Triple, t: Triple) -> bool
    ensures { result ≡ spec.is_less s t }
{
    s.a < t.a || s.a == t.a && (s.b < t.b || s.b == t.b && s.c < t.c)
}

/// The greater of the two.
fn greater(s: Triple, t: Triple) -> Triple
    ensures { result ≡ spec.greater s t }
{
    if is_less(s, t) { t } else { s }
}

/// What a test counts.
#[cycle(counts)]
#[tactic(auto, using(crate::proofs::Equations::size_of_any, crate::proofs::Equations::size_of_has, crate::proofs::Equations::at_element, crate::proofs::Equations::at_id, crate::proofs::Equations::at_class, crate::proofs::Equations::at_attr, crate::proofs::Equations::at_nth, crate::proofs::Equations::at_pseudo, crate::proofs::Equations::at_contains, crate::proofs::Equations::at_lang, crate::proofs::Equations::at_any, crate::proofs::Equations::at_has))]
fn test_counts(test: &Test) -> Triple
    requires { test_size test.now + 1 < 2 ^ 32 }
    ensures value { result ≡ test_triple test.now }
    ensures bound { IsAtMost (test_size test.now + 1) result }
{
    match test {
        Test::Element(name) => named(name),
        Test::Id(_) => triple_with(1, 0, 0),
        Test::Class(_) => triple_with(0, 1, 0),
        Test::Attr(..) => triple_with(0, 1, 0),
        Test::Nth(..) => triple_with(0, 1, 0),
        Test::Pseudo(_) => triple_with(0, 1, 0),
        Test::Contains(_) => triple_with(0, 1, 0),
        Test::Lang(_) => triple_with(0, 1, 0),
        Test::Any(weight, list) => weighed(*weight, list.as_slice()),
        Test::Has(list) => greatest_relative(list.as_slice()),
    }
}

/// What a choice counts, by its weight.
#[cycle(counts)]
fn weighed(weight: Weight, compounds: &[Compound]) -> Triple
    requires { sum_by compound_size compounds.now + 1 < 2 ^ 32 }
    ensures value { result ≡ spec.weighed weight (map compound_triple compounds.now) }
    ensures bound { IsAtMost (sum_by compound_size compounds.now + 1) result }
{
    match weight {
        Weight::Most => greatest_compound(compounds),
        Weight::Zero => triple_with(0, 0, 0),
    }
}

/// The counts of simples, from those of the element before them.
#[cycle(counts)]
#[tactic(auto, using(crate::proofs::Equations::size_of_simple, crate::proofs::Equations::at_simple))]
fn simples_counts(first: Triple, simples: &[Simple]) -> Triple
    requires size { sum_by simple_size simples.now + 1 < 2 ^ 32 }
    requires first { IsAtMost 1 first }
    ensures value { result ≡ sum_from first (map simple_triple simples.now) }
    ensures bound { IsAtMost (sum_by simple_size simples.now + 1) result }
{
    let mut sum = first;
    for simple in simples {
        sum = plus(sum, test_counts(&simple.test));
    }
    sum
}

/// The name and the simples together.
#[cycle(counts)]
#[tactic(auto, using(crate::proofs::Equations::size_of_compound, crate::proofs::Equations::at_compound))]
fn compound_counts(compound: &Compound) -> Triple
    requires { compound_size compound.now + 1 < 2 ^ 32 }
    ensures value { result ≡ compound_triple compound.now }
    ensures bound { IsAtMost (compound_size compound.now + 1) result }
{
    simples_counts(named(&compound.element), compound.simples.as_slice())
}

/// The name and the simples together.
#[cycle(counts)]
#[tactic(auto, using(crate::proofs::Equations::size_of_part, crate::proofs::Equations::at_part))]
fn part_counts(part: &Part) -> Triple
    requires { part_size part.now < 2 ^ 32 }
    ensures value { result ≡ part_triple part.now }
    ensures bound { IsAtMost (part_size part.now) result }
{
    simples_counts(named(&part.element), part.simples.as_slice())
}

/// The counts of parts, from those of the tail.
#[cycle(counts)]
fn parts_counts(first: Triple, parts: &[Part]) -> Triple
    requires size { sum_by part_size parts.now + 1 < 2 ^ 32 }
    requires first { IsAtMost 1 first }
    ensures value { result ≡ sum_from first (map part_triple parts.now) }
    ensures bound { IsAtMost (sum_by part_size parts.now + 1) result }
{
    let mut sum = first;
    for part in parts {
        sum = plus(sum, part_counts(part));
    }
    sum
}

/// The parts together.
#[cycle(counts)]
#[tactic(auto, using(crate::proofs::Equations::size_of_relative, crate::proofs::Equations::at_relative))]
fn relative_counts(relative: &Relative) -> Triple
    requires { relative_size relative.now + 1 < 2 ^ 32 }
    ensures value { result ≡ relative_triple relative.now }
    ensures bound { IsAtMost (relative_size relative.now + 1) result }
{
    parts_counts(triple_with(0, 0, 0), relative.parts.as_slice())
}

/// The greatest of the compounds.
#[cycle(counts)]
fn greatest_compound(compounds: &[Compound]) -> Triple
    requires { sum_by compound_size compounds.now + 1 < 2 ^ 32 }
    ensures value { result ≡ greatest (map compound_triple compounds.now) }
    ensures bound { IsAtMost (sum_by compound_size compounds.now + 1) result }
{
    let mut best = triple_with(0, 0, 0);
    for compound in compounds {
        best = greater(best, compound_counts(compound));
    }
    best
}

/// The greatest of the relatives.
#[cycle(counts)]
fn greatest_relative(relatives: &[Relative]) -> Triple
    requires { sum_by relative_size relatives.now + 1 < 2 ^ 32 }
    ensures value { result ≡ greatest (map relative_triple relatives.now) }
    ensures bound { IsAtMost (sum_by relative_size relatives.now + 1) result }
{
    let mut best = triple_with(0, 0, 0);
    for relative in relatives {
        best = greater(best, relative_counts(relative));
    }
    best
}

/// How many ids, how many classes, attributes and pseudo-classes, and how many types the selector
/// has, a tail that is a pseudo-element counted as a type. A choice counts as the greatest of what
/// it offers, or as nothing. Selectors Level 3, section 9, and Selectors Level 4, section 17. It
/// takes no memory.
pub fn specificity(s: &Selector) -> Triple
    requires { size_of s.now + 1 < 2 ^ 32 }
    ensures { result ≡ triple_of s.now }
{
    parts_counts(tail_counts(&s.tail), s.parts.as_slice())
}
