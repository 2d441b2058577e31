ghost use Rattle.std.specs.Prelude.{◌≡◌, ◌++◌, ◌<◌, OnOk, IfOk, string_bytes, ℤ, pos, ◌-ℤ◌, ◌<ℤ◌, flat_map, codes};
ghost use Rattle.std.specs.Fmt.{decimal};
ghost use Rattle.css_printed.specs.Conditions.{remainder, never, exactly, at_least, at_most, every, every_from, from_position, conditions};
ghost use Rattle.css_printed.specs.Simples.{condition_text, siblings_text, nth_text};

use crate::names::push_element;
use crate::pushing::{push, push_all};
use css_selectors::{Dialect, Nth};
use std::alloc::Global;
use text_base::{NoMemory, Txt};

/// Appends the decimal digits.
pub fn push_decimal(alloc: Global, out: &mut String, n: u64) -> Result<(), NoMemory>
    ensures { OnOk result (string_bytes out.new ≡ string_bytes out.old ++ decimal n) }
{
    match n.to_string(alloc) {
        Ok(digits) => push(out, digits.as_str()),
        Err(_) => Err(NoMemory),
    }
}

/// `[count(siblings) = n]`, with the words between.
fn push_count(
    alloc: Global,
    out: &mut String,
    siblings: &str,
    words: &str,
    n: u64,
) -> Result<(), NoMemory>
    ensures { OnOk result (string_bytes out.new ≡ string_bytes out.old ++ (codes "[count(" ++ (siblings.now ++ (words.now ++ (decimal n ++ codes "]"))))) }
{
    push_all(out, &["[count(", siblings, words][..])?;
    push_decimal(alloc, out, n)?;
    push(out, "]")
}

/// `[0]`
fn push_never(out: &mut String, siblings: &str) -> Result<(), NoMemory>
    ensures { OnOk result (string_bytes out.new ≡ string_bytes out.old ++ condition_text siblings.now never) }
{
    push(out, "[0]")
}

/// `[count(siblings) = n]`
fn push_exactly(alloc: Global, out: &mut String, siblings: &str, n: u64) -> Result<(), NoMemory>
    ensures { OnOk result (string_bytes out.new ≡ string_bytes out.old ++ condition_text siblings.now (exactly n)) }
{
    push_count(alloc, out, siblings, ") = ", n)
}

/// `[count(siblings) >= n]`
fn push_at_least(alloc: Global, out: &mut String, siblings: &str, n: u64) -> Result<(), NoMemory>
    ensures { OnOk result (string_bytes out.new ≡ string_bytes out.old ++ condition_text siblings.now (at_least n)) }
{
    push_count(alloc, out, siblings, ") >= ", n)
}

/// `[count(siblings) <= n]`
fn push_at_most(alloc: Global, out: &mut String, siblings: &str, n: u64) -> Result<(), NoMemory>
    ensures { OnOk result (string_bytes out.new ≡ string_bytes out.old ++ condition_text siblings.now (at_most n)) }
{
    push_count(alloc, out, siblings, ") <= ", n)
}

/// `[count(siblings) mod n = r]`
fn push_every(
    alloc: Global,
    out: &mut String,
    siblings: &str,
    n: u64,
    r: u64,
) -> Result<(), NoMemory>
    ensures { OnOk result (string_bytes out.new ≡ string_bytes out.old ++ condition_text siblings.now (every n r)) }
{
    push_all(out, &["[count(", siblings, ") mod "][..])?;
    push_decimal(alloc, out, n)?;
    push(out, " = ")?;
    push_decimal(alloc, out, r)?;
    push(out, "]")
}

/// The remainder, from 0, of the number before b by n.
fn remainder_before(b: i64, n: u64) -> u64
    requires { 0 < n }
    ensures { result ≡ remainder (b -ℤ pos 1) n }
{
    (b as i128 - 1).rem_euclid(n as i128).unsigned_abs() as u64
}

/// Appends the condition that every n-th is, from the position b, where n is more than 1.
#[tactic(auto, using(css_printed::proofs::ConditionCases::every_second, css_printed::proofs::ConditionCases::every_one))]
fn push_every_from(
    alloc: Global,
    out: &mut String,
    siblings: &str,
    n: u64,
    b: i64,
) -> Result<(), NoMemory>
    requires { 0 < n }
    ensures { OnOk result (string_bytes out.new ≡ string_bytes out.old ++ flat_map (condition_text siblings.now) (every_from n b)) }
{
    if n > 1 {
        push_every(alloc, out, siblings, n, remainder_before(b, n))
    } else {
        Ok(())
    }
}

/// Appends the condition of the positions from b on, where b is more than 1.
#[tactic(auto, using(css_printed::proofs::ConditionCases::from_second, css_printed::proofs::ConditionCases::from_first))]
fn push_from(alloc: Global, out: &mut String, siblings: &str, b: i64) -> Result<(), NoMemory>
    ensures { OnOk result (string_bytes out.new ≡ string_bytes out.old ++ flat_map (condition_text siblings.now) (from_position b)) }
{
    if b > 1 {
        push_at_least(alloc, out, siblings, (b - 1).unsigned_abs())
    } else {
        Ok(())
    }
}

/// Appends the condition of one position.
#[tactic(auto, using(css_printed::proofs::ConditionCases::one_position, css_printed::proofs::ConditionCases::no_position))]
fn push_one(alloc: Global, out: &mut String, siblings: &str, b: i64) -> Result<(), NoMemory>
    ensures { OnOk result (string_bytes out.new ≡ string_bytes out.old ++ flat_map (condition_text siblings.now) (conditions (pos 0) b)) }
{
    if b > 0 {
        push_exactly(alloc, out, siblings, (b - 1).unsigned_abs())
    } else {
        push_never(out, siblings)
    }
}

/// Appends the conditions of the positions that grow.
fn push_growing(
    alloc: Global,
    out: &mut String,
    siblings: &str,
    a: i64,
    b: i64,
) -> Result<(), NoMemory>
    requires { pos 0 <ℤ a }
    ensures { OnOk result (string_bytes out.new ≡ string_bytes out.old ++ flat_map (condition_text siblings.now) (conditions a b)) }
{
    push_from(alloc, out, siblings, b)?;
    push_every_from(alloc, out, siblings, a.unsigned_abs(), b)
}

/// Appends the conditions of the positions that fall.
fn push_falling(
    alloc: Global,
    out: &mut String,
    siblings: &str,
    a: i64,
    b: i64,
) -> Result<(), NoMemory>
    requires { a <ℤ pos 0 }
    ensures { OnOk result (string_bytes out.new ≡ string_bytes out.old ++ flat_map (condition_text siblings.now) (conditions a b)) }
{
    if b > 0 {
        push_at_most(alloc, out, siblings, (b - 1).unsigned_abs())?;
        push_every_from(alloc, out, siblings, a.unsigned_abs(), b)
    } else {
        push_never(out, siblings)
    }
}

fn push_positions(
    alloc: Global,
    out: &mut String,
    siblings: &str,
    a: i64,
    b: i64,
) -> Result<(), NoMemory>
    ensures { OnOk result (string_bytes out.new ≡ string_bytes out.old ++ flat_map (condition_text siblings.now) (conditions a b)) }
{
    if a == 0 {
        push_one(alloc, out, siblings, b)
    } else if a > 0 {
        push_growing(alloc, out, siblings, a, b)
    } else {
        push_falling(alloc, out, siblings, a, b)
    }
}

fn push_siblings(
    alloc: Global,
    out: &mut String,
    dialect: Dialect,
    element: &Option<Txt>,
    kind: Nth,
) -> Result<(), NoMemory>
    ensures { OnOk result (string_bytes out.new ≡ string_bytes out.old ++ siblings_text dialect element.now kind) }
{
    match kind {
        Nth::Child => push(out, "preceding-sibling::*"),
        Nth::LastChild => push(out, "following-sibling::*"),
        Nth::OfType => {
            push(out, "preceding-sibling::")?;
            push_element(alloc, out, dialect, element)
        }
        Nth::LastOfType => {
            push(out, "following-sibling::")?;
            push_element(alloc, out, dialect, element)
        }
    }
}

/// Appends the predicates of a position `an+b`.
pub fn push_nth(
    alloc: Global,
    out: &mut String,
    dialect: Dialect,
    element: &Option<Txt>,
    kind: Nth,
    a: i64,
    b: i64,
) -> Result<(), NoMemory>
    ensures { OnOk result (string_bytes out.new ≡ string_bytes out.old ++ nth_text dialect element.now kind a b) }
{
    let mut siblings = String::new(alloc);
    push_siblings(alloc, &mut siblings, dialect, element, kind)?;
    push_positions(alloc, out, siblings.as_str(), a, b)
}

/// Appends the predicates of a position, as a test has its numbers.
pub fn push_position(
    alloc: Global,
    out: &mut String,
    dialect: Dialect,
    element: &Option<Txt>,
    kind: &Nth,
    a: &i64,
    b: &i64,
) -> Result<(), NoMemory>
    ensures { OnOk result (string_bytes out.new ≡ string_bytes out.old ++ nth_text dialect element.now kind.now a.now b.now) }
{
    push_nth(alloc, out, dialect, element, *kind, *a, *b)
}
