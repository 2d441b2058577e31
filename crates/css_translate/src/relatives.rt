ghost use Rattle.std.specs.Prelude.{◌≡◌, ◌++◌, OnOk, string_bytes, flat_map, map, codes};
ghost use Rattle.std.specs.List.{AllByRecursion};
ghost use Rattle.css_printed.specs.TestTexts.{choice, path_text, part_steps, relative_text, simple_text};
ghost use Rattle.css_translate.specs.inner.Pieces.{link_text, or_text, step_at};
ghost use Rattle.css_translate.specs.inner.Read.{IsReadSimple, IsReadPart, IsReadRelative};

use crate::choices::{push_or, push_simples};
use crate::pushing::push;
use crate::steps::push_link;
use crate::texts::read_element;
use css_selectors::{Dialect, Link, Part, Relative, Simple};
use std::alloc::Global;
use text_base::{NoMemory, Txt};

/// A part's step and the predicates of its simple selectors.
#[cycle(printing)]
fn push_step_and(
    alloc: Global,
    out: &mut String,
    dialect: Dialect,
    is_first: bool,
    link: Link,
    element: &Option<Txt>,
    simples: &[Simple],
) -> Result<(), NoMemory>
    ensures text { OnOk result (string_bytes out.new ≡ string_bytes out.old ++ (link_text dialect is_first link element.now ++ flat_map (λ x. simple_text dialect x element.now) simples.now)) }
    ensures texts { OnOk result (AllByRecursion IsReadSimple simples.now) }
{
    push_link(alloc, out, dialect, is_first, link, element)?;
    push_simples(alloc, out, dialect, element, simples)
}

/// Appends a part, which is the first of a relative or stands behind another.
#[cycle(printing)]
#[tactic(auto, using(crate::proofs::Said::at_part, crate::proofs::TextLemmas::read_part))]
pub fn push_part(
    alloc: Global,
    out: &mut String,
    dialect: Dialect,
    is_first: bool,
    part: &Part,
) -> Result<(), NoMemory>
    ensures text { OnOk result (string_bytes out.new ≡ string_bytes out.old ++ step_at is_first (part_steps dialect part.now)) }
    ensures texts { OnOk result (IsReadPart part.now) }
{
    read_element(&part.element);
    push_step_and(
        alloc,
        out,
        dialect,
        is_first,
        part.link,
        &part.element,
        part.simples.as_slice(),
    )
}

/// The parts of a relative.
#[cycle(printing)]
fn push_path(
    alloc: Global,
    out: &mut String,
    dialect: Dialect,
    parts: &[Part],
) -> Result<(), NoMemory>
    ensures text { OnOk result (string_bytes out.new ≡ string_bytes out.old ++ path_text (map (part_steps dialect) parts.now)) }
    ensures texts { OnOk result (AllByRecursion IsReadPart parts.now) }
{
    let mut is_first = true;
    for part in parts {
        push_part(alloc, out, dialect, is_first, part)?;
        is_first = false;
    }
    Ok(())
}

#[cycle(printing)]
#[tactic(auto, using(css_printed::proofs::PrintedAt::text_at_relative, crate::proofs::TextLemmas::read_relative))]
fn push_relative(
    alloc: Global,
    out: &mut String,
    dialect: Dialect,
    relative: &Relative,
) -> Result<(), NoMemory>
    ensures text { OnOk result (string_bytes out.new ≡ string_bytes out.old ++ relative_text dialect relative.now) }
    ensures texts { OnOk result (IsReadRelative relative.now) }
{
    push_path(alloc, out, dialect, relative.parts.as_slice())
}

/// A relative with ` or ` before it unless it is the first.
#[cycle(printing)]
fn push_alternative(
    alloc: Global,
    out: &mut String,
    dialect: Dialect,
    is_first: bool,
    relative: &Relative,
) -> Result<(), NoMemory>
    ensures text { OnOk result (string_bytes out.new ≡ string_bytes out.old ++ (or_text is_first ++ relative_text dialect relative.now)) }
    ensures texts { OnOk result (IsReadRelative relative.now) }
{
    push_or(out, is_first)?;
    push_relative(alloc, out, dialect, relative)
}

/// Appends relatives with ` or ` between.
#[cycle(printing)]
fn push_relatives(
    alloc: Global,
    out: &mut String,
    dialect: Dialect,
    relatives: &[Relative],
) -> Result<(), NoMemory>
    ensures text { OnOk result (string_bytes out.new ≡ string_bytes out.old ++ choice (map (relative_text dialect) relatives.now)) }
    ensures texts { OnOk result (AllByRecursion IsReadRelative relatives.now) }
{
    let mut is_first = true;
    for relative in relatives {
        push_alternative(alloc, out, dialect, is_first, relative)?;
        is_first = false;
    }
    Ok(())
}

/// Relatives in brackets.
#[cycle(printing)]
#[tactic(auto, using(crate::proofs::TextLemmas::already))]
pub fn push_has(
    alloc: Global,
    out: &mut String,
    dialect: Dialect,
    relatives: &[Relative],
) -> Result<(), NoMemory>
    ensures text { OnOk result (string_bytes out.new ≡ string_bytes out.old ++ (codes "[" ++ (choice (map (relative_text dialect) relatives.now) ++ codes "]"))) }
    ensures texts { OnOk result (AllByRecursion IsReadRelative relatives.now) }
{
    push(out, "[")?;
    push_relatives(alloc, out, dialect, relatives)?;
    push(out, "]")
}
