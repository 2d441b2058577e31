//! The list of selectors that a list without a refusal is.
ghost use Rattle.std.specs.Prelude.{◌≡◌, map, IfOk};
ghost use Rattle.css_parser.specs.Lists as spec;

use crate::pieces::{Compound, Form, Piece};
use crate::values::{name_copy, simples_of};
use css_selectors::{Part, Selector, SelectorList, Tail};
use std::alloc::Global;
use text_base::{NoMemory, Seq, Txt};

fn tail_copy(alloc: Global, tail: &Tail) -> Result<Tail, NoMemory>
    ensures { IfOk result (λ copy. copy ≡ tail.now) }
{
    match tail {
        Tail::Element => Ok(Tail::Element),
        Tail::Text => Ok(Tail::Text),
        Tail::Attr(name) => {
            let copy = Txt::of(alloc, name.as_str())?;
            Ok(Tail::Attr(copy))
        }
    }
}

fn part_of(alloc: Global, compound: &Compound) -> Result<Part, NoMemory>
    ensures { IfOk result (λ part. part ≡ spec.part_of compound.now) }
{
    let element = name_copy(alloc, &compound.element)?;
    let simples = simples_of(alloc, compound.forms.as_slice())?;
    Ok(Part {
        link: compound.link,
        element,
        simples,
    })
}

#[tactic(auto, using(crate::proofs::CopyLemmas::parts_more, crate::proofs::CopyLemmas::all_taken))]
fn parts_of(alloc: Global, compounds: &[Compound]) -> Result<Seq<Part>, NoMemory>
    ensures { IfOk result (λ parts. parts ≡ map spec.part_of compounds.now) }
{
    let mut parts = Seq::new(alloc);
    let mut at = 0;
    while at < compounds.len() {
        let part = part_of(alloc, &compounds[at])?;
        parts.push(part)?;
        at += 1;
    }
    Ok(parts)
}

/// The tail after a piece, where `old` was the tail before it.
fn piece_tail(alloc: Global, old: Tail, piece: &Piece) -> Result<Tail, NoMemory>
    ensures { IfOk result (λ tail. tail ≡ spec.piece_tail old piece.now) }
{
    match piece {
        Piece::Tail(tail) => tail_copy(alloc, tail),
        _ => Ok(old),
    }
}

#[tactic(auto, using(crate::proofs::CopyLemmas::one_tail, crate::proofs::CopyLemmas::choice_tail, crate::proofs::CopyLemmas::deep_tail))]
fn tail_by(alloc: Global, old: Tail, form: &Form) -> Result<Tail, NoMemory>
    ensures { IfOk result (λ tail. tail ≡ spec.tail_by old form.now) }
{
    match form {
        Form::One(piece) => piece_tail(alloc, old, piece),
        Form::Choice(..) => Ok(old),
        Form::Deep => Ok(old),
    }
}

#[tactic(auto, using(crate::proofs::CopyLemmas::tail_more, crate::proofs::CopyLemmas::all_taken))]
fn tail_after(alloc: Global, old: Tail, compound: &Compound) -> Result<Tail, NoMemory>
    ensures { IfOk result (λ tail. tail ≡ spec.tail_after old compound.now) }
{
    let forms = compound.forms.as_slice();
    let mut tail = old;
    let mut at = 0;
    while at < forms.len() {
        tail = tail_by(alloc, tail, &forms[at])?;
        at += 1;
    }
    Ok(tail)
}

#[tactic(auto, using(crate::proofs::CopyLemmas::tails_more, crate::proofs::CopyLemmas::all_taken))]
fn tail_of(alloc: Global, compounds: &[Compound]) -> Result<Tail, NoMemory>
    ensures { IfOk result (λ tail. tail ≡ spec.tail_of compounds.now) }
{
    let mut tail = Tail::Element;
    let mut at = 0;
    while at < compounds.len() {
        tail = tail_after(alloc, tail, &compounds[at])?;
        at += 1;
    }
    Ok(tail)
}

fn selector_of(alloc: Global, compounds: &[Compound]) -> Result<Selector, NoMemory>
    ensures { IfOk result (λ selector. selector ≡ spec.selector_of compounds.now) }
{
    let parts = parts_of(alloc, compounds)?;
    let tail = tail_of(alloc, compounds)?;
    Ok(Selector { parts, tail })
}

/// The list of selectors that a list is.
#[tactic(auto, using(crate::proofs::CopyLemmas::selectors_more, crate::proofs::CopyLemmas::all_taken))]
pub(crate) fn list_of(alloc: Global, found: &[Seq<Compound>]) -> Result<SelectorList, NoMemory>
    ensures { IfOk result (λ list. list ≡ spec.list_of found.now) }
{
    let mut items = Seq::new(alloc);
    let mut at = 0;
    while at < found.len() {
        let selector = selector_of(alloc, found[at].as_slice())?;
        items.push(selector)?;
        at += 1;
    }
    Ok(SelectorList { items })
}
