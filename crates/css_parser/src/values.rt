//! What forms, inners and members are as simple selectors, compounds and relative selectors.
ghost use Rattle.std.specs.Prelude.{◌≡◌, ◌++◌, map, flat_map, IfOk, OnOk};
ghost use Rattle.css_parser.specs.Values as spec;

use crate::pieces::{Form, Inner, Member, Piece, Plain, Word};
use css_selectors::{Compound, Part, Relative, Simple, Test, Weight};
use std::alloc::Global;
use text_base::{NoMemory, Seq, Txt};

pub(crate) fn name_copy(alloc: Global, name: &Option<Txt>) -> Result<Option<Txt>, NoMemory>
    ensures { IfOk result (λ copy. copy ≡ name.now) }
{
    match name {
        Some(name) => {
            let copy = Txt::of(alloc, name.as_str())?;
            Ok(Some(copy))
        }
        None => Ok(None),
    }
}

fn test_of(alloc: Global, plain: &Plain) -> Result<Test, NoMemory>
    ensures { IfOk result (λ test. test ≡ spec.test_of plain.now) }
{
    let test = match plain {
        Plain::Id(name) => Test::Id(Txt::of(alloc, name.as_str())?),
        Plain::Class(name) => Test::Class(Txt::of(alloc, name.as_str())?),
        Plain::Attr(name, op, value) => {
            let name = Txt::of(alloc, name.as_str())?;
            let value = Txt::of(alloc, value.as_str())?;
            Test::Attr(name, *op, value)
        }
        Plain::Nth(position, a, b) => Test::Nth(*position, *a, *b),
        Plain::Pseudo(pseudo) => Test::Pseudo(*pseudo),
        Plain::Contains(text) => Test::Contains(Txt::of(alloc, text.as_str())?),
        Plain::Lang(language) => Test::Lang(Txt::of(alloc, language.as_str())?),
    };
    Ok(test)
}

/// The test of a piece, if it is a simple selector.
fn piece_test(alloc: Global, piece: &Piece) -> Result<Option<Test>, NoMemory>
    ensures { IfOk result (λ test. test ≡ (spec.piece_value piece.now).alone) }
{
    match piece {
        Piece::Plain(plain) => {
            let test = test_of(alloc, plain)?;
            Ok(Some(test))
        }
        _ => Ok(None),
    }
}

/// The test of a form, if it is a simple selector that is no choice.
#[tactic(auto, using(crate::proofs::ValueLemmas::one_value, crate::proofs::ValueLemmas::choice_alone, crate::proofs::ValueLemmas::deep_alone))]
fn form_alone(alloc: Global, form: &Form) -> Result<Option<Test>, NoMemory>
    ensures { IfOk result (λ test. test ≡ (spec.form_value form.now).alone) }
{
    match form {
        Form::One(piece) => piece_test(alloc, piece),
        Form::Choice(..) => Ok(None),
        Form::Deep => Ok(None),
    }
}

/// The test of an inner, if it is an element alone, or one simple selector alone that is no choice.
#[tactic(auto, using(crate::proofs::ValueLemmas::named_alone, crate::proofs::ValueLemmas::named_more, crate::proofs::ValueLemmas::first_alone, crate::proofs::ValueLemmas::none_alone))]
fn inner_alone(alloc: Global, inner: &Inner) -> Result<Option<Test>, NoMemory>
    ensures { IfOk result (λ test. test ≡ (spec.inner_value inner.now).alone) }
{
    let forms = inner.forms.as_slice();
    if inner.named {
        if forms.len() == 0 {
            let name = name_copy(alloc, &inner.element)?;
            return Ok(Some(Test::Element(name)));
        }
        return Ok(None);
    }
    if forms.len() == 1 {
        form_alone(alloc, &forms[0])
    } else {
        Ok(None)
    }
}

/// The test of a member, if that is one inner with such a test.
#[tactic(auto, using(crate::proofs::ValueLemmas::one_inner, crate::proofs::ValueLemmas::more_inners))]
fn alone_of(alloc: Global, inners: &[Inner]) -> Result<Option<Test>, NoMemory>
    ensures { IfOk result (λ test. test ≡ spec.alone_of (map spec.inner_value inners.now)) }
{
    if inners.len() == 1 {
        inner_alone(alloc, &inners[0])
    } else {
        Ok(None)
    }
}

/// The test of what stands in a choice, if that is one member with such a test.
#[tactic(auto, using(crate::proofs::ValueLemmas::one_member, crate::proofs::ValueLemmas::more_members))]
fn only_of(alloc: Global, members: &[Member]) -> Result<Option<Test>, NoMemory>
    ensures { IfOk result (λ test. test ≡ spec.only_of (map spec.member_value members.now)) }
{
    if members.len() == 1 {
        alone_of(alloc, members[0].parts.as_slice())
    } else {
        Ok(None)
    }
}

/// Adds the simple selector that a piece is, if it is one.
#[tactic(auto, using(crate::proofs::CopyLemmas::nothing_more))]
fn push_piece(alloc: Global, piece: &Piece, simples: &mut Seq<Simple>) -> Result<(), NoMemory>
    ensures { OnOk result (simples.new ≡ simples.old ++ (spec.piece_value piece.now).simples) }
{
    match piece {
        Piece::Plain(plain) => {
            let test = test_of(alloc, plain)?;
            simples.push(Simple {
                negated: false,
                test,
            })?;
            Ok(())
        }
        _ => Ok(()),
    }
}

/// Adds the simple selectors of a form.
#[cycle(values)]
#[tactic(auto, using(crate::proofs::CopyLemmas::nothing_more, crate::proofs::ValueLemmas::one_value, crate::proofs::ValueLemmas::choice_simples, crate::proofs::ValueLemmas::deep_simples))]
fn push_simples(alloc: Global, form: &Form, simples: &mut Seq<Simple>) -> Result<(), NoMemory>
    ensures { OnOk result (simples.new ≡ simples.old ++ spec.form_simples form.now) }
{
    match form {
        Form::One(piece) => push_piece(alloc, piece, simples),
        Form::Choice(word, members) => {
            let simple = choice_simple(alloc, *word, members.as_slice())?;
            simples.push(simple)?;
            Ok(())
        }
        Form::Deep => Ok(()),
    }
}

#[cycle(values)]
#[tactic(auto, using(crate::proofs::CopyLemmas::simples_more, crate::proofs::CopyLemmas::all_taken))]
pub(crate) fn simples_of(alloc: Global, forms: &[Form]) -> Result<Seq<Simple>, NoMemory>
    ensures { IfOk result (λ simples. simples ≡ flat_map spec.form_simples forms.now) }
{
    let mut simples = Seq::new(alloc);
    let mut at = 0;
    while at < forms.len() {
        push_simples(alloc, &forms[at], &mut simples)?;
        at += 1;
    }
    Ok(simples)
}

/// The compound that an inner is.
#[cycle(values)]
#[tactic(auto, using(crate::proofs::ValueLemmas::compound_is))]
fn compound_of(alloc: Global, inner: &Inner) -> Result<Compound, NoMemory>
    ensures { IfOk result (λ compound. compound ≡ spec.compound_of inner.now) }
{
    let element = name_copy(alloc, &inner.element)?;
    let simples = simples_of(alloc, inner.forms.as_slice())?;
    Ok(Compound { element, simples })
}

/// Adds the compounds that stand in a member.
#[cycle(values)]
#[tactic(auto, using(crate::proofs::CopyLemmas::compounds_begun, crate::proofs::CopyLemmas::compounds_more, crate::proofs::CopyLemmas::compounds_done))]
fn push_compounds(
    alloc: Global,
    member: &Member,
    compounds: &mut Seq<Compound>,
) -> Result<(), NoMemory>
    ensures { OnOk result (compounds.new ≡ compounds.old ++ spec.compounds_in member.now) }
{
    let inners = member.parts.as_slice();
    let mut at = 0;
    while at < inners.len() {
        let compound = compound_of(alloc, &inners[at])?;
        compounds.push(compound)?;
        at += 1;
    }
    Ok(())
}

#[cycle(values)]
#[tactic(auto, using(crate::proofs::CopyLemmas::members_more, crate::proofs::CopyLemmas::all_taken))]
fn compounds_of(alloc: Global, members: &[Member]) -> Result<Seq<Compound>, NoMemory>
    ensures { IfOk result (λ list. list ≡ flat_map spec.compounds_in members.now) }
{
    let mut compounds = Seq::new(alloc);
    let mut at = 0;
    while at < members.len() {
        push_compounds(alloc, &members[at], &mut compounds)?;
        at += 1;
    }
    Ok(compounds)
}

/// The part that an inner is.
#[cycle(values)]
#[tactic(auto, using(crate::proofs::ValueLemmas::part_is))]
fn part_of(alloc: Global, inner: &Inner) -> Result<Part, NoMemory>
    ensures { IfOk result (λ part. part ≡ spec.part_of inner.now) }
{
    let element = name_copy(alloc, &inner.element)?;
    let simples = simples_of(alloc, inner.forms.as_slice())?;
    Ok(Part {
        link: inner.link,
        element,
        simples,
    })
}

#[cycle(values)]
#[tactic(auto, using(crate::proofs::CopyLemmas::inner_parts_more, crate::proofs::CopyLemmas::all_taken))]
fn parts_of(alloc: Global, inners: &[Inner]) -> Result<Seq<Part>, NoMemory>
    ensures { IfOk result (λ parts. parts ≡ map spec.part_of inners.now) }
{
    let mut parts = Seq::new(alloc);
    let mut at = 0;
    while at < inners.len() {
        let part = part_of(alloc, &inners[at])?;
        parts.push(part)?;
        at += 1;
    }
    Ok(parts)
}

/// The relative selector that a member is.
#[cycle(values)]
#[tactic(auto, using(crate::proofs::ValueLemmas::relative_is))]
fn relative_of(alloc: Global, member: &Member) -> Result<Relative, NoMemory>
    ensures { IfOk result (λ relative. relative ≡ spec.relative_of member.now) }
{
    let parts = parts_of(alloc, member.parts.as_slice())?;
    Ok(Relative { parts })
}

#[cycle(values)]
#[tactic(auto, using(crate::proofs::CopyLemmas::relatives_more, crate::proofs::CopyLemmas::all_taken))]
fn relatives_of(alloc: Global, members: &[Member]) -> Result<Seq<Relative>, NoMemory>
    ensures { IfOk result (λ list. list ≡ map spec.relative_of members.now) }
{
    let mut relatives = Seq::new(alloc);
    let mut at = 0;
    while at < members.len() {
        let relative = relative_of(alloc, &members[at])?;
        relatives.push(relative)?;
        at += 1;
    }
    Ok(relatives)
}

/// The simple selector that a choice is.
#[cycle(values)]
#[tactic(auto, using(crate::proofs::ValueLemmas::is_value, crate::proofs::ValueLemmas::where_value, crate::proofs::ValueLemmas::has_value))]
fn choice_simple(alloc: Global, word: Word, members: &[Member]) -> Result<Simple, NoMemory>
    ensures { IfOk result (λ simple. simple ≡ spec.choice_value word (map spec.member_value members.now)) }
{
    match word {
        Word::Is => {
            let list = compounds_of(alloc, members)?;
            Ok(Simple {
                negated: false,
                test: Test::Any(Weight::Most, list),
            })
        }
        Word::Where => {
            let list = compounds_of(alloc, members)?;
            Ok(Simple {
                negated: false,
                test: Test::Any(Weight::Zero, list),
            })
        }
        Word::Not => negation(alloc, members),
        Word::Has => {
            let list = relatives_of(alloc, members)?;
            Ok(Simple {
                negated: false,
                test: Test::Has(list),
            })
        }
    }
}

/// The simple selector that a negation is.
#[cycle(values)]
#[tactic(auto, using(crate::proofs::ValueLemmas::negates_alone, crate::proofs::ValueLemmas::negates_any))]
fn negation(alloc: Global, members: &[Member]) -> Result<Simple, NoMemory>
    ensures { IfOk result (λ simple. simple ≡ spec.negation (spec.only_of (map spec.member_value members.now)) (map spec.member_value members.now)) }
{
    match only_of(alloc, members)? {
        Some(test) => Ok(Simple {
            negated: true,
            test,
        }),
        None => {
            let list = compounds_of(alloc, members)?;
            Ok(Simple {
                negated: true,
                test: Test::Any(Weight::Most, list),
            })
        }
    }
}
