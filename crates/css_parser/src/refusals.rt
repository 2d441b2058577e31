//! What is refused of a list that the grammar reads: the first from left to right.
ghost use Rattle.std.specs.Prelude.{◌≡◌, ◌&&◌, is_none};
ghost use Rattle.css_parser.specs.Refusals as spec;

use crate::choices::is_has;
use crate::pieces::{Compound, Form, Inner, Member, Piece, Plain};
use css_selectors::{Nth, Pseudo};
use text_base::{SelectorFault, Seq, Txt};

/// Whether the position is counted among the elements of one name.
fn is_of_type(position: Nth) -> bool
    ensures { result ≡ spec.is_of_type position }
{
    match position {
        Nth::Child | Nth::LastChild => false,
        Nth::OfType | Nth::LastOfType => true,
    }
}

fn is_only_of_type(pseudo: Pseudo) -> bool
    ensures { result ≡ spec.is_only_of_type pseudo }
{
    match pseudo {
        Pseudo::OnlyOfType => true,
        _ => false,
    }
}

/// Whether it needs the name of an element.
fn needs_element(plain: &Plain) -> bool
    ensures { result ≡ spec.needs_element plain.now }
{
    match plain {
        Plain::Nth(position, _, _) => is_of_type(*position),
        Plain::Pseudo(pseudo) => is_only_of_type(*pseudo),
        _ => false,
    }
}

fn if_refused(refused: bool, fault: SelectorFault) -> Option<SelectorFault>
    ensures { result ≡ spec.if_refused refused fault }
{
    if refused { Some(fault) } else { None }
}

/// The refusal of a position with a number beyond a million.
fn large_refusal(nameless: bool, position: Nth) -> SelectorFault
    ensures { result ≡ spec.large_refusal nameless position }
{
    if is_of_type(position) && nameless {
        SelectorFault::OfType
    } else {
        SelectorFault::Number
    }
}

/// The refusal of a piece, where no compound around it has an element's name or one has, and as the
/// last of its selector or not.
fn piece_refusal(nameless: bool, last: bool, piece: &Piece) -> Option<SelectorFault>
    ensures { result ≡ spec.piece_refusal nameless last piece.now }
{
    match piece {
        Piece::Plain(plain) => if_refused(needs_element(plain) && nameless, SelectorFault::OfType),
        Piece::Prefixed => Some(SelectorFault::Prefix),
        Piece::Unknown => Some(SelectorFault::UnknownPseudo),
        Piece::Large(position) => Some(large_refusal(nameless, *position)),
        Piece::Tail(_) => if_refused(!last, SelectorFault::PseudoElement),
        Piece::Strange => Some(SelectorFault::PseudoElement),
    }
}

fn is_none(name: &Option<Txt>) -> bool
    ensures { result ≡ is_none name.now }
{
    match name {
        None => true,
        Some(_) => false,
    }
}

/// The first refusal of a form, with what stands in it.
#[cycle(refusals)]
#[tactic(auto, using(crate::proofs::RefusalLemmas::one_refusal, crate::proofs::RefusalLemmas::choice_refusal, crate::proofs::RefusalLemmas::deep_refusal))]
fn form_refusal(nameless: bool, last: bool, form: &Form) -> Option<SelectorFault>
    ensures { result ≡ spec.form_refusal nameless last form.now }
{
    match form {
        Form::One(piece) => piece_refusal(nameless, last, piece),
        Form::Choice(word, members) => members_refusal(
            is_has(*word) || nameless,
            members.as_slice(),
        ),
        Form::Deep => Some(SelectorFault::Nested),
    }
}

/// The first refusal of the forms of a compound.
#[cycle(refusals)]
#[tactic(auto, using(crate::proofs::RefusalLemmas::form_refused, crate::proofs::RefusalLemmas::form_allowed, crate::proofs::RefusalLemmas::no_forms))]
fn forms_refusal(nameless: bool, last: bool, forms: &[Form]) -> Option<SelectorFault>
    ensures { result ≡ spec.forms_refusal nameless last forms.now }
{
    let mut at = 0;
    while at < forms.len() {
        let found = form_refusal(nameless, last && at + 1 == forms.len(), &forms[at]);
        if let Some(fault) = found {
            return Some(fault);
        }
        at += 1;
    }
    None
}

/// The first refusal of a compound of a choice. What stands there is not the last of its selector.
#[cycle(refusals)]
#[tactic(auto, using(crate::proofs::RefusalLemmas::inner_prefixed, crate::proofs::RefusalLemmas::inner_plain))]
fn inner_refusal(nameless: bool, inner: &Inner) -> Option<SelectorFault>
    ensures { result ≡ spec.inner_refusal nameless inner.now }
{
    if inner.prefixed {
        return Some(SelectorFault::Prefix);
    }
    forms_refusal(
        nameless && is_none(&inner.element),
        false,
        inner.forms.as_slice(),
    )
}

/// The first refusal of the compounds of a choice.
#[cycle(refusals)]
#[tactic(auto, using(crate::proofs::RefusalLemmas::inner_refused, crate::proofs::RefusalLemmas::inner_allowed, crate::proofs::RefusalLemmas::no_inners))]
fn inners_refusal(nameless: bool, inners: &[Inner]) -> Option<SelectorFault>
    ensures { result ≡ spec.inners_refusal nameless inners.now }
{
    let mut at = 0;
    while at < inners.len() {
        let found = inner_refusal(nameless, &inners[at]);
        if let Some(fault) = found {
            return Some(fault);
        }
        at += 1;
    }
    None
}

/// The first refusal of what stands in a choice once.
#[cycle(refusals)]
#[tactic(auto, using(crate::proofs::RefusalLemmas::member_is))]
fn member_refusal(nameless: bool, member: &Member) -> Option<SelectorFault>
    ensures { result ≡ spec.member_refusal nameless member.now }
{
    inners_refusal(nameless, member.parts.as_slice())
}

/// The first refusal of what stands in a choice.
#[cycle(refusals)]
#[tactic(auto, using(crate::proofs::RefusalLemmas::member_refused, crate::proofs::RefusalLemmas::member_allowed, crate::proofs::RefusalLemmas::no_members))]
fn members_refusal(nameless: bool, members: &[Member]) -> Option<SelectorFault>
    ensures { result ≡ spec.members_refusal nameless members.now }
{
    let mut at = 0;
    while at < members.len() {
        let found = member_refusal(nameless, &members[at]);
        if let Some(fault) = found {
            return Some(fault);
        }
        at += 1;
    }
    None
}

fn compound_refusal(last: bool, compound: &Compound) -> Option<SelectorFault>
    ensures { result ≡ spec.compound_refusal last compound.now }
{
    if compound.prefixed {
        return Some(SelectorFault::Prefix);
    }
    forms_refusal(is_none(&compound.element), last, compound.forms.as_slice())
}

/// The first refusal of a selector.
#[tactic(auto, using(crate::proofs::RefusalLemmas::compound_refused, crate::proofs::RefusalLemmas::compound_allowed, crate::proofs::RefusalLemmas::no_compounds))]
fn selector_refusal(compounds: &[Compound]) -> Option<SelectorFault>
    ensures { result ≡ spec.selector_refusal compounds.now }
{
    let mut at = 0;
    while at < compounds.len() {
        let found = compound_refusal(at + 1 == compounds.len(), &compounds[at]);
        if let Some(fault) = found {
            return Some(fault);
        }
        at += 1;
    }
    None
}

/// The first refusal of a list.
#[tactic(auto, using(crate::proofs::RefusalLemmas::selector_refused, crate::proofs::RefusalLemmas::selector_allowed, crate::proofs::RefusalLemmas::no_selectors))]
pub(crate) fn refusal(list: &[Seq<Compound>]) -> Option<SelectorFault>
    ensures { result ≡ spec.refusal list.now }
{
    let mut at = 0;
    while at < list.len() {
        let found = selector_refusal(list[at].as_slice());
        if let Some(fault) = found {
            return Some(fault);
        }
        at += 1;
    }
    None
}
