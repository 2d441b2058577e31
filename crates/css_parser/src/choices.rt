//! Simple selectors, choices and pseudo-elements. A choice is read with what stands in it, at most
//! eight choices deep, and no `has` inside another. No call goes deeper: where each choice ends is
//! found from the last token to the first, so that those inside a choice are known when it is read.
ghost use Rattle.std.specs.Prelude.{◌≡◌, ◌+◌, ◌-◌, ◌<◌, ◌≤◌, ◌&&◌, ◌||◌, true, length, IfOk, IfSome, Some, None};
ghost use Rattle.css_parser.specs.Choices as spec;
ghost use Rattle.css_parser.specs.Choices.{simple_by};
ghost use Rattle.css_parser.specs.inner.Reading.{AreInside, Begins, EndsForm, EndsInner, EndsInners, EndsList, IsChoiceEnd, IsFormsRead, IsTable, deep_end};

use crate::attributes::element;
use crate::links::{combinator, sign};
use crate::pieces::{
    ElementRead, Form, FormRead, FormsRead, Inner, InnerRead, InnersRead, ListRead, Member, Read,
    Word,
};
use crate::places::{skip, stands, text_at};
use crate::simples::{piece_at, word_called};
use css_lexer::{CssKind, CssToken};
use css_selectors::Link;
use std::alloc::Global;
use text_base::{NoMemory, Seq, Txt};

/// The word of the choice that begins at a place, if one does.
#[tactic(auto, unfolding(crate::specs::Choices::word_at))]
pub(crate) fn word_at(tokens: &[CssToken], at: usize) -> Option<Word>
    requires { at ≤ length tokens.now }
    ensures value { result ≡ spec.word_at tokens.now at }
    ensures within { Begins tokens.now at result }
{
    if stands(tokens, at, CssKind::Colon) && stands(tokens, at + 1, CssKind::Function) {
        word_called(text_at(tokens, at + 1))
    } else {
        None
    }
}

fn one_read(read: Option<Read>) -> Option<FormRead>
    ensures { result ≡ spec.one_read read }
{
    match read {
        Some(read) => Some(FormRead {
            form: Form::One(read.piece),
            end: read.end,
        }),
        None => None,
    }
}

fn choice_read(word: Word, read: Option<ListRead>) -> Option<FormRead>
    ensures { result ≡ spec.choice_read word read }
{
    match read {
        Some(read) => Some(FormRead {
            form: Form::Choice(word, read.list),
            end: read.end,
        }),
        None => None,
    }
}

pub(crate) fn is_has(word: Word) -> bool
    ensures { result ≡ spec.is_has word }
{
    match word {
        Word::Has => true,
        _ => false,
    }
}

/// Whether it is a `has` inside another.
fn is_second(word: Word, within: bool) -> bool
    ensures { result ≡ (spec.is_has word && within) }
{
    is_has(word) && within
}

/// Whether what stands in the choice is inside a `has`.
fn is_within(word: Word, within: bool) -> bool
    ensures { result ≡ (within || spec.is_has word) }
{
    within || is_has(word)
}

fn deep_form(end: Option<usize>) -> Option<FormRead>
    ensures { result ≡ deep_end end }
{
    match end {
        Some(end) => Some(FormRead {
            form: Form::Deep,
            end,
        }),
        None => None,
    }
}

fn inner_read(
    link: Link,
    named: bool,
    element: Option<Txt>,
    prefixed: bool,
    read: FormsRead,
) -> InnerRead
    ensures { result ≡ spec.inner_read link named element prefixed read }
{
    InnerRead {
        inner: Inner {
            link,
            named,
            element,
            prefixed,
            forms: read.forms,
        },
        end: read.end,
    }
}

/// The simple selector, the choice or the pseudo-element at a place, if one stands there: with `room`
/// choices in each other, inside a `has` or not.
#[cycle(reading)]
#[tactic(auto, using(crate::proofs::ChoiceLemmas::at_piece, crate::proofs::ChoiceLemmas::at_deep, crate::proofs::ChoiceLemmas::at_has, crate::proofs::ChoiceLemmas::at_choice, crate::proofs::ChoiceLemmas::deep_entry_ends))]
pub(crate) fn simple(
    alloc: Global,
    text: &str,
    tokens: &[CssToken],
    ends: &[Option<usize>],
    room: u8,
    within: bool,
    at: usize,
) -> Result<Option<FormRead>, NoMemory>
    requires inside { AreInside text.now tokens.now }
    requires within { at ≤ length tokens.now }
    requires table { IsTable text.now tokens.now ends.now }
    requires known { length tokens.now ≤ at + length ends.now }
    ensures read { IfOk result (λ read. read ≡ simple_by text.now tokens.now room within at) }
    ensures ends { IfOk result (EndsForm tokens.now at) }
{
    match word_at(tokens, at) {
        None => {
            let read = piece_at(alloc, text, tokens, at)?;
            Ok(one_read(read))
        }
        Some(word) => {
            if room == 0 {
                return Ok(deep_form(ends[tokens.len() - 1 - at]));
            }
            if is_second(word, within) {
                return Ok(deep_form(ends[tokens.len() - 1 - at]));
            }
            let inside = is_within(word, within);
            let read = members(alloc, text, tokens, ends, room - 1, inside, word, at + 2)?;
            Ok(choice_read(word, read))
        }
    }
}

/// The simple selectors, choices and pseudo-elements from a place on, as many as there are.
#[cycle(reading)]
#[tactic(auto, using(crate::proofs::ChoiceLemmas::forms_push))]
pub(crate) fn forms(
    alloc: Global,
    text: &str,
    tokens: &[CssToken],
    ends: &[Option<usize>],
    room: u8,
    within: bool,
    from: usize,
) -> Result<FormsRead, NoMemory>
    requires inside { AreInside text.now tokens.now }
    requires within { from ≤ length tokens.now }
    requires table { IsTable text.now tokens.now ends.now }
    requires known { length tokens.now ≤ from + length ends.now }
    ensures { IfOk result (IsFormsRead tokens.now (simple_by text.now tokens.now room within) from) }
{
    let mut forms = Seq::new(alloc);
    let mut at = from;
    loop {
        match simple(alloc, text, tokens, ends, room, within, at)? {
            Some(read) => {
                forms.push(read.form)?;
                at = read.end;
            }
            None => return Ok(FormsRead { forms, end: at }),
        }
    }
}

/// The compound of a choice at a place, if one stands there.
#[cycle(reading)]
#[tactic(auto, using(crate::proofs::MemberLemmas::inner_named, crate::proofs::MemberLemmas::inner_forms, crate::proofs::MemberLemmas::no_inner))]
fn inner(
    alloc: Global,
    text: &str,
    tokens: &[CssToken],
    ends: &[Option<usize>],
    room: u8,
    within: bool,
    link: Link,
    at: usize,
) -> Result<Option<InnerRead>, NoMemory>
    requires inside { AreInside text.now tokens.now }
    requires within { at ≤ length tokens.now }
    requires table { IsTable text.now tokens.now ends.now }
    requires known { length tokens.now ≤ at + length ends.now }
    ensures read { IfOk result (λ read. read ≡ spec.inner_at text.now tokens.now (simple_by text.now tokens.now room within) link at) }
    ensures ends { IfOk result (EndsInner tokens.now at) }
{
    match element(alloc, tokens, at)? {
        Some(element) => {
            let ElementRead {
                name,
                prefixed,
                end,
            } = element;
            let read = forms(alloc, text, tokens, ends, room, within, end)?;
            Ok(Some(inner_read(link, true, name, prefixed, read)))
        }
        None => {
            let read = forms(alloc, text, tokens, ends, room, within, at)?;
            if read.forms.is_empty() {
                return Ok(None);
            }
            Ok(Some(inner_read(link, false, None, false, read)))
        }
    }
}

/// The combinator and the compound of a relative at a place, if both stand there.
#[cycle(reading)]
#[tactic(auto, using(crate::proofs::MemberLemmas::after_link, crate::proofs::MemberLemmas::no_link))]
fn further(
    alloc: Global,
    text: &str,
    tokens: &[CssToken],
    ends: &[Option<usize>],
    room: u8,
    within: bool,
    at: usize,
) -> Result<Option<InnerRead>, NoMemory>
    requires inside { AreInside text.now tokens.now }
    requires within { at ≤ length tokens.now }
    requires table { IsTable text.now tokens.now ends.now }
    requires known { length tokens.now ≤ at + length ends.now }
    ensures read { IfOk result (λ read. read ≡ spec.further_at text.now tokens.now (simple_by text.now tokens.now room within) at) }
    ensures ends { IfOk result (EndsInner tokens.now at) }
{
    match combinator(tokens, at) {
        Some(read) => inner(alloc, text, tokens, ends, room, within, read.link, read.end),
        None => Ok(None),
    }
}

/// The compounds of a relative: the first, and those that combinators join to it, as many as there
/// are.
#[cycle(reading)]
#[tactic(auto, using(crate::proofs::MemberLemmas::joined_begun, crate::proofs::MemberLemmas::joined_push, crate::proofs::MemberLemmas::joined_done))]
fn parts(
    alloc: Global,
    text: &str,
    tokens: &[CssToken],
    ends: &[Option<usize>],
    room: u8,
    within: bool,
    first: InnerRead,
) -> Result<InnersRead, NoMemory>
    requires inside { AreInside text.now tokens.now }
    requires within { first.end ≤ length tokens.now }
    requires table { IsTable text.now tokens.now ends.now }
    requires known { length tokens.now ≤ first.end + length ends.now }
    ensures read { IfOk result (λ read. Some read ≡ spec.joined (spec.parts_from text.now tokens.now (simple_by text.now tokens.now room within) (length tokens.now)) (Some first)) }
    ensures order { IfOk result (λ read. first.end ≤ read.end) }
    ensures within { IfOk result (λ read. read.end ≤ length tokens.now) }
{
    let InnerRead { inner, end } = first;
    let mut inners = Seq::new(alloc);
    inners.push(inner)?;
    let mut at = end;
    loop {
        match further(alloc, text, tokens, ends, room, within, at)? {
            Some(read) => {
                inners.push(read.inner)?;
                at = read.end;
            }
            None => return Ok(InnersRead { inners, end: at }),
        }
    }
}

/// What stands in a choice once, at a place, if it does: a relative in a `has`, and a compound in
/// any other.
#[cycle(reading)]
#[tactic(auto, using(crate::proofs::MemberLemmas::member_has, crate::proofs::MemberLemmas::member_other, crate::proofs::MemberLemmas::no_has, crate::proofs::MemberLemmas::no_other))]
fn member(
    alloc: Global,
    text: &str,
    tokens: &[CssToken],
    ends: &[Option<usize>],
    room: u8,
    within: bool,
    word: Word,
    at: usize,
) -> Result<Option<InnersRead>, NoMemory>
    requires inside { AreInside text.now tokens.now }
    requires within { at ≤ length tokens.now }
    requires table { IsTable text.now tokens.now ends.now }
    requires known { length tokens.now ≤ at + length ends.now }
    ensures read { IfOk result (λ read. read ≡ spec.member_at text.now tokens.now (simple_by text.now tokens.now room within) word at) }
    ensures ends { IfOk result (EndsInners tokens.now at) }
{
    if is_has(word) {
        let sign = sign(tokens, at);
        let Some(first) = inner(alloc, text, tokens, ends, room, within, sign.link, sign.end)?
        else {
            return Ok(None);
        };
        let read = parts(alloc, text, tokens, ends, room, within, first)?;
        return Ok(Some(read));
    }
    let Some(read) = inner(alloc, text, tokens, ends, room, within, Link::First, at)? else {
        return Ok(None);
    };
    let mut inners = Seq::new(alloc);
    inners.push(read.inner)?;
    Ok(Some(InnersRead {
        inners,
        end: read.end,
    }))
}

/// What stands in a choice, from behind its Function on, with its `)`, if it is one.
#[cycle(reading)]
#[tactic(auto, using(crate::proofs::MemberLemmas::list_begun, crate::proofs::MemberLemmas::list_none, crate::proofs::MemberLemmas::list_more))]
pub(crate) fn members(
    alloc: Global,
    text: &str,
    tokens: &[CssToken],
    ends: &[Option<usize>],
    room: u8,
    within: bool,
    word: Word,
    from: usize,
) -> Result<Option<ListRead>, NoMemory>
    requires inside { AreInside text.now tokens.now }
    requires within { from ≤ length tokens.now }
    requires table { IsTable text.now tokens.now ends.now }
    requires known { length tokens.now ≤ from + length ends.now }
    ensures read { IfOk result (λ read. read ≡ spec.members text.now tokens.now (simple_by text.now tokens.now room within) word from) }
    ensures ends { IfOk result (EndsList tokens.now from) }
{
    let mut found = Seq::new(alloc);
    let mut at = from;
    loop {
        let start = skip(tokens, at);
        let Some(read) = member(alloc, text, tokens, ends, room, within, word, start)? else {
            return Ok(None);
        };
        found.push(Member { parts: read.inners })?;
        let behind = skip(tokens, read.end);
        if stands(tokens, behind, CssKind::CloseRound) {
            return Ok(Some(ListRead {
                list: found,
                end: behind + 1,
            }));
        }
        if !stands(tokens, behind, CssKind::Comma) {
            return Ok(None);
        }
        at = behind + 1;
    }
}
