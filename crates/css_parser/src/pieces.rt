use css_selectors::{Link, Nth, Op, Pseudo, Tail};
use text_base::{Seq, Txt};

/// What a simple selector asks that is no choice. An element is none of these: it stands in a
/// compound by itself.
#[derive(Drop)]
pub(crate) enum Plain {
    Id(Txt),
    Class(Txt),
    /// The attribute's name, and what its value is compared with: an empty text for `Exists`.
    Attr(Txt, Op, Txt),
    /// The a and b of `an+b`.
    Nth(Nth, i64, i64),
    Pseudo(Pseudo),
    Contains(Txt),
    Lang(Txt),
}

/// What a simple selector or a pseudo-element is, before it is looked at whether it may stand there.
#[derive(Drop)]
pub(crate) enum Piece {
    Plain(Plain),
    /// An element or an attribute with a prefix.
    Prefixed,
    /// A pseudo-class that is not known.
    Unknown,
    /// A position with a number beyond a million.
    Large(Nth),
    /// A pseudo-element that is known.
    Tail(Tail),
    /// A pseudo-element that is not known.
    Strange,
}

/// A piece, and the place of the token behind it.
#[derive(Drop)]
pub(crate) struct Read {
    pub(crate) piece: Piece,
    pub(crate) end: usize,
}

/// The words of choices.
#[derive(Clone, Copy)]
pub(crate) enum Word {
    Is,
    Where,
    Not,
    Has,
}

/// A simple selector or a pseudo-element, with what stands in it.
#[cycle(forms)]
#[derive(Drop)]
pub(crate) enum Form {
    /// A piece that is no choice.
    One(Piece),
    /// A choice, and what stands in it: at least one member.
    Choice(Word, Seq<Member>),
    /// A choice inside eight others, or a `has` inside another. What stands in it is not kept.
    Deep,
}

/// A compound that stands in a choice, and the combinator before it: none but in a relative.
#[cycle(forms)]
#[derive(Drop)]
pub(crate) struct Inner {
    pub(crate) link: Link,
    /// Whether an element stands in it.
    pub(crate) named: bool,
    /// The name of the element, or None for `*` or no element at all.
    pub(crate) element: Option<Txt>,
    pub(crate) prefixed: bool,
    pub(crate) forms: Seq<Form>,
}

/// What stands in a choice once: the compounds of a relative in a `has`, and one compound in any
/// other.
#[cycle(forms)]
#[derive(Drop)]
pub(crate) struct Member {
    pub(crate) parts: Seq<Inner>,
}

/// A compound of a choice, and the place of the token after it.
#[derive(Drop)]
pub(crate) struct InnerRead {
    pub(crate) inner: Inner,
    pub(crate) end: usize,
}

/// The compounds of a member, and the place of the token after the last.
#[derive(Drop)]
pub(crate) struct InnersRead {
    pub(crate) inners: Seq<Inner>,
    pub(crate) end: usize,
}

/// What stands in a choice, and the place of the token after its `)`.
#[derive(Drop)]
pub(crate) struct ListRead {
    pub(crate) list: Seq<Member>,
    pub(crate) end: usize,
}

#[derive(Drop)]
pub(crate) struct FormRead {
    pub(crate) form: Form,
    pub(crate) end: usize,
}

/// The name of an element, or None for `*`.
#[derive(Drop)]
pub(crate) struct ElementRead {
    pub(crate) name: Option<Txt>,
    pub(crate) prefixed: bool,
    pub(crate) end: usize,
}

#[derive(Clone, Copy)]
pub(crate) struct LinkRead {
    pub(crate) link: Link,
    pub(crate) end: usize,
}

/// A compound selector, and the combinator before it.
#[derive(Drop)]
pub(crate) struct Compound {
    pub(crate) link: Link,
    /// The name of the element, or None for `*` or no element at all.
    pub(crate) element: Option<Txt>,
    pub(crate) prefixed: bool,
    pub(crate) forms: Seq<Form>,
}

#[derive(Drop)]
pub(crate) struct FormsRead {
    pub(crate) forms: Seq<Form>,
    pub(crate) end: usize,
}

#[derive(Drop)]
pub(crate) struct CompoundRead {
    pub(crate) compound: Compound,
    pub(crate) end: usize,
}

#[derive(Drop)]
pub(crate) struct SelectorRead {
    pub(crate) compounds: Seq<Compound>,
    pub(crate) end: usize,
}
