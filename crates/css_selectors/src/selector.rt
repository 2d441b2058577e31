use text_base::{Seq, Txt};

/// How the names of a selector are read: as they stand, or in ASCII lower case.
#[derive(Clone, Copy, Debug, PartialEq, Eq)]
pub enum Dialect {
    Generic,
    Html,
}

/// A group of selectors. Selectors Level 3, section 5.
#[derive(Debug, Drop)]
pub struct SelectorList {
    /// At least one.
    pub items: Seq<Selector>,
}

/// A chain of compound selectors that combinators join. Selectors Level 3, section 4.
#[derive(Debug, Drop)]
pub struct Selector {
    /// From left to right, at least one.
    pub parts: Seq<Part>,
    pub tail: Tail,
}

/// What a selector gives of each element that it reaches: the element, its texts, or the
/// attribute of that name. Selectors Level 3, section 7, with pseudo-elements of parsel.
#[derive(Debug, Drop)]
pub enum Tail {
    Element,
    Text,
    Attr(Txt),
}

/// A sequence of simple selectors, and the combinator before it. Selectors Level 3, sections 4
/// and 8.
#[cycle(selector)]
#[derive(Debug, Drop)]
pub struct Part {
    pub link: Link,
    /// The name of the type, or None for `*` or no type at all.
    pub element: Option<Txt>,
    pub simples: Seq<Simple>,
}

/// The combinator before a part: none before the first, then white space, `>`, `+` or `~`.
/// Selectors Level 3, section 8.
#[derive(Clone, Copy, Debug, PartialEq, Eq)]
pub enum Link {
    First,
    Descendant,
    Child,
    Next,
    Later,
}

/// A simple selector, or its negation. Selectors Level 3, sections 6 and 6.6.7.
#[cycle(selector)]
#[derive(Debug, Drop)]
pub struct Simple {
    pub negated: bool,
    pub test: Test,
}

/// What a simple selector asks of an element. Selectors Level 3, section 6, and for the last two
/// Selectors Level 4, sections 4.2 to 4.5.
#[cycle(selector)]
#[derive(Debug, Drop)]
pub enum Test {
    /// It has this name, where there is one. This stands only in a negation.
    Element(Option<Txt>),
    Id(Txt),
    Class(Txt),
    /// The attribute's name, and what its value is compared with: an empty text for `Exists`.
    Attr(Txt, Op, Txt),
    /// The a and b of `an+b`.
    Nth(Nth, i64, i64),
    Pseudo(Pseudo),
    Contains(Txt),
    Lang(Txt),
    /// One of these compounds holds there, of which there is at least one.
    Any(Weight, Seq<Compound>),
    /// One of these relatives leads on from there, of which there is at least one. Inside it stands
    /// no other of its kind.
    Has(Seq<Relative>),
}

/// What a choice of compounds counts in a specificity: as much as the greatest of them, or nothing.
/// Selectors Level 4, section 17.
#[derive(Clone, Copy, Debug, PartialEq, Eq)]
pub enum Weight {
    Most,
    Zero,
}

/// A sequence of simple selectors that stands for itself, in a choice. Selectors Level 4, section
/// 3.1.
#[cycle(selector)]
#[derive(Debug, Drop)]
pub struct Compound {
    /// The name of the type, or None for `*` or no type at all.
    pub element: Option<Txt>,
    pub simples: Seq<Simple>,
}

/// A selector that is read from an element on: each part stands to the one before it as its
/// combinator says, and the first one so to the element. Selectors Level 4, section 3.1.
#[cycle(selector)]
#[derive(Debug, Drop)]
pub struct Relative {
    pub parts: Seq<Part>,
}

/// How the value of an attribute is compared: `[a]`, `=`, `~=`, `|=`, `^=`, `$=`, `*=`. Selectors
/// Level 3, section 6.3.
#[derive(Clone, Copy, Debug, PartialEq, Eq)]
pub enum Op {
    Exists,
    Equals,
    Word,
    Dash,
    Prefix,
    Suffix,
    Substring,
}

/// Which position counts: from the first or from the last, among all siblings or those of one
/// name. `:first-child` is `Child` with 0 and 1, and the others likewise. Selectors Level 3,
/// section 6.6.5.
#[derive(Clone, Copy, Debug, PartialEq, Eq)]
pub enum Nth {
    Child,
    LastChild,
    OfType,
    LastOfType,
}

/// The pseudo-classes without an argument. `Never` stands for those of a user's actions and for
/// `:target` and `:visited`. Selectors Level 3, section 6.6.
#[derive(Clone, Copy, Debug, PartialEq, Eq)]
pub enum Pseudo {
    OnlyChild,
    OnlyOfType,
    Empty,
    Root,
    Never,
    Link,
    Checked,
    Enabled,
    Disabled,
}

/// A specificity: how many ids, how many classes and their like, how many types. Selectors Level 3,
/// section 9.
#[derive(Clone, Copy, Debug, PartialEq, Eq)]
pub struct Triple {
    pub a: u32,
    pub b: u32,
    pub c: u32,
}
