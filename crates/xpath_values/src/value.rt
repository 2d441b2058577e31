use text_base::{Seq, Txt};

/// A number: a whole one from -(2^53 - 1) to 2^53 - 1, or NaN.
#[derive(Clone, Copy, Debug, PartialEq, Eq)]
pub enum XNum {
    Whole(i64),
    NaN,
}

/// A value of XPath 1.0, section 1. The rows of a node-set are ascending, each once.
#[derive(Debug, Drop)]
pub enum Value {
    Bool(bool),
    Num(XNum),
    Str(Txt),
    Nodes(Seq<u32>),
}

/// A value that is no node-set, its text borrowed.
#[derive(Clone, Copy, Debug)]
pub enum Atom<'a> {
    Bool(bool),
    Num(XNum),
    Str(&'a str),
}

/// The four types of values.
#[derive(Clone, Copy, Debug, PartialEq, Eq)]
pub enum Shape {
    Nodes,
    Str,
    Num,
    Bool,
}

/// The operators of comparisons, XPath 1.0, section 3.4.
#[derive(Clone, Copy, Debug, PartialEq, Eq)]
pub enum Compare {
    Equal,
    Unequal,
    Less,
    LessEqual,
    Greater,
    GreaterEqual,
}
