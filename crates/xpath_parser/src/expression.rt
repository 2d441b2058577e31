use doc_model::{Axis, NodeTest};
use test_registry::TestKind;
use text_base::{Boxed, Seq, Txt};
use xpath_values::Compare;

/// An operator between two values, XPath 1.0, sections 3.4 and 3.5.
#[derive(Clone, Copy, Debug, PartialEq, Eq)]
pub enum Infix {
    Compare(Compare),
    Add,
    Sub,
    Mul,
    Mod,
}

/// The functions of XPath 1.0, section 4, and stored tests. `Str` is the function `string`.
#[derive(Clone, Copy, Debug, PartialEq, Eq)]
pub enum Func {
    Last,
    Position,
    Count,
    Id,
    LocalName,
    NamespaceUri,
    Name,
    Str,
    Concat,
    StartsWith,
    Contains,
    SubstringBefore,
    SubstringAfter,
    Substring,
    StringLength,
    NormalizeSpace,
    Translate,
    Boolean,
    Not,
    True,
    False,
    Lang,
    Number,
    Sum,
    Floor,
    Ceiling,
    Round,
    /// A stored test of the kind.
    Stored(TestKind),
}

/// An expression. Each level keeps its operands as one list, so that only brackets nest. `Joined`
/// holds one level of comparisons, sums or products, joined from the left; `Minus` the number of its
/// signs, at least 1; `Filter` at least one predicate. A lone operand stands for itself, and so does
/// an expression in round brackets.
#[cycle(expression)]
#[derive(Debug, Drop)]
pub enum Expr {
    Or(Seq<Expr>),
    And(Seq<Expr>),
    Joined(Boxed<Expr>, Seq<Operand>),
    Minus(u32, Boxed<Expr>),
    Union(Seq<Expr>),
    Path(Start, Seq<Step>),
    Filter(Boxed<Expr>, Seq<Expr>),
    Literal(Txt),
    Number(i64),
    Call(Func, Seq<Expr>),
}

/// An operator and the operand to its right.
#[cycle(expression)]
#[derive(Debug, Drop)]
pub struct Operand {
    pub op: Infix,
    pub value: Expr,
}

/// Where a location path starts: at the context row, at the root node, or at the rows of an expression.
#[cycle(expression)]
#[derive(Debug, Drop)]
pub enum Start {
    Here,
    Root,
    From(Boxed<Expr>),
}

/// A step of a location path. `//` is a step of its own.
#[cycle(expression)]
#[derive(Debug, Drop)]
pub struct Step {
    pub axis: Axis,
    pub test: NodeTest,
    pub predicates: Seq<Expr>,
}
