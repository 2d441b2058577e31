use crate::expression::Func;
use doc_model::Axis;
use text_base::Txt;

/// The node types of XPath 1.0, section 2.3.
#[derive(Clone, Copy, Debug, PartialEq, Eq)]
pub enum NodeType {
    Node,
    Text,
    Comment,
    Instruction,
}

/// What a token is by the lexical rule of XPath 1.0, section 3.7: a name is an operator, an axis, a
/// node type, a function or a name test, and `*` is an operator or a name test.
#[derive(Debug, Drop)]
pub enum Term {
    OpenRound,
    CloseRound,
    OpenSquare,
    CloseSquare,
    Dot,
    DotDot,
    At,
    Comma,
    DoubleColon,
    Slash,
    DoubleSlash,
    Bar,
    Plus,
    Minus,
    Equal,
    Unequal,
    Less,
    LessEqual,
    Greater,
    GreaterEqual,
    Or,
    And,
    Times,
    Mod,
    Div,
    /// `*` as a name test.
    AnyName,
    /// A name as a name test.
    Name(Txt),
    /// A prefixed name, which stands as a name test.
    Prefixed,
    Axis(Axis),
    NodeType(NodeType),
    Function(Func),
    UnknownFunction,
    Literal(Txt),
    Number(i64),
    /// A number with a point.
    Fraction,
    /// A number without a point beyond 2^53 - 1.
    TooLarge,
    Variable,
    /// A name that is no operator at an operator's place, or no axis before `::`.
    Unknown,
}
