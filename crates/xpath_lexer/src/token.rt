use text_base::Txt;

/// What a token of XPath 1.0, section 3.7, is.
#[derive(Clone, Copy, Debug, PartialEq, Eq)]
pub enum XKind {
    OpenRound,
    CloseRound,
    OpenSquare,
    CloseSquare,
    Dot,
    DotDot,
    At,
    Comma,
    DoubleColon,
    Literal,
    Number,
    Name,
    /// A name, `:` and a name or `*`.
    Prefixed,
    /// `$` and a name or a name, `:` and a name.
    Variable,
    Slash,
    DoubleSlash,
    Bar,
    Plus,
    Minus,
    Equal,
    Unequal,
    Less,
    LessEqual,
    Greater,
    GreaterEqual,
    Star,
}

/// A token: what it is, its first byte and the byte after its last, and its text as characters. The
/// text of a literal is what stands between its quotes; of every other token it is what is written.
#[derive(Debug, Drop)]
pub struct XTok {
    pub kind: XKind,
    pub from: usize,
    pub to: usize,
    pub value: Txt,
}
