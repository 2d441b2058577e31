use text_base::Txt;

/// The kinds of tokens, after Selectors Level 3, section 10.
#[derive(Clone, Copy, Debug, PartialEq, Eq)]
pub enum CssKind {
    /// A run of white space.
    Space,
    /// A name directly before `(`, with the `(`.
    Function,
    /// A name.
    Ident,
    /// `#` and name characters.
    Hash,
    /// A string in quotes of either kind.
    Quoted,
    /// A run of digits.
    Digits,
    /// `~=`.
    WordMatch,
    /// `|=`.
    DashMatch,
    /// `^=`.
    PrefixMatch,
    /// `$=`.
    SuffixMatch,
    /// `*=`.
    PartMatch,
    /// `::`.
    DoubleColon,
    /// `*`.
    Star,
    /// `.`.
    Dot,
    /// `:`.
    Colon,
    /// `[`.
    OpenSquare,
    /// `]`.
    CloseSquare,
    /// `)`.
    CloseRound,
    /// `,`.
    Comma,
    /// `+`.
    Plus,
    /// `>`.
    Greater,
    /// `~`.
    Tilde,
    /// `|`.
    Bar,
    /// `=`.
    Equal,
    /// `-`.
    Minus,
}

/// A token of a selector: the bytes of the text from `from` up to `to`. The value of an Ident, a
/// Function, a Hash and a Quoted is its text with the escapes read, without `#`, `(` and quotes; of
/// every other kind it is empty.
#[derive(Debug, Drop)]
pub struct CssToken {
    pub kind: CssKind,
    pub from: usize,
    pub to: usize,
    pub value: Txt,
}
