ghost use Rattle.std.specs.Prelude.{◌≡◌, codes};
ghost use Rattle.text_base.specs.Reasons.{page_word, script_word, selector_word, xpath_word};

/// Why a page is refused.
#[derive(Clone, Copy, Debug, PartialEq, Eq)]
pub enum PageReason {
    /// It has more bytes than a page may have.
    TooLong,
    /// No whole UTF-8 character begins at the place.
    NotUtf8,
    /// A zero byte.
    Nul,
    /// A tag that cannot be read.
    BadTag,
    /// No attribute begins where one must.
    BadAttribute,
    /// A comment that cannot be read.
    BadComment,
    /// A `<!` that is no comment or doctype, or markup without its end.
    BadMarkup,
    /// An end tag of no innermost open element.
    StrayEnd,
    /// The text ends in an open element.
    Unclosed,
    /// A text outside the root element.
    TextOutside,
    /// A second root element.
    SecondRoot,
    /// No root element.
    NoRoot,
    /// More open elements than may be.
    Deep,
    /// Memory was not found.
    Memory,
}

/// Why a page is refused, and where: a place in bytes, which is 0 for want of memory.
#[derive(Clone, Copy, Debug, PartialEq, Eq)]
pub struct PageFault {
    pub reason: PageReason,
    pub at: usize,
}

impl PageReason {
    /// The variant's name.
    pub fn word(&self) -> &str
        ensures { result.now ≡ page_word self.now }
    {
        match self {
            PageReason::TooLong => "TooLong",
            PageReason::NotUtf8 => "NotUtf8",
            PageReason::Nul => "Nul",
            PageReason::BadTag => "BadTag",
            PageReason::BadAttribute => "BadAttribute",
            PageReason::BadComment => "BadComment",
            PageReason::BadMarkup => "BadMarkup",
            PageReason::StrayEnd => "StrayEnd",
            PageReason::Unclosed => "Unclosed",
            PageReason::TextOutside => "TextOutside",
            PageReason::SecondRoot => "SecondRoot",
            PageReason::NoRoot => "NoRoot",
            PageReason::Deep => "Deep",
            PageReason::Memory => "Memory",
        }
    }
}

/// Why a selector is refused.
#[derive(Clone, Copy, Debug, PartialEq, Eq)]
pub enum SelectorFault {
    /// It has more bytes than it may have.
    Long,
    /// No token begins at a place.
    Text,
    /// The tokens do not read as the grammar says.
    Syntax,
    /// A name with a prefix.
    Prefix,
    /// A pseudo-class that is not known.
    UnknownPseudo,
    /// A pseudo-element that is not known, or out of its place.
    PseudoElement,
    /// A choice inside eight others, or a `:has` inside another.
    Nested,
    /// A class that counts by type, without a type.
    OfType,
    /// A number beyond a million in size.
    Number,
    /// The XPath text would be longer than it may be.
    XPathLong,
    /// Memory was not found.
    Memory,
}

impl SelectorFault {
    /// The variant's name.
    pub fn word(&self) -> &str
        ensures { result.now ≡ selector_word self.now }
    {
        match self {
            SelectorFault::Long => "Long",
            SelectorFault::Text => "Text",
            SelectorFault::Syntax => "Syntax",
            SelectorFault::Prefix => "Prefix",
            SelectorFault::UnknownPseudo => "UnknownPseudo",
            SelectorFault::PseudoElement => "PseudoElement",
            SelectorFault::Nested => "Nested",
            SelectorFault::OfType => "OfType",
            SelectorFault::Number => "Number",
            SelectorFault::XPathLong => "XPathLong",
            SelectorFault::Memory => "Memory",
        }
    }
}

/// Why an XPath text is refused.
#[derive(Clone, Copy, Debug, PartialEq, Eq)]
pub enum XPathFault {
    /// It has more bytes than it may have.
    Long,
    /// No token begins at a place.
    Text,
    /// More open brackets than may be.
    Deep,
    /// The tokens do not read as the grammar says.
    Syntax,
    /// A number with a point.
    Fraction,
    /// A number beyond 2^53 - 1.
    Range,
    /// The operator `div`.
    Div,
    /// A variable.
    Variable,
    /// A name with a prefix.
    Prefix,
    /// A function that is not known.
    Function,
    /// A function with a wrong number of arguments.
    Arguments,
    /// Nodes are wanted, and something else stands there.
    WrongType,
    /// Memory was not found.
    Memory,
}

impl XPathFault {
    /// The variant's name.
    pub fn word(&self) -> &str
        ensures { result.now ≡ xpath_word self.now }
    {
        match self {
            XPathFault::Long => "Long",
            XPathFault::Text => "Text",
            XPathFault::Deep => "Deep",
            XPathFault::Syntax => "Syntax",
            XPathFault::Fraction => "Fraction",
            XPathFault::Range => "Range",
            XPathFault::Div => "Div",
            XPathFault::Variable => "Variable",
            XPathFault::Prefix => "Prefix",
            XPathFault::Function => "Function",
            XPathFault::Arguments => "Arguments",
            XPathFault::WrongType => "WrongType",
            XPathFault::Memory => "Memory",
        }
    }
}

/// Why a script is refused as a whole.
#[derive(Clone, Copy, Debug, PartialEq, Eq)]
pub enum ScriptFault {
    /// It has more bytes than it may have.
    Long,
    /// It has more fields than it may have.
    Fields,
    /// Memory was not found.
    Memory,
}

impl ScriptFault {
    /// The variant's name.
    pub fn word(&self) -> &str
        ensures { result.now ≡ script_word self.now }
    {
        match self {
            ScriptFault::Long => "Long",
            ScriptFault::Fields => "Fields",
            ScriptFault::Memory => "Memory",
        }
    }
}
