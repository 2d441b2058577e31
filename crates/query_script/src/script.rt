ghost use Rattle.std.specs.Prelude.{◌≡◌};
ghost use Rattle.query_script.specs.Words.{first_word, second_word};

use test_registry::TestKind;
use text_base::{SelectorFault, Seq, Txt, XPathFault};

/// What a text asks of each page.
#[derive(Debug, Drop)]
pub struct Script {
    /// In the order of the text, at most 32.
    pub fields: Seq<Field>,
}

/// A name, and what is asked under it.
#[derive(Debug, Drop)]
pub struct Field {
    /// An ASCII letter or `_`, then letters, digits and `_`; empty where the reason is `Name`.
    pub name: Txt,
    pub chain: Chain,
}

/// Steps, each on what the one before it gave, and which of the last are taken; or why the field
/// is refused.
#[derive(Debug, Drop)]
pub enum Chain {
    Steps(Seq<ChainStep>, Take),
    Refused(Reason),
}

/// A query, as XPath text; a pattern that is matched on the texts of what came; or a stored test
/// with the text that it is asked, beside the text of each item, to keep the item.
#[derive(Debug, Drop)]
pub enum ChainStep {
    Query(Txt),
    Match(Txt),
    Keep(TestKind, Txt),
}

/// The first of what the last step gave, or all of it.
#[derive(Clone, Copy, Debug, PartialEq, Eq)]
pub enum Take {
    First,
    All,
}

/// Why a field has no value.
#[derive(Clone, Copy, Debug, PartialEq, Eq)]
pub enum Reason {
    /// No name stands before the first colon, or there is no colon.
    Name,
    /// What stands after the colon is no steps and an end.
    Chain,
    /// A query on strings.
    Order,
    /// A test that is not stored.
    Test,
    /// What stands after the colon of a block of records is no steps, `each` and fields in braces.
    Block,
    /// Two fields of a block of records have the same name.
    Twice,
    /// A step gives more items than it may.
    Selection,
    /// Strings have more bytes together than they may.
    Output,
    /// A pattern that is none.
    Pattern,
    /// A selector that is refused.
    Css(SelectorFault),
    /// An XPath text that is refused.
    XPath(XPathFault),
}

/// What a field gives of a page: the texts of all items, the first of them if there is one, or why
/// it has no value.
#[derive(Debug, Drop)]
pub enum FieldValue {
    All(Seq<Txt>),
    One(Option<Txt>),
    Refused(Reason),
}

impl Reason {
    /// The two words of the reason, between which a point is printed: what was looked at, which is
    /// `field`, `re`, `css` or `xpath`, and the name of the variant.
    pub fn words(&self) -> (&str, &str)
        ensures first { result.0.now ≡ first_word self.now }
        ensures second { result.1.now ≡ second_word self.now }
    {
        match self {
            Reason::Name => ("field", "Name"),
            Reason::Chain => ("field", "Chain"),
            Reason::Order => ("field", "Order"),
            Reason::Test => ("field", "Test"),
            Reason::Block => ("field", "Block"),
            Reason::Twice => ("field", "Twice"),
            Reason::Selection => ("field", "Selection"),
            Reason::Output => ("field", "Output"),
            Reason::Pattern => ("re", "Pattern"),
            Reason::Css(fault) => ("css", fault.word()),
            Reason::XPath(fault) => ("xpath", fault.word()),
        }
    }
}
