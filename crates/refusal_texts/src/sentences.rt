//! The reasons of refusals, each in one sentence.
ghost use Rattle.std.specs.Prelude.{◌≡◌};
ghost use Rattle.refusal_texts.specs.Sentences as spec;

use query_script::Reason;
use text_base::{PageReason, ScriptFault, SelectorFault, XPathFault};

/// Why a selector is refused.
pub fn selector_sentence(reason: &SelectorFault) -> &str
    ensures { result.now ≡ spec.selector_sentence reason.now }
{
    match reason {
        SelectorFault::Long => "the selector has more than 16384 bytes",
        SelectorFault::Text => "no token begins at this character",
        SelectorFault::Syntax => "the tokens do not read as a selector",
        SelectorFault::Prefix => "a name has a namespace prefix",
        SelectorFault::UnknownPseudo =>
            "no class of this name is known, or its argument is missing or one too many",
        SelectorFault::PseudoElement =>
            "this pseudo-element is not known, or something stands after it",
        SelectorFault::Nested => "a choice stands inside eight others, or a :has inside another",
        SelectorFault::OfType => "a class that counts by type has no type to count",
        SelectorFault::Number => "a number is larger than a million",
        SelectorFault::XPathLong => "the XPath of the selector would have more than 1048576 bytes",
        SelectorFault::Memory => "no memory was found",
    }
}

/// Why an XPath text is refused.
pub fn xpath_sentence(reason: &XPathFault) -> &str
    ensures { result.now ≡ spec.xpath_sentence reason.now }
{
    match reason {
        XPathFault::Long => "the expression has more than 1048576 bytes",
        XPathFault::Text => "no token begins at this character",
        XPathFault::Deep => "more than 64 brackets are open",
        XPathFault::Syntax => "the tokens do not read as an expression",
        XPathFault::Fraction => "a number has a point, and all numbers here are whole",
        XPathFault::Range => "a number is larger than 9007199254740991",
        XPathFault::Div => "there is no division",
        XPathFault::Variable => "there are no variables",
        XPathFault::Prefix => "a name has a prefix",
        XPathFault::Function => "no function of this name is known",
        XPathFault::Arguments => "the function takes another number of arguments",
        XPathFault::WrongType => "a text, a number or a boolean stands where nodes must stand",
        XPathFault::Memory => "no memory was found",
    }
}

/// Why a page is refused.
pub fn page_sentence(reason: &PageReason) -> &str
    ensures { result.now ≡ spec.page_sentence reason.now }
{
    match reason {
        PageReason::TooLong => "the page has more than 4194304 bytes",
        PageReason::NotUtf8 => "no character of UTF-8 begins at this byte",
        PageReason::Nul => "a byte of the page is zero",
        PageReason::BadTag => "the tag breaks off or cannot be read",
        PageReason::BadAttribute =>
            "no attribute begins where one must: a quote, a = or a < stands alone in the tag",
        PageReason::BadComment => "the comment cannot be read",
        PageReason::BadMarkup => "this is no comment and no doctype, or it has no end",
        PageReason::StrayEnd => "the end tag is not that of the innermost open element",
        PageReason::Unclosed => "the page ends in an element that must have an end tag",
        PageReason::TextOutside => "a text stands outside the element html",
        PageReason::SecondRoot => "an element begins after the end of the element html",
        PageReason::NoRoot => "the page has no element, and no text but white space",
        PageReason::Deep => "512 elements are open, and one more begins",
        PageReason::Memory => "no memory was found",
    }
}

/// Why a field has no value.
pub fn field_sentence(reason: &Reason) -> &str
    ensures { result.now ≡ spec.field_sentence reason.now }
{
    match reason {
        Reason::Name => "no name stands before the first colon, or there is no colon",
        Reason::Chain => "what stands after the colon is no steps and an end",
        Reason::Order => "a step wants elements where the step before it gives strings",
        Reason::Test => "no test of this name is known",
        Reason::Block => "this is no steps, each and fields in braces",
        Reason::Twice => "two fields of the block have the same name",
        Reason::Selection =>
            "a step gives more than 1000000 items, or a block more than 10000 rows",
        Reason::Output => "the strings have more than 8388608 bytes together",
        Reason::Pattern => "the pattern is no regular expression as it is read here",
        Reason::Css(fault) => selector_sentence(fault),
        Reason::XPath(fault) => xpath_sentence(fault),
    }
}

/// Why a script is refused as a whole.
pub fn script_sentence(reason: &ScriptFault) -> &str
    ensures { result.now ≡ spec.script_sentence reason.now }
{
    match reason {
        ScriptFault::Long => "the script has more than 65536 bytes",
        ScriptFault::Fields => "the script has more than 32 fields",
        ScriptFault::Memory => "no memory was found",
    }
}
