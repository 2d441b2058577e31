ghost use Rattle.std.specs.Prelude.{◌≡◌};
ghost use Rattle.refusal_texts.specs.Refusals.{family, name};
ghost use Rattle.refusal_texts.specs.Sentences.{sentence};
ghost use Rattle.refusal_texts.specs.Advice.{advice};

use crate::advice::{field_advice, page_advice, script_advice, selector_advice, xpath_advice};
use crate::sentences::{
    field_sentence, page_sentence, script_sentence, selector_sentence, xpath_sentence,
};
use query_script::Reason;
use text_base::{PageReason, ScriptFault, SelectorFault, XPathFault};

/// What was refused, and why.
#[derive(Clone, Copy, Debug, PartialEq, Eq)]
pub enum Refusal {
    /// A selector.
    Css(SelectorFault),
    /// An XPath text.
    XPath(XPathFault),
    /// A page.
    Page(PageReason),
    /// A field of a script, or a block of records.
    Field(Reason),
    /// A script as a whole.
    Script(ScriptFault),
}

impl Refusal {
    /// The two words of the reason, between which a point is printed: what was looked at, which is
    /// `css`, `xpath`, `page`, `field`, `re` or `script`, and the reason's own name.
    pub fn words(&self) -> (&str, &str)
        ensures family { result.0.now ≡ family self.now }
        ensures name { result.1.now ≡ name self.now }
    {
        match self {
            Refusal::Css(fault) => ("css", fault.word()),
            Refusal::XPath(fault) => ("xpath", fault.word()),
            Refusal::Page(reason) => ("page", reason.word()),
            Refusal::Field(reason) => reason.words(),
            Refusal::Script(fault) => ("script", fault.word()),
        }
    }

    /// The reason in one sentence, without a point at its end.
    pub fn sentence(&self) -> &str
        ensures { result.now ≡ sentence self.now }
    {
        match self {
            Refusal::Css(fault) => selector_sentence(fault),
            Refusal::XPath(fault) => xpath_sentence(fault),
            Refusal::Page(reason) => page_sentence(reason),
            Refusal::Field(reason) => field_sentence(reason),
            Refusal::Script(fault) => script_sentence(fault),
        }
    }

    /// What to write in place of what was refused: one line, which may hold several ways.
    pub fn advice(&self) -> &str
        ensures { result.now ≡ advice self.now }
    {
        match self {
            Refusal::Css(fault) => selector_advice(fault),
            Refusal::XPath(fault) => xpath_advice(fault),
            Refusal::Page(reason) => page_advice(reason),
            Refusal::Field(reason) => field_advice(reason),
            Refusal::Script(fault) => script_advice(fault),
        }
    }
}
