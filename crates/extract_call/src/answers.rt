//! Lines with the truth whether they hold a refusal.
ghost use Rattle.std.specs.Prelude.{◌≡◌, ◌++◌, IfOk, string_bytes, codes, false, true};
ghost use Rattle.text_base.specs.Reasons.{selector_word};
ghost use Rattle.page_records.specs.Scripts.{IsRecordFault};
ghost use Rattle.json_lines.specs.Lines.{reason_text};
ghost use Rattle.extract_call.specs.Answers.{answer_of};
ghost use Rattle.extract_call.specs.CssLines.{IsCssLine};
ghost use Rattle.extract_call.specs.Plans.{IsScriptRefused};

use css_parser::parse_selectors;
use css_selectors::Dialect;
use css_translate::translate;
use json_lines::{css_line, reason_line};
use std::alloc::Global;
use text_base::{NoMemory, ScriptFault, SelectorFault};

/// A line without its line feed, and whether it holds a refusal.
#[derive(Drop)]
pub struct Line {
    pub text: String,
    pub refused: bool,
}

/// The reason as it is printed.
fn reason_of(alloc: Global, family: &str, word: &str) -> Result<String, NoMemory>
    ensures { IfOk result (λ s. string_bytes s ≡ family.now ++ word.now) }
{
    let Ok(mut reason) = String::from_str(alloc, family) else {
        return Err(NoMemory);
    };
    match reason.push_str(word) {
        Ok(()) => Ok(reason),
        Err(_) => Err(NoMemory),
    }
}

/// The line of a refusal.
fn refusal(alloc: Global, family: &str, word: &str) -> Result<Line, NoMemory>
    ensures { IfOk result (λ line. answer_of line ≡ record { text = reason_text (family.now ++ word.now); refused = true }) }
{
    let reason = reason_of(alloc, family, word)?;
    let text = reason_line(alloc, reason.as_str())?;
    Ok(Line {
        text,
        refused: true,
    })
}

/// The line of a selector that is refused.
fn css_refusal(alloc: Global, fault: SelectorFault) -> Result<Line, NoMemory>
    ensures { IfOk result (λ line. answer_of line ≡ record { text = reason_text (codes "css." ++ selector_word fault); refused = true }) }
{
    refusal(alloc, "css.", fault.word())
}

/// The line of a selector list: its specificity and its XPath, or why it is refused.
pub fn css_answer(alloc: Global, dialect: Dialect, text: &str) -> Result<Line, NoMemory>
    ensures { IfOk result (λ line. IsCssLine dialect text.now (answer_of line)) }
{
    match parse_selectors(alloc, text) {
        Ok(list) => match translate(alloc, dialect, &list) {
            Ok(xpath) => {
                let text = css_line(alloc, &list, xpath.as_str())?;
                Ok(Line {
                    text,
                    refused: false,
                })
            }
            Err(SelectorFault::XPathLong) => css_refusal(alloc, SelectorFault::XPathLong),
            Err(_) => Err(NoMemory),
        },
        Err(SelectorFault::Memory) => Err(NoMemory),
        Err(fault) => css_refusal(alloc, fault),
    }
}

/// The line of a script that is refused as a whole.
pub fn script_answer(alloc: Global, script: &str, fault: ScriptFault) -> Result<Line, NoMemory>
    requires { IsRecordFault script.now fault }
    ensures { IfOk result (λ line. IsScriptRefused script.now (answer_of line)) }
{
    let _ = script;
    refusal(alloc, "script.", fault.word())
}
