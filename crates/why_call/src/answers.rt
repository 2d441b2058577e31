//! What is written, as lines.
ghost use Rattle.std.specs.Prelude.{◌≡◌, IfOk};
ghost use Rattle.extract_call.specs.Answers.{answer_of};
ghost use Rattle.why_call.specs.Answers.{nothing, refused_at};

use extract_call::Line;
use refusal_texts::{Refusal, push_refusal};
use std::alloc::Global;
use text_base::NoMemory;

/// The line where nothing is refused.
pub fn nothing(alloc: Global) -> Result<Line, NoMemory>
    ensures { IfOk result (λ line. answer_of line ≡ nothing) }
{
    match String::from_str(alloc, "nothing is refused") {
        Ok(text) => Ok(Line {
            text,
            refused: false,
        }),
        Err(_) => Err(NoMemory),
    }
}

/// What is written of a refusal, at a place in bytes of the text.
pub fn refused_at(
    alloc: Global,
    refusal: &Refusal,
    text: &str,
    place: Option<usize>,
) -> Result<Line, NoMemory>
    ensures { IfOk result (λ line. answer_of line ≡ refused_at refusal.now text.now place) }
{
    let mut out = String::new(alloc);
    push_refusal(alloc, &mut out, refusal, text, place)?;
    Ok(Line {
        text: out,
        refused: true,
    })
}
