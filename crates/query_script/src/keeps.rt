//! What stands in the brackets of a step that keeps items by a test.
ghost use Rattle.std.specs.Prelude.{◌≡◌, IfOk};
ghost use Rattle.query_script.specs.inner.Reader.{read_keep};

use crate::cuts::trimmed;
use crate::names::{is_test_name, split_at};
use crate::steps::RawStep;
use crate::strings::read_string;
use std::alloc::Global;
use text_base::{NoMemory, Txt};

/// The step by the name and the string that its brackets hold, with a comma between.
pub(crate) fn read_keep(alloc: Global, text: &str) -> Result<Option<RawStep>, NoMemory>
    ensures { IfOk result (λ found. found ≡ read_keep text.now) }
{
    let Some((first, second)) = split_at(text, b',') else {
        return Ok(None);
    };
    let name = trimmed(first);
    if !is_test_name(name.as_bytes()) {
        return Ok(None);
    }
    match read_string(alloc, trimmed(second))? {
        None => Ok(None),
        Some(value) => Ok(Some(RawStep::Keep(Txt::of(alloc, name)?, value))),
    }
}
