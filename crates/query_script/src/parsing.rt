ghost use Rattle.std.specs.Prelude.{[], IfOk, IfErr};
ghost use Rattle.std.specs.List.{AllByRecursion};
ghost use Rattle.test_registry.specs.View.{known};
ghost use Rattle.query_script.specs.Fields.{IsScript, IsScriptOver, IsUnread};
ghost use Rattle.query_script.specs.Ordered.{IsOrdered, IsOrderedOver, KeepsStored};

use crate::cuts::field_pieces;
use crate::fields::parse_fields_with;
use crate::script::Script;
use css_selectors::Dialect;
use std::alloc::Global;
use test_registry::Tests;
use text_base::{ScriptFault, Seq};

/// The most bytes of a script.
const MOST_SCRIPT: usize = 65_536;

/// The most fields of a script.
const MOST_FIELDS: usize = 32;

/// The fields of a script where these tests are stored, in the order of the text, each with its
/// steps or its reason.
///
/// `Long` where the text has more than 65,536 bytes, else `Fields` where it has more than 32
/// fields. `Memory` is want of memory. A css step is kept as its XPath, an xpath step and a re step
/// as the text of its string, a keep step as the kind of its test and the text of its string. The
/// time is in proportion to the text, and to the XPath of its selectors.
pub fn parse_script_with(
    alloc: Global,
    dialect: Dialect,
    text: &str,
    tests: &Tests,
) -> Result<Script, ScriptFault>
    ensures ok { IfOk result (λ script. IsScriptOver (known tests.now) dialect text.now script.fields) }
    ensures ordered { IfOk result (λ script. AllByRecursion (IsOrderedOver (known tests.now)) script.fields) }
    ensures stored { IfOk result (λ script. AllByRecursion (KeepsStored (known tests.now)) script.fields) }
    ensures fault { IfErr result (IsUnread text.now) }
{
    if text.len() > MOST_SCRIPT {
        return Err(ScriptFault::Long);
    }
    let Ok(pieces) = field_pieces(alloc, text) else {
        return Err(ScriptFault::Memory);
    };
    if pieces.len() > MOST_FIELDS {
        return Err(ScriptFault::Fields);
    }
    match parse_fields_with(alloc, dialect, pieces.as_slice(), tests) {
        Ok(fields) => Ok(Script {
            fields: Seq::from_vec(fields),
        }),
        Err(_) => Err(ScriptFault::Memory),
    }
}

/// The fields of a script where no tests are stored. A text is read and refused as by
/// `parse_script_with` over none.
pub fn parse_script(alloc: Global, dialect: Dialect, text: &str) -> Result<Script, ScriptFault>
    ensures ok { IfOk result (λ script. IsScript dialect text.now script.fields) }
    ensures ordered { IfOk result (λ script. AllByRecursion IsOrdered script.fields) }
    ensures stored { IfOk result (λ script. AllByRecursion (KeepsStored []) script.fields) }
    ensures fault { IfErr result (IsUnread text.now) }
{
    parse_script_with(alloc, dialect, text, &Tests::new(alloc))
}
