ghost use Rattle.std.specs.Prelude.{length, ◌<◌, ◌^◌, IfOk, IsErrOf};
ghost use Rattle.xpath_parser.specs.declared.expression.Expr.{Expr as ExprValue};
ghost use Rattle.xpath_parser.specs.Grammar.{ReadsWhole};

use crate::cursor::Cursor;
use crate::expression::Expr;
use crate::laws::found_exactly;
use crate::refusal::Refusal;
use crate::term::Term;
use crate::tiers::expr;
use std::alloc::Global;

/// The expression that terms read as.
pub fn read(alloc: Global, terms: &[Term]) -> Result<Expr, Refusal>
    requires { length terms.now < 2 ^ 32 }
    ensures found { IfOk result (λ x. ReadsWhole terms.now x) }
    ensures syntax { IsErrOf result Refusal.Syntax → (x : ExprValue) → ReadsWhole terms.now x → ⊥ }
{
    // Reading from the left finds what the rules read.
    found_exactly();
    let mut cursor = Cursor::new(terms);
    let found = expr(alloc, &mut cursor, terms.len() + 1)?;
    if cursor.len() > 0 {
        return Err(Refusal::Syntax);
    }
    Ok(found)
}
