//! Steps and positions that are counted, with no list.
ghost use Rattle.std.specs.Prelude.{◌≡◌, ◌≢◌, ◌<◌, ◌≤◌, ◌+◌, ◌^◌, ℕ, length, pos, IsTrue, IfSome, IfNone};
ghost use Rattle.doc_model.specs.Axes.{axis_list};
ghost use Rattle.xpath_values.specs.Numbers.{whole};
ghost use Rattle.xpath_values.specs.declared.value.Value.TheVariants as value;
ghost use Rattle.xpath_parser.specs.declared.expression.Func.TheVariants as f;
ghost use Rattle.xpath_parser.specs.declared.expression.Step.{out-Step};
ghost use Rattle.xpath_parser.specs.Denote as spec;
ghost use Rattle.xpath_eval.specs.inner.Steps.{IsLonePath, IsLoneStep, IsOnlyStep};

use crate::forms::put_if;
use doc_model::Axes;
use xpath_parser::{Expr, Func, Start, Step};
use xpath_values::{XNum, whole};

pub fn is_count(func: Func) -> bool
    ensures { IsTrue result → func ≡ f.Count }
{
    matches!(func, Func::Count)
}

/// The one step of a path, if it has no predicates.
fn only_step(steps: &[Step]) -> Option<&Step>
    ensures { IfSome result (λ s. IsOnlyStep steps.now s.now) }
{
    if steps.len() != 1 {
        return None;
    }
    let step = &steps[0];
    if step.predicates.len() != 0 {
        return None;
    }
    Some(step)
}

/// The step that the expressions are, if they are one step from the context row without predicates.
pub fn lone_step(es: &[Expr]) -> Option<&Step>
    ensures { IfSome result (λ s. IsLoneStep es.now s.now) }
{
    if es.len() != 1 {
        return None;
    }
    match &es[0] {
        Expr::Path(Start::Here, steps) => only_step(steps.as_slice()),
        _ => None,
    }
}

/// The same of one expression.
pub fn lone_path(e: &Expr) -> Option<&Step>
    ensures { IfSome result (λ s. IsLonePath e.now s.now) }
{
    match e {
        Expr::Path(Start::Here, steps) => only_step(steps.as_slice()),
        _ => None,
    }
}

/// How many rows a step without predicates gives from a row. It takes no memory.
pub fn axis_number<S: Axes>(source: &S, x: u32, step: &Step) -> XNum
    requires { x < length (S.document source.now) }
    ensures { result ≡ whole (pos (length (axis_list (S.document source.now) x (out-Step step.now).axis (out-Step step.now).test))) }
{
    whole(source.axis_count(x, step.axis, &step.test) as i64)
}

/// The place in a list of so many rows at which a position stands, if it is a position in it.
fn place_of(n: &i64, len: usize) -> Option<usize>
    ensures some { IfSome result (λ i. i < len) }
    ensures position { IfSome result (λ i. n.now ≡ pos (i + 1)) }
    ensures none { IfNone result ((j : ℕ) → 1 ≤ j → j ≤ len → n.now ≢ pos j) }
{
    let n = *n;
    if n < 1 {
        return None;
    }
    let i = (n - 1) as usize;
    if i < len { Some(i) } else { None }
}

/// Leaves the row at a position, if there is one.
pub fn only(n: &i64, rows: &mut Vec<u32>)
    requires { length rows.old.items < 2 ^ 32 }
    ensures { rows.new.items ≡ spec.kept_from (λ c. value.Num (whole n.now)) (length rows.old.items) 1 rows.old.items }
{
    match place_of(n, rows.len()) {
        None => rows.clear(),
        Some(i) => {
            let row = rows[i];
            put_if(rows, 0, row, true);
            rows.truncate(1);
        }
    }
}
