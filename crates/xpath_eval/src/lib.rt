//! Evaluation of XPath 1.0 expressions in a document.
//!
//! An expression is evaluated by its form. The functions lead to themselves only through brackets, arguments and
//! predicates: operands, steps and signs stand in lists, which are looped over. What it costs:
//!
//! - A step walks its axis from each context row, and appends what it finds. If the rows come in order, they are only read
//!   once more; otherwise they are sorted, and repeats dropped: a step that finds m rows, repeats counted, takes time
//!   m log m at most beside the walks. No more than twice the document's rows and one list are held at a time.
//! - A child, attribute, self or parent step finds each row from one context row, or few, so a path of such steps takes
//!   time near the document's rows, however many context rows there are.
//! - On the descendant, descendant-or-self, following and preceding axes and on those of siblings, a context row whose
//!   rows another one gives too is not walked, so that each row is walked about once. Ancestor steps are walked from each
//!   context row.
//! - Predicates that are seen to ask about the row alone, with no `position()`, no `last()` and no number as their value,
//!   are asked once for each row, after the rows of all context rows have been put together. Other predicates are asked
//!   from each context row.
//! - A number that is written out as a predicate is looked up; where it is 1 and the first predicate, the walk ends at the
//!   first row, but on the preceding axes. `count` of one step without predicates makes no list.
//! - `or` and `and` stop at the first operand that decides.
//! - Where it is only asked whether a path gives a row, as in a predicate, an operand of `or` or `and`, or the argument of
//!   `not` there, the rows of all its steps but the last are found, and the last ends at the first row. Without predicates
//!   it makes no list; otherwise the rows on its axis are listed from one context row after the other, and asked one by one.
//! - Where it is only asked whether an expression is true, it takes no memory if that is one step without predicates, one
//!   comparison, or the test of one word of an attribute of the context row, as
//!   `contains(concat(' ', normalize-space(@class), ' '), ' w ')`; the sides of the comparison are texts, attributes of the
//!   context row by their names, numbers that are written out, counts of one step without predicates, and sums,
//!   differences, products and remainders of these numbers. Such an attribute is looked up.
//! - A call of a stored test asks it once, on the string values of its two arguments.
#![tactic(auto)]

mod axis_steps;
mod contexts;
mod counts;
mod deep_steps;
mod evaluation;
mod forms;
mod ordering;
mod place;
mod plain_numbers;
mod predicates;
mod quick;
mod step_rows;
mod tests_of_rows;
mod told;
mod top;
mod truths;
mod words;

pub use top::{eval, eval_with};
