//! The test of one word of an attribute, `contains(concat(' ', normalize-space(@n), ' '), ' w ')`. Nothing here takes memory.
ghost use Rattle.std.specs.Prelude.{◌≡◌, ◌<◌, ◌∷◌, [], length, filter, map, IsTrue, IfSome};
ghost use Rattle.std.specs.Str.{chars, IsUtf8};
ghost use Rattle.doc_model.specs.Attributes.{is_attribute_of};
ghost use Rattle.doc_model.specs.Document.{rows};
ghost use Rattle.text_base.specs.Strings.{is_among};
ghost use Rattle.xpath_values.specs.Strings.{words};
ghost use Rattle.xpath_values.specs.declared.value.Value.TheVariants.{Bool as Truth};
ghost use Rattle.xpath_parser.specs.declared.expression.Expr.TheVariants.{Literal};
ghost use Rattle.xpath_parser.specs.declared.expression.Func.TheVariants as f;
ghost use Rattle.xpath_parser.specs.Conversions.{text_of_rows};
ghost use Rattle.xpath_parser.specs.Denote as spec;
ghost use Rattle.xpath_parser.specs.Functions as functions;
ghost use Rattle.xpath_eval.specs.inner.Places.{context};
ghost use Rattle.xpath_eval.specs.inner.Words.{IsNormalized, IsSpaced, IsWord, spaced};

use crate::place::Place;
use crate::quick::attribute_name;
use doc_model::{Axes, attribute_named};
use text_base::{NotSpace4, Space4, includes, is_empty, run_end};
use xpath_parser::{Expr, Func};

/// Whether the word is one of those of the text that white space parts.
fn has_word(text: &str, word: &str) -> bool
    ensures { result ≡ is_among (chars word.now) (words (chars text.now)) }
{
    let bytes = text.as_bytes();
    let mut at = run_end(text, &Space4, 0);
    while at < bytes.len() {
        let end = run_end(text, &NotSpace4, at);
        if &bytes[at..end] == word.as_bytes() {
            return true;
        }
        at = run_end(text, &Space4, end);
    }
    false
}

/// Whether a text is a word: it is not empty and has no space.
fn is_word(text: &str) -> bool
    ensures word { IsTrue result → IsWord (chars text.now) }
    ensures utf8 { IsUtf8 text.now }
{
    !is_empty(text) && !includes(text, " ")
}

/// The word that a text is with a space before it and one behind it.
fn inside_spaces(text: &str) -> Option<&str>
    ensures text { IfSome result (λ w. chars text.now ≡ spaced (chars w.now)) }
    ensures word { IfSome result (λ w. IsWord (chars w.now)) }
{
    let rest = text.strip_prefix(' ')?;
    let word = rest.strip_suffix(' ')?;
    if is_word(word) { Some(word) } else { None }
}

/// The word between two spaces that an expression is.
fn spaced_word(e: &Expr) -> Option<&str>
    ensures text { IfSome result (λ w. e.now ≡ Literal (spaced (chars w.now))) }
    ensures word { IfSome result (λ w. IsWord (chars w.now)) }
{
    match e {
        Expr::Literal(text) => inside_spaces(text.as_str()),
        _ => None,
    }
}

/// Whether an expression is the text of one space.
fn is_space(e: &Expr) -> bool
    ensures { IsTrue result → e.now ≡ Literal (32 ∷ []) }
{
    match e {
        Expr::Literal(text) => text.as_str() == " ",
        _ => false,
    }
}

/// The name `n`, where an expression is `normalize-space(@n)`.
fn normalized_name(e: &Expr) -> Option<&str>
    ensures { IfSome result (λ n. IsNormalized e.now (chars n.now)) }
{
    match e {
        Expr::Call(Func::NormalizeSpace, es) => {
            let es = es.as_slice();
            if es.len() != 1 {
                return None;
            }
            attribute_name(&es[0])
        }
        _ => None,
    }
}

/// The name `n`, where an expression is `concat(' ', normalize-space(@n), ' ')`.
fn spaced_name(e: &Expr) -> Option<&str>
    ensures { IfSome result (λ n. IsSpaced e.now (chars n.now)) }
{
    match e {
        Expr::Call(Func::Concat, es) => {
            let es = es.as_slice();
            if es.len() != 3 || !is_space(&es[0]) || !is_space(&es[2]) {
                return None;
            }
            normalized_name(&es[1])
        }
        _ => None,
    }
}

/// The text of the attribute of a row that has the name, or the empty text.
fn attribute_text<'a, S: Axes>(source: &'a S, x: u32, name: &str) -> &'a str
    requires { x < length (S.document source.now) }
    ensures { chars result.now ≡ text_of_rows (S.document source.now) (filter (is_attribute_of (S.document source.now) x (chars name.now)) (rows (S.document source.now))) }
{
    match attribute_named(source, x, &name) {
        Some(y) => source.text(y),
        None => "",
    }
}

/// Whether the attribute of the row has the word, where the arguments of `contains` ask for that.
fn word_told<S: Axes>(source: &S, es: &[Expr], place: Place) -> Option<bool>
    requires { place.row < length (S.document source.now) }
    ensures { IfSome result (λ b. functions.called (S.document source.now) f.Contains
        (map (λ e. spec.denote (S.document source.now) e (context place)) es.now) (context place) ≡ Truth b) }
{
    if es.len() != 2 {
        return None;
    }
    let name = spaced_name(&es[0])?;
    let word = spaced_word(&es[1])?;
    Some(has_word(attribute_text(source, place.row, name), word))
}

/// The value of a call, where it is this test.
pub fn call_told<S: Axes>(source: &S, func: Func, es: &[Expr], place: Place) -> Option<bool>
    requires { place.row < length (S.document source.now) }
    ensures { IfSome result (λ b. functions.called (S.document source.now) func
        (map (λ e. spec.denote (S.document source.now) e (context place)) es.now) (context place) ≡ Truth b) }
{
    match func {
        Func::Contains => word_told(source, es, place),
        _ => None,
    }
}
