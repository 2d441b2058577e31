//! The forms that the program's words may have.
ghost use Rattle.std.specs.Prelude.{◌≡◌, [], ◌∷◌, map, string_bytes};
ghost use Rattle.why_call.specs.Words.{read, question_of};

use css_selectors::Dialect;
use extract_call::dialect_of;

/// What the words ask for.
#[derive(Clone, Copy)]
pub enum Form<'w> {
    /// `css DIALECT SELECTOR`: why the selector is refused.
    Css(Dialect, &'w str),
    /// `xpath EXPRESSION`: why the expression is refused.
    XPath(&'w str),
    /// `script DIALECT SCRIPT`: why the script is refused, or which of its fields and blocks are.
    Script(Dialect, &'w str),
    /// `page PAGE`: why the page is refused.
    Page(&'w String),
    /// None of the forms.
    Other,
}

/// `xpath EXPRESSION` or `page PAGE`.
fn of_two<'w>(first: &'w str, second: &'w String) -> Form<'w>
    ensures { question_of result ≡ read (first.now ∷ string_bytes second.now ∷ []) }
{
    if first == "xpath" {
        return Form::XPath(second.as_str());
    }
    if first == "page" {
        return Form::Page(second);
    }
    Form::Other
}

/// `css DIALECT SELECTOR` or `script DIALECT SCRIPT`.
fn of_three<'w>(first: &'w str, dialect: &'w str, text: &'w str) -> Form<'w>
    ensures { question_of result ≡ read (first.now ∷ dialect.now ∷ text.now ∷ []) }
{
    let Some(dialect) = dialect_of(dialect) else {
        return Form::Other;
    };
    if first == "css" {
        return Form::Css(dialect, text);
    }
    if first == "script" {
        return Form::Script(dialect, text);
    }
    Form::Other
}

/// What the words say.
pub fn read(words: &[String]) -> Form<'_>
    ensures { question_of result ≡ read (map string_bytes words.now) }
{
    match words {
        [first, second] => of_two(first.as_str(), second),
        [first, dialect, text] => of_three(first.as_str(), dialect.as_str(), text.as_str()),
        _ => Form::Other,
    }
}
