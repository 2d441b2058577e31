//! The forms that the program's words may have.
ghost use Rattle.std.specs.Prelude.{◌≡◌, [], ◌∷◌, map, string_bytes};
ghost use Rattle.extract_call.specs.Words.{dialect_of, count_of, read, command_of};

use css_selectors::Dialect;
use text_base::is_digit;

/// What the words ask for.
#[derive(Clone, Copy)]
pub enum Form<'w> {
    /// `css DIALECT SELECTOR`: the line of the selector.
    Css(Dialect, &'w str),
    /// `run DIALECT SCRIPT PAGE..`: a line for each page.
    Run(Dialect, &'w str, &'w [String]),
    /// `bulk N`: the line of the bulk page of N items.
    Bulk(u32),
    /// `clean PAGE`: the canonical markup of the page.
    Clean(&'w String),
    /// None of the forms.
    Other,
}

/// The dialect that the word names.
#[tactic(auto, unfolding(crate::specs::Words::dialect_of))]
pub fn dialect_of(word: &str) -> Option<Dialect>
    ensures { result ≡ dialect_of word.now }
{
    if word == "generic" {
        return Some(Dialect::Generic);
    }
    if word == "html" {
        return Some(Dialect::Html);
    }
    None
}

/// The number from 1 to 20,000 that one to five digits spell.
fn count_of(word: &str) -> Option<u32>
    ensures { result ≡ count_of word.now }
{
    let bytes = word.as_bytes();
    if bytes.is_empty() {
        return None;
    }
    if bytes.len() > 5 {
        return None;
    }
    let mut value: u32 = 0;
    for byte in bytes {
        if !is_digit(*byte) {
            return None;
        }
        value = value * 10 + (*byte - b'0') as u32;
    }
    if value < 1 {
        return None;
    }
    if value > 20_000 {
        return None;
    }
    Some(value)
}

/// `bulk N` or `clean PAGE`.
fn of_two<'w>(first: &'w str, second: &'w String) -> Form<'w>
    ensures { command_of result ≡ read (first.now ∷ string_bytes second.now ∷ []) }
{
    if first == "bulk" {
        return match count_of(second.as_str()) {
            Some(n) => Form::Bulk(n),
            None => Form::Other,
        };
    }
    if first == "clean" {
        return Form::Clean(second);
    }
    Form::Other
}

/// What the words say.
pub fn read(words: &[String]) -> Form<'_>
    ensures { command_of result ≡ read (map string_bytes words.now) }
{
    if let [first, second] = words {
        return of_two(first.as_str(), second);
    }
    if let [first, dialect, selector] = words {
        if first.as_str() != "css" {
            return Form::Other;
        }
        let Some(dialect) = dialect_of(dialect.as_str()) else {
            return Form::Other;
        };
        return Form::Css(dialect, selector.as_str());
    }
    let [first, dialect, script, names @ ..] = words else {
        return Form::Other;
    };
    if first.as_str() != "run" {
        return Form::Other;
    }
    let Some(dialect) = dialect_of(dialect.as_str()) else {
        return Form::Other;
    };
    Form::Run(dialect, script.as_str(), names)
}
