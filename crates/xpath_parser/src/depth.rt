ghost use Rattle.std.specs.Prelude.{◌≡◌, ◌≤◌, true, false, map};
ghost use Rattle.xpath_lexer.specs.Places.{lexeme_of};
ghost use Rattle.xpath_parser.specs.inner.Depth.{one};
ghost use Rattle.xpath_parser.specs.Terms.{IsShallow, is_open, is_close};

use xpath_lexer::{XKind, XTok};

/// The most brackets that may be open.
const MOST_OPEN: usize = 64;

/// 1 for an opening bracket, 0 for every other token.
fn opens(token: &XTok) -> usize
    ensures count { result ≡ one (is_open (lexeme_of token.now)) }
    ensures small { result ≤ 1 }
{
    match token.kind {
        XKind::OpenRound | XKind::OpenSquare => 1,
        _ => 0,
    }
}

/// 1 for a closing bracket, 0 for every other token.
fn closes(token: &XTok) -> usize
    ensures count { result ≡ one (is_close (lexeme_of token.now)) }
    ensures small { result ≤ 1 }
{
    match token.kind {
        XKind::CloseRound | XKind::CloseSquare => 1,
        _ => 0,
    }
}

/// Whether at no token more than 64 brackets are open.
pub fn is_shallow(tokens: &[XTok]) -> bool
    ensures shallow { result ≡ true → IsShallow (map lexeme_of tokens.now) }
    ensures deep { result ≡ false → IsShallow (map lexeme_of tokens.now) → ⊥ }
{
    let mut open = 0usize;
    let mut close = 0usize;
    for token in tokens {
        open += opens(token);
        close += closes(token);
        if open > close + MOST_OPEN {
            return false;
        }
    }
    true
}
