ghost use Rattle.std.specs.Prelude.{◌≡◌, ◌≢◌, ◌≤◌, ◌<◌, ◌+◌, ◌-◌, ◌↔◌, ◌⊎◌, IfOk, IfErr, IsErrOf, None, drop, encode_utf8_all, length, map};
ghost use Rattle.std.specs.Str.{chars};
ghost use Rattle.text_base.specs.Text.{IsPlace};
ghost use Rattle.text_base.specs.declared.reasons.XPathFault.TheVariants as fault;
ghost use Rattle.xpath_lexer.specs.Tokens.{Spells, token};
ghost use Rattle.xpath_lexer.specs.Places.{IsFault, Stand, lexeme_of, most_xpath, value_bytes};
ghost use Rattle.xpath_lexer.specs.inner.Stands.{IsNext, ValueStands};

use crate::sizes::{Run, end_of, token_size};
use crate::token::{XKind, XTok};
use std::alloc::Global;
use text_base::{Seq, Txt, XPathFault, bytes_from, part};

/// The most bytes of an XPath text.
pub const XPATH_LIMIT: usize = 1_048_576;

#[tactic(auto, using(crate::proofs::Next::encode_chars))]
fn copied(alloc: Global, text: &str) -> Result<Txt, XPathFault>
    ensures copy { IfOk result (λ t. t ≡ chars text.now) }
    ensures bytes { IfOk result (λ t. encode_utf8_all t ≡ text.now) }
    ensures memory { IfErr result (λ e. e ≡ fault.Memory) }
{
    match Txt::of(alloc, text) {
        Ok(copy) => Ok(copy),
        Err(_) => Err(XPathFault::Memory),
    }
}

/// The value of the token that stands between two places.
fn value_of(
    alloc: Global,
    text: &str,
    kind: XKind,
    from: usize,
    to: usize,
) -> Result<Txt, XPathFault>
    requires { ValueStands text.now kind from to }
    ensures value { IfOk result (λ t. t ≡ chars (value_bytes kind text.now from to)) }
    ensures bytes { IfOk result (λ t. encode_utf8_all t ≡ value_bytes kind text.now from to) }
    ensures memory { IfErr result (λ e. e ≡ fault.Memory) }
{
    match kind {
        XKind::Literal => copied(alloc, part(text, from + 1, to - 1)),
        _ => copied(alloc, part(text, from, to)),
    }
}

/// The token that begins at a place.
fn next_token(alloc: Global, text: &str, at: usize) -> Result<XTok, XPathFault>
    requires place { IsPlace text.now at }
    requires within { at ≤ length text.now }
    ensures found { IfOk result (λ w. IsNext text.now at w) }
    ensures none { IfErr result (λ e. e ≡ fault.Memory ⊎ e ≡ fault.Text × token (drop at text.now) ≡ None) }
{
    let Some((kind, size)) = token_size(bytes_from(text, at)) else {
        return Err(XPathFault::Text);
    };
    let to = at + size;
    let value = value_of(alloc, text, kind, at, to)?;
    Ok(XTok {
        kind,
        from: at,
        to,
        value,
    })
}

/// The tokens of an XPath text, XPath 1.0, section 3.7. `from` and `to` are places in bytes.
///
/// `Long` is answered exactly where the text has more than `XPATH_LIMIT` bytes, and else `Text` where
/// no list of tokens spells it: at some place after white space no token begins.
pub fn xpath_tokens(alloc: Global, text: &str) -> Result<Seq<XTok>, XPathFault>
    ensures spelled { IfOk result (λ ws. Spells text.now (map lexeme_of ws)) }
    ensures places { IfOk result (λ ws. Stand text.now 0 ws) }
    ensures short { IfOk result (λ ws. length text.now ≤ most_xpath) }
    ensures long { most_xpath < length text.now → IsErrOf result fault.Long }
    ensures fault { IfErr result (λ e. e ≢ fault.Memory → IsFault text.now e) }
{
    if text.len() > XPATH_LIMIT {
        return Err(XPathFault::Long);
    }
    let mut found = Seq::new(alloc);
    let mut at = end_of(text.as_bytes(), Run::Space, 0);
    while at < text.len() {
        let next = next_token(alloc, text, at)?;
        at = end_of(text.as_bytes(), Run::Space, next.to);
        match found.push(next) {
            Ok(_) => {}
            Err(_) => return Err(XPathFault::Memory),
        }
    }
    Ok(found)
}
