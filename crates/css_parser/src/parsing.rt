ghost use Rattle.std.specs.Prelude.{◌≡◌, IfOk, IfErr};
ghost use Rattle.css_selectors.specs.Texts.{AreTexts};
ghost use Rattle.css_selectors.specs.WellMade.{WellMade};
ghost use Rattle.css_parser.specs.Selecting.{Accepts, IsUnlisted};

use crate::grammar::list;
use crate::lists::list_of;
use crate::refusals::refusal;
use css_lexer::css_tokens;
use css_selectors::SelectorList;
use std::alloc::Global;
use text_base::SelectorFault;

/// The list of selectors that a text is, after Selectors Level 3, section 10, with `:is`, `:not` and
/// `:where` of lists of compounds and `:has` of lists of relative selectors, after Selectors Level 4,
/// sections 4.2 to 4.5.
///
/// `Long` where the text has more than 16,384 bytes, else `Text` where no token begins at a place,
/// else `Syntax` where the grammar reads the tokens as no list, else the first from left to right of
/// `Prefix`, `UnknownPseudo`, `Nested`, `OfType`, `Number` and `PseudoElement`. `Memory` is want of
/// memory.
///
/// However deep choices stand in each other, no call goes deeper than eight of them. Each token is
/// read at most twice for the choices around it, and once more for each Function around it that is
/// no choice. So the time is at most in proportion to the square of the text's length.
#[tactic(auto, using(crate::proofs::SelectingLemmas::accepted, crate::proofs::SelectingLemmas::unread, crate::proofs::SelectingLemmas::refused, crate::proofs::SelectingLemmas::unlexed, css_lexer::proofs::TokenPlaces::all_inside))]
pub fn parse_selectors(alloc: Global, text: &str) -> Result<SelectorList, SelectorFault>
    ensures ok { IfOk result (Accepts text.now) }
    ensures well_made { IfOk result WellMade }
    ensures texts { IfOk result AreTexts }
    ensures fault { IfErr result (IsUnlisted text.now) }
{
    let tokens = match css_tokens(alloc, text) {
        Ok(tokens) => tokens,
        Err(fault) => return Err(fault),
    };
    let found = match list(alloc, text, tokens.as_slice()) {
        Ok(found) => found,
        Err(fault) => return Err(fault),
    };
    match refusal(found.as_slice()) {
        Some(fault) => Err(fault),
        None => match list_of(alloc, found.as_slice()) {
            Ok(list) => Ok(list),
            Err(_) => Err(SelectorFault::Memory),
        },
    }
}
