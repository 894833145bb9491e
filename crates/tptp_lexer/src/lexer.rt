//! The tokens of a part of a text.
ghost use Rattle.std.specs.Prelude.{◌≡◌, ◌<◌, ◌≤◌, ◌-◌, List, Result, length, IfOk};
ghost use Rattle.tptp_lexer.specs.declared.fault.LexFault.{LexFault};
ghost use Rattle.tptp_lexer.specs.declared.token.Token.{Token};
ghost use Rattle.tptp_lexer.specs.declared.token.Tokens.{Tokens};
ghost use Rattle.tptp_lexer.specs.Answer.{IsWithin, Answers, IsOne, Gives, part};
ghost use Rattle.tptp_lexer.specs.code.Step.{Stepped};
ghost use Rattle.tptp_lexer.specs.Tokenized.{Tokenized, bare_items};

use crate::advance::place_behind;
use crate::scan::{Front, front_of};
use crate::{LexFault, Style, TokenList, Tokens};
use std::alloc::Global;
use tptp_base::{FILE_SIZE, LimitName, Region, place_at};

/// The tokens of a region of a text, with their places in the whole text.
///
/// `Limit` comes where the region has more bytes than a file may have, `Byte` at the first place where no token,
/// blank or comment begins, and `Unfinished` where the quote or block comment that begins there is open at the
/// region's end. The text is gone through for its faults, and no token is kept: `TokenList` finds them once more.
pub fn tokens(
    _alloc: Global,
    file: u32,
    text: &[u8],
    region: Region,
    style: Style,
) -> Result<Tokens<'_>, LexFault>
    requires { IsWithin text.now region }
    // The tokens, or the fault at its place.
    ensures answer { Answers file text.now region style result }
    // There is no other answer, but that memory may be wanting.
    ensures only { (other : Result Tokens LexFault) → Answers file text.now region style other → IsOne result other }

    // Apart from their places: what comes is a token list of the region, and the list that it has comes.
    ensures tokenized { IfOk result (λ tokens. Tokenized style (part text.now region) (bare_items tokens.items)) }
    ensures gives { (tokens : List Token) → Tokenized style (part text.now region) tokens
        → region.end - region.start ≤ FILE_SIZE → Gives tokens result }
{
    if region.end - region.start > FILE_SIZE {
        return Err(LexFault::Limit(LimitName::FileSize));
    }
    let mut at = region.start;
    while at < region.end {
        at = step(file, text, region.end, style, at)?;
    }
    let start = place_at(file, text, region.start);
    Ok(Tokens {
        items: TokenList::new(text, start, region.end, style),
        end: place_behind(text, start, at),
        style,
    })
}

// Passes over the blanks or the token at an offset, and gives the offset behind.
fn step(file: u32, text: &[u8], end: u64, style: Style, at: u64) -> Result<u64, LexFault>
    requires before { at < end }
    requires within { end ≤ length text.now }
    ensures { Stepped style file text.now end at result }
{
    let rest = &text[at as usize..end as usize];
    match front_of(style, rest) {
        Front::Blanks(len) => Ok(at + len as u64),
        Front::Token(_, len) => Ok(at + len as u64),
        Front::Open => Err(LexFault::Unfinished(place_at(file, text, at))),
        Front::Nothing => Err(LexFault::Byte(place_at(file, text, at))),
    }
}
