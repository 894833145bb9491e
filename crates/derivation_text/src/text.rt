// What the text of a derivation spells.
ghost use Rattle.std.specs.Prelude.{◌≡◌, ◌<◌, ◌≤◌, ◌^◌, Ok, Err, IfOk, IfErr, length};
ghost use Rattle.tptp_base.specs.declared.read.TheConstants.{FILE_SIZE as file_size};
ghost use Rattle.derivation_text.specs.Texts.{IsRegionLexed, IsTextFault, RegionSpells};

use crate::fault::DerivationFault;
use std::alloc::Global;
use szs_report::region;
use tptp_base::{Item, List};
use tptp_grammar::parse;
use tptp_lexer::{Style, Tokens, tokens};

/// The items that a text spells.
pub fn items_of(alloc: Global, text: &[u8]) -> Result<List<Item>, DerivationFault>
    requires { length text.now ≤ file_size }
    ensures spelled { IfOk result (λ items. RegionSpells text.now items) }
    ensures few { IfOk result (λ items. length items < 2 ^ 32) }
    ensures fault { IfErr result (λ fault. IsTextFault text.now fault) }
{
    let tokens = tokens_of(alloc, text)?;
    match parse(alloc, &tokens) {
        Ok(items) => Ok(items),
        Err(fault) => Err(DerivationFault::Grammar(fault)),
    }
}

// The tokens of a text.
fn tokens_of(alloc: Global, text: &[u8]) -> Result<Tokens<'_>, DerivationFault>
    ensures lexed { IfOk result (λ tokens. IsRegionLexed text.now (Ok tokens)) }
    ensures fault { IfErr result (λ fault. IsTextFault text.now fault) }
{
    match tokens(alloc, 0, text, region(text), Style::Derivation) {
        Ok(tokens) => Ok(tokens),
        Err(fault) => Err(DerivationFault::Lex(fault)),
    }
}
