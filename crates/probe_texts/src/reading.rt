// Tokens and items.
ghost use Rattle.first_fault.specs.Nesting.{FirstOver};
ghost use Rattle.std.specs.Prelude.{IfOk, List, Result, ◌-◌, ◌<◌, ◌≡◌, ◌≤◌};
ghost use Rattle.tptp_base.specs.declared.item.Item.{Item};
ghost use Rattle.tptp_grammar.specs.Answers as answers;
ghost use Rattle.tptp_grammar.specs.Faults as faults;
ghost use Rattle.tptp_grammar.specs.Files.{IsFile, Spells, SpellsWithin};
ghost use Rattle.tptp_grammar.specs.code.ReadItems as items;
ghost use Rattle.tptp_grammar.specs.Tokens.{Tokens as NestedTokens};
ghost use Rattle.tptp_lexer.specs.Answer.{Answers, Gives, IsOne, IsWithin, part};
ghost use Rattle.tptp_lexer.specs.Tokenized.{Tokenized, bare_items};
ghost use Rattle.tptp_lexer.specs.declared.fault.LexFault.{LexFault};
ghost use Rattle.tptp_lexer.specs.declared.token.Token.{Token};
ghost use Rattle.tptp_lexer.specs.declared.token.Tokens.{Tokens};

use crate::{Control, Probe};
use std::alloc::Global;
use tptp_base::{FILE_SIZE, Item, List, Region};
use tptp_grammar::{GrammarFault, parse};
use tptp_lexer::{LexFault, Style, Tokens, tokens};

/// Reads tokens and items.
pub trait Reading {
    /// The tokens of a region of a text, with their places in the whole text.
    fn tokens(
        alloc: Global,
        file: u32,
        text: &[u8],
        region: Region,
        style: Style,
    ) -> Result<Tokens<'_>, LexFault>
        requires { IsWithin text.now region }
        // The tokens, or the fault at its place.
        ensures answer { Answers file text.now region style result }
        // There is no other answer, but that memory may be wanting.
        ensures only { (other : Result Tokens LexFault) → Answers file text.now region style other →
            IsOne result other }

        // Apart from their places: what comes is a token list of the region, and the list that it has comes.
        ensures tokenized { IfOk result (λ tokens. Tokenized style (part text.now region) (bare_items tokens.items)) }
        ensures gives { (tokens : List Token) → Tokenized style (part text.now region) tokens
            → region.end - region.start ≤ FILE_SIZE → Gives tokens result };

    /// The one list of items that the tokens spell.
    fn parse(alloc: Global, tokens: &Tokens<'_>) -> Result<List<Item>, GrammarFault>
        // What is read is spelled so, nested no deeper than the limit. Each fault is the first one.
        ensures answers { answers.Answers tokens.now.style tokens.now.items tokens.now.end result }
        // What is spelled within the limit is read, unless memory runs out.
        ensures only { (items : List Item) → SpellsWithin tokens.now.style faults.max_nesting items tokens.now.items →
            answers.IsRead items result }
        // What is spelled with tokens that are nested deeper is refused for that, unless memory runs out.
        ensures deep { (items : List Item) (us over : NestedTokens) →
            IsFile tokens.now.style items tokens.now.items us → FirstOver faults.max_nesting us over →
            answers.IsRefusedAsDeep result }
        // The tokens spell at most one list of items.
        ensures one { (first second : List Item) → Spells tokens.now.style first tokens.now.items →
            Spells tokens.now.style second tokens.now.items → first ≡ second };
}

impl Reading for Probe {
    fn tokens(
        alloc: Global,
        file: u32,
        text: &[u8],
        region: Region,
        style: Style,
    ) -> Result<Tokens<'_>, LexFault> {
        tokens(alloc, file, text, region, style)
    }

    fn parse(alloc: Global, tokens: &Tokens<'_>) -> Result<List<Item>, GrammarFault> {
        parse(alloc, tokens)
    }
}

impl Reading for Control {
    fn tokens(
        alloc: Global,
        file: u32,
        text: &[u8],
        region: Region,
        style: Style,
    ) -> Result<Tokens<'_>, LexFault> {
        let part = Region {
            start: region.start,
            end: region.end,
        };
        match tokens(alloc, file, text, part, style) {
            Ok(tokens) => Ok(tokens),
            Err(fault) => Err(fault),
        }
    }

    fn parse(alloc: Global, tokens: &Tokens<'_>) -> Result<List<Item>, GrammarFault> {
        match parse(alloc, tokens) {
            Ok(items) => Ok(items),
            Err(fault) => Err(fault),
        }
    }
}
