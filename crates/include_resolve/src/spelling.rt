// What the text of a file spells.
ghost use Rattle.std.specs.Prelude.{◌≡◌, ◌≤◌, length, IfOk, IfErr};
ghost use Rattle.tptp_base.specs.declared.read.TheConstants.{FILE_SIZE as file_size};
ghost use Rattle.tptp_grammar.specs.Answers as parser;
ghost use Rattle.include_resolve.specs.code.Spelling.{IsTextFault, IsGrammarStop, IsNamed};
ghost use Rattle.include_resolve.specs.Texts.{IsSpelled};

use crate::{IncludeFault, TextFault};
use std::alloc::Global;
use tptp_base::{Item, List, Region, Text};
use tptp_grammar::{GrammarFault, parse};
use tptp_lexer::{LexFault, Style, Tokens, tokens};

/// The items of the text of a file, which has this number and this name.
pub fn spelled_items(
    alloc: Global,
    number: u32,
    name: &str,
    text: &[u8],
) -> Result<List<Item>, IncludeFault>
    requires { length text.now ≤ file_size }
    ensures items { IfOk result (λ items. IsSpelled number text.now items) }
    ensures fault { IfErr result (λ fault. IsTextFault number name.now text.now fault) }
{
    let region = Region {
        start: 0,
        end: text.len() as u64,
    };
    match tokens(alloc, number, text, region, Style::Problem) {
        Ok(tokens) => parsed_items(alloc, name, &tokens),
        Err(LexFault::Byte(place)) => Err(in_text(
            alloc,
            name,
            TextFault::Lex(LexFault::Byte(place)),
        )),
        Err(LexFault::Unfinished(place)) => Err(in_text(
            alloc,
            name,
            TextFault::Lex(LexFault::Unfinished(place)),
        )),
        Err(LexFault::Limit(_)) => unreachable!(),
        Err(LexFault::Memory) => Err(IncludeFault::Memory),
    }
}

// The items that the tokens of a file spell.
fn parsed_items(alloc: Global, name: &str, tokens: &Tokens<'_>) -> Result<List<Item>, IncludeFault>
    ensures items { IfOk result (λ items. parser.Answers tokens.now.style tokens.now.items tokens.now.end (Ok items)) }
    ensures fault { IfErr result (λ fault. IsGrammarStop name.now tokens.now fault) }
{
    match parse(alloc, tokens) {
        Ok(items) => Ok(items),
        Err(GrammarFault::Memory) => Err(IncludeFault::Memory),
        Err(fault) => Err(in_text(alloc, name, TextFault::Grammar(fault))),
    }
}

// The fault in the text of a file of this name.
fn in_text(alloc: Global, name: &str, fault: TextFault) -> IncludeFault
    ensures { IsNamed name.now fault result }
{
    match Text::from_slice(alloc, name.as_bytes()) {
        Ok(name) => IncludeFault::Text(name, fault),
        Err(_) => IncludeFault::Memory,
    }
}
