// What the text of a problem spells, and what is said of its first fault.
ghost use Rattle.std.specs.Prelude.{◌≡◌, ◌⊎◌, List, Ok, Err, IfOk, IfErr};
ghost use Rattle.canon_print.specs.Canonical.{canonical_text};
ghost use Rattle.tptp_base.specs.declared.item.Item.{Item as item};
ghost use Rattle.read_problems.specs.Answer.{ending_of};
ghost use Rattle.read_problems.specs.Spelled.{IsLexed, SpellsItems, IsTextRefusal, SaysLexFault, SaysGrammarFault};
ghost use Rattle.read_problems.specs.Stop.{HasCause, IfRefused, IfStopped};
ghost use Rattle.tptp_lexer.specs.declared.fault.LexFault.{LexFault as lex_fault};

use crate::saying::{over_limit, say_at};
use crate::stop::{Answer, Halt, Stop};
use canon_print::print_parsed;
use std::alloc::Global;
use tptp_base::{Region, Text};
use tptp_grammar::GrammarFault;
use tptp_lexer::{LexFault, Style, Tokens, tokens};

/// The canonical text of what the text of a file spells. The first fault of the text is refused.
pub fn print_text(alloc: Global, name: &str, text: &[u8]) -> Result<Text, Halt>
    ensures printed { IfOk result (λ printed. (items : List item) × SpellsItems text.now items
        × (printed ≡ canonical_text items)) }
    ensures refused { IfRefused result (λ answer. IsTextRefusal name.now text.now (ending_of answer)) }
    ensures status { IfRefused result (λ answer. (answer.status ≡ 3) ⊎ (answer.status ≡ 7)) }
    ensures cause { IfStopped result (λ stop. HasCause stop ⊥ ⊥) }
{
    let tokens = read_tokens(alloc, name, text)?;
    match print_parsed(alloc, &tokens) {
        Ok(printed) => Ok(printed),
        Err(fault) => Err(Halt::Refused(say_grammar_fault(alloc, name.as_bytes(), fault)?)),
    }
}

/// The tokens of the text.
pub fn read_tokens<'a>(alloc: Global, name: &str, text: &'a [u8]) -> Result<Tokens<'a>, Halt>
    ensures lexed { IfOk result (λ tokens. IsLexed text.now (Ok tokens)) }
    ensures refused { IfRefused result (λ answer. (fault : lex_fault) × IsLexed text.now (Err fault)
        × SaysLexFault name.now fault (ending_of answer)) }
    ensures status { IfRefused result (λ answer. (answer.status ≡ 3) ⊎ (answer.status ≡ 7)) }
    ensures cause { IfStopped result (λ stop. HasCause stop ⊥ ⊥) }
{
    let whole = Region {
        start: 0,
        end: text.len() as u64,
    };
    match tokens(alloc, 0, text, whole, Style::Problem) {
        Ok(tokens) => Ok(tokens),
        Err(fault) => Err(Halt::Refused(say_lex_fault(alloc, name.as_bytes(), fault)?)),
    }
}

/// What is said of a fault of the lexer, if memory is not wanting.
pub fn say_lex_fault(alloc: Global, name: &[u8], fault: LexFault) -> Result<Answer, Stop>
    ensures said { IfOk result (λ answer. SaysLexFault name.now fault (ending_of answer)) }
    ensures status { IfOk result (λ answer. (answer.status ≡ 3) ⊎ (answer.status ≡ 7)) }
    ensures cause { IfErr result (λ stop. HasCause stop ⊥ ⊥) }
{
    match fault {
        LexFault::Byte(place) => Ok(say_at(alloc, 3, name, place, b"no token begins here")?),
        LexFault::Unfinished(place) => Ok(say_at(
            alloc,
            3,
            name,
            place,
            b"unfinished quote or comment",
        )?),
        LexFault::Limit(limit) => Ok(over_limit(alloc, name, limit)?),
        LexFault::Memory => Err(Stop::Memory),
    }
}

/// What is said of a fault of the parser, if memory is not wanting.
pub fn say_grammar_fault(alloc: Global, name: &[u8], fault: GrammarFault) -> Result<Answer, Stop>
    ensures said { IfOk result (λ answer. SaysGrammarFault name.now fault (ending_of answer)) }
    ensures status { IfOk result (λ answer. (answer.status ≡ 3) ⊎ (answer.status ≡ 7)) }
    ensures cause { IfErr result (λ stop. HasCause stop ⊥ ⊥) }
{
    match fault {
        GrammarFault::Token(place) => Ok(say_at(alloc, 3, name, place, b"unexpected token")?),
        GrammarFault::Profile(place) => Ok(say_at(alloc, 3, name, place, b"not in this profile")?),
        GrammarFault::End(place) => Ok(say_at(alloc, 3, name, place, b"unexpected end")?),
        GrammarFault::Deep(place) => Ok(say_at(alloc, 7, name, place, b"limit nesting")?),
        GrammarFault::Memory => Err(Stop::Memory),
    }
}
