// What the text of a model spells, and what is said of its first fault.
ghost use Rattle.std.specs.Prelude.{◌≡◌, ◌⊎◌, Ok, Err, IfOk};
ghost use Rattle.read_problems.specs.Answer.{ending_of};
ghost use Rattle.tptp_commands.specs.Modelled.{IsModelLexed, IsModelRefusal, SpellsModel};
ghost use Rattle.read_problems.specs.Spelled.{SaysLexFault};
ghost use Rattle.read_problems.specs.Stop.{HasCause, IfRefused, IfStopped};
ghost use Rattle.tptp_lexer.specs.declared.fault.LexFault.{LexFault as lex_fault};

use fi_model::as_words;
use read_problems::{Halt, say_grammar_fault, say_lex_fault};
use std::alloc::Global;
use szs_report::region;
use tptp_base::{Item, List};
use tptp_grammar::parse;
use tptp_lexer::{Style, Tokens, tokens};

/// The items that the text of a model spells, with words in place of its distinct objects. The first fault of the text
/// is refused.
#[tactic(auto, using(crate::proofs::Models::spells_model))]
pub fn read_model_items(alloc: Global, name: &str, text: &[u8]) -> Result<List<Item>, Halt>
    ensures spelled { IfOk result (λ items. SpellsModel text.now items) }
    ensures refused { IfRefused result (λ answer. IsModelRefusal name.now text.now (ending_of answer)) }
    ensures status { IfRefused result (λ answer. (answer.status ≡ 3) ⊎ (answer.status ≡ 7)) }
    ensures cause { IfStopped result (λ stop. HasCause stop ⊥ ⊥) }
{
    let tokens = read_model_tokens(alloc, name, text)?;
    let words = as_words(tokens);
    match parse(alloc, &words) {
        Ok(items) => Ok(items),
        Err(fault) => Err(Halt::Refused(say_grammar_fault(alloc, name.as_bytes(), fault)?)),
    }
}

// The tokens of the text.
fn read_model_tokens<'a>(alloc: Global, name: &str, text: &'a [u8]) -> Result<Tokens<'a>, Halt>
    ensures lexed { IfOk result (λ tokens. IsModelLexed text.now (Ok tokens)) }
    ensures refused { IfRefused result (λ answer. (fault : lex_fault) × IsModelLexed text.now (Err fault)
        × SaysLexFault name.now fault (ending_of answer)) }
    ensures status { IfRefused result (λ answer. (answer.status ≡ 3) ⊎ (answer.status ≡ 7)) }
    ensures cause { IfStopped result (λ stop. HasCause stop ⊥ ⊥) }
{
    match tokens(alloc, 0, text, region(text), Style::Derivation) {
        Ok(tokens) => Ok(tokens),
        Err(fault) => Err(Halt::Refused(say_lex_fault(alloc, name.as_bytes(), fault)?)),
    }
}
