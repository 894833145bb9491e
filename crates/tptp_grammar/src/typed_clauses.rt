// The productions of typed clauses, one function for each. `room` is the nesting that is left.
ghost use Rattle.std.specs.Prelude.{◌≤◌, ◌-◌, length, true};
ghost use Rattle.first_fault.specs.code.Reading.{tail};
ghost use Rattle.tptp_base.specs.declared.surface.Quant.TheVariants as quants;
ghost use Rattle.tptp_grammar.specs.code.ReadFormulas as formulas;
ghost use Rattle.tptp_grammar.specs.code.ReadTypedClauses as spec;
ghost use Rattle.tptp_grammar.specs.code.Outcomes.{Reads};

use crate::clauses::clause;
use crate::cursor::Cursor;
use crate::formulas::bracket;
use crate::stop::Stop;
use std::alloc::Global;
use tptp_base::{BoundVar, Boxed, List, Quant, Surface};
use tptp_lexer::{Mark, Token};

// A typed clause behind the next token, nested deeper by `levels`.
#[cycle(typed_clause)]
fn nested(
    alloc: Global,
    tokens: &mut Cursor<'_>,
    room: usize,
    levels: usize,
) -> Result<Surface, Stop>
    requires { 1 ≤ levels }
    ensures { Reads (spec.deeper_clause room (levels - 1) tokens.old (tail tokens.old)) result tokens.new }
{
    if room < levels {
        return Err(Stop::TooDeep);
    }
    tokens.skip();
    typed_clause(alloc, tokens, room - levels)
}

// What follows the bound variables.
#[cycle(typed_clause)]
#[tactic(auto, unfolding(crate::specs::code::ReadFormulas::scope))]
fn scope(
    alloc: Global,
    tokens: &mut Cursor<'_>,
    room: usize,
    names: List<BoundVar>,
) -> Result<Surface, Stop>
    requires { 1 ≤ length names }
    ensures { Reads (formulas.scope (spec.deeper_clause room) quants.All names tokens.old) result tokens.new }
{
    match tokens.peek() {
        Some(Token::Mark(Mark::Colon)) => {
            let body = nested(alloc, tokens, room, names.len())?;
            Ok(Surface::Bind(Quant::All, names, Boxed::new(alloc, body)?))
        }
        _ => Err(Stop::Unexpected),
    }
}

// Bound variables and their scope.
#[cycle(typed_clause)]
#[tactic(auto, unfolding(crate::specs::code::ReadFormulas::quantified))]
fn quantified(alloc: Global, tokens: &mut Cursor<'_>, room: usize) -> Result<Surface, Stop>
    ensures { Reads (formulas.quantified true room (spec.deeper_clause room) quants.All tokens.old) result tokens.new }
{
    let names = bracket(alloc, tokens, true, room)?;
    scope(alloc, tokens, room, names)
}

/// A typed clause: a clause, or one under quantifiers.
#[cycle(typed_clause)]
#[tactic(auto, unfolding(crate::specs::code::ReadTypedClauses::typed_clause, crate::specs::code::ReadTypedClauses::typed_clause_by))]
pub fn typed_clause(alloc: Global, tokens: &mut Cursor<'_>, room: usize) -> Result<Surface, Stop>
    ensures { Reads (spec.typed_clause room tokens.old) result tokens.new }
{
    match tokens.peek() {
        Some(Token::Mark(Mark::Bang)) => {
            tokens.skip();
            quantified(alloc, tokens, room)
        }
        _ => clause(alloc, tokens, room),
    }
}
