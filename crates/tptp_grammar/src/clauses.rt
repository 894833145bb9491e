// The productions of clauses, one function for each. `room` is the nesting that is left.
ghost use Rattle.std.specs.Prelude.{◌∷◌};
ghost use Rattle.first_fault.specs.code.Reading.{separated, closed, mapped, tail};
ghost use Rattle.tptp_base.specs.declared.surface.Surface.TheVariants as fm;
ghost use Rattle.tptp_grammar.specs.code.ReadTerms.{is_mark};
ghost use Rattle.tptp_grammar.specs.code.ReadClauses as spec;
ghost use Rattle.tptp_grammar.specs.code.Outcomes.{Reads};

use crate::cursor::Cursor;
use crate::lists::{push_read, short_list};
use crate::stop::Stop;
use crate::terms::{atom, basic};
use std::alloc::Global;
use tptp_base::{Boxed, List, Surface};
use tptp_lexer::{Mark, Token};

// An atom in parentheses.
#[tactic(auto, unfolding(crate::specs::code::ReadClauses::atom_open))]
fn atom_open(alloc: Global, tokens: &mut Cursor<'_>, room: usize) -> Result<Surface, Stop>
    ensures { Reads (spec.atom_open room tokens.old) result tokens.new }
{
    if room == 0 {
        return Err(Stop::TooDeep);
    }
    tokens.skip();
    let found = atom(alloc, tokens, room - 1);
    tokens.closed(found, Mark::Close)
}

// What follows the sign of a negative literal.
#[tactic(auto, unfolding(crate::specs::code::ReadClauses::negated))]
fn negated(alloc: Global, tokens: &mut Cursor<'_>, room: usize) -> Result<Surface, Stop>
    ensures { Reads (spec.negated room tokens.old) result tokens.new }
{
    match tokens.peek() {
        Some(Token::Mark(Mark::Open)) => atom_open(alloc, tokens, room),
        _ => atom(alloc, tokens, room),
    }
}

// A negative literal.
#[tactic(auto, unfolding(crate::specs::code::ReadClauses::negative))]
fn negative(alloc: Global, tokens: &mut Cursor<'_>, room: usize) -> Result<Surface, Stop>
    ensures { Reads (spec.negative room tokens.old) result tokens.new }
{
    if room == 0 {
        return Err(Stop::TooDeep);
    }
    tokens.skip();
    let found = Boxed::new(alloc, negated(alloc, tokens, room - 1)?)?;
    Ok(Surface::Not(found))
}

// A literal.
#[tactic(auto, unfolding(crate::specs::code::ReadClauses::literal))]
fn literal(alloc: Global, tokens: &mut Cursor<'_>, room: usize) -> Result<Surface, Stop>
    ensures { Reads (spec.literal room tokens.old) result tokens.new }
{
    match tokens.peek() {
        Some(Token::Mark(Mark::Tilde)) => negative(alloc, tokens, room),
        _ => basic(alloc, tokens, room),
    }
}

// The first literal and the further ones, with a bar before each of them. The cursor stands at the first bar.
fn literal_list(
    alloc: Global,
    tokens: &mut Cursor<'_>,
    room: usize,
    first: Surface,
) -> Result<List<Surface>, Stop>
    ensures { Reads (mapped (λ fs. first
        ∷ fs) (separated (is_mark Mark.Bar) (spec.literal room) (tail tokens.old))) result tokens.new }
{
    tokens.skip();
    let mut found = short_list(alloc);
    found.push(first)?;
    push_read(&mut found, literal(alloc, tokens, room))?;
    'members: while tokens.eat(Mark::Bar) {
        push_read(&mut found, literal(alloc, tokens, room))?;
    }
    Ok(found)
}

// The further literals of a clause with bars.
fn disjunction(
    alloc: Global,
    tokens: &mut Cursor<'_>,
    room: usize,
    first: Surface,
) -> Result<Surface, Stop>
    ensures { Reads (mapped (λ fs. fm.Or (first
        ∷ fs)) (separated (is_mark Mark.Bar) (spec.literal room) (tail tokens.old))) result tokens.new }
{
    let all = literal_list(alloc, tokens, room, first)?;
    Ok(Surface::Or(all))
}

// What follows the first literal.
#[tactic(auto, unfolding(crate::specs::code::ReadClauses::literals))]
fn literals(
    alloc: Global,
    tokens: &mut Cursor<'_>,
    room: usize,
    first: Surface,
) -> Result<Surface, Stop>
    ensures { Reads (spec.literals room first tokens.old) result tokens.new }
{
    match tokens.peek() {
        Some(Token::Mark(Mark::Bar)) => disjunction(alloc, tokens, room, first),
        _ => Ok(first),
    }
}

/// A clause.
#[cycle(clause)]
#[tactic(auto, unfolding(crate::specs::code::ReadClauses::clause, crate::specs::code::ReadClauses::clause_by))]
pub fn clause(alloc: Global, tokens: &mut Cursor<'_>, room: usize) -> Result<Surface, Stop>
    ensures { Reads (spec.clause room tokens.old) result tokens.new }
{
    match tokens.peek() {
        Some(Token::Mark(Mark::Open)) => clause_open(alloc, tokens, room),
        _ => {
            let first = literal(alloc, tokens, room)?;
            literals(alloc, tokens, room, first)
        }
    }
}

// A clause in parentheses.
#[cycle(clause)]
#[tactic(auto, unfolding(crate::specs::code::ReadClauses::clause_open, crate::specs::code::ReadClauses::clause))]
fn clause_open(alloc: Global, tokens: &mut Cursor<'_>, room: usize) -> Result<Surface, Stop>
    ensures { Reads (spec.clause_open room tokens.old) result tokens.new }
{
    if room == 0 {
        return Err(Stop::TooDeep);
    }
    tokens.skip();
    let found = clause(alloc, tokens, room - 1)?;
    tokens.expect(Mark::Close)?;
    Ok(found)
}
