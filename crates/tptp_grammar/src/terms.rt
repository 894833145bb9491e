// The productions of terms and atoms, one function for each. `room` is the nesting that is left.
ghost use Rattle.std.specs.Prelude.{◌≡◌, List};
ghost use Rattle.first_fault.specs.code.Reading.{separated};
ghost use Rattle.tptp_lexer.specs.declared.token.Token.{Token};
ghost use Rattle.tptp_base.specs.declared.surface.STerm.{out-STerm};
ghost use Rattle.tptp_grammar.specs.code.ReadTerms as spec;
ghost use Rattle.tptp_grammar.specs.code.Outcomes.{Reads};

use crate::cursor::Cursor;
use crate::lists::short_list;
use crate::stop::Stop;
use std::alloc::Global;
use tptp_base::{List, STerm, Surface, Text};
use tptp_lexer::{Mark, Token};

/// A variable, or a word with the arguments that may follow it.
#[cycle(term)]
#[tactic(auto, unfolding(crate::specs::code::ReadTerms::term, crate::specs::code::ReadTerms::term_by))]
pub fn term(alloc: Global, tokens: &mut Cursor<'_>, room: usize) -> Result<STerm, Stop>
    ensures { Reads (spec.term room tokens.old) result tokens.new }
{
    match tokens.peek() {
        Some(Token::Upper(name)) => {
            let name = name.to_text(alloc)?;
            tokens.skip();
            Ok(STerm::Var(name))
        }
        Some(Token::Lower(name)) => {
            let name = name.to_text(alloc)?;
            tokens.skip();
            applied(alloc, tokens, room, name)
        }
        Some(Token::Quoted(name)) => {
            let name = name.to_text(alloc)?;
            tokens.skip();
            applied(alloc, tokens, room, name)
        }
        _ => Err(Stop::Unexpected),
    }
}

// What follows a word.
#[cycle(term)]
#[tactic(auto, unfolding(crate::specs::code::ReadTerms::applied))]
fn applied(alloc: Global, tokens: &mut Cursor<'_>, room: usize, name: Text) -> Result<STerm, Stop>
    ensures { Reads (spec.applied (spec.arguments room) name tokens.old) result tokens.new }
{
    match tokens.peek() {
        Some(Token::Mark(Mark::Open)) => Ok(STerm::App(name, arguments(alloc, tokens, room)?)),
        _ => Ok(STerm::App(name, List::new(alloc))),
    }
}

// The arguments in their parentheses.
#[cycle(term)]
#[tactic(auto, unfolding(crate::specs::code::ReadTerms::arguments, crate::specs::code::ReadTerms::term))]
fn arguments(alloc: Global, tokens: &mut Cursor<'_>, room: usize) -> Result<List<STerm>, Stop>
    ensures { Reads (spec.arguments room tokens.old) result tokens.new }
{
    if room == 0 {
        return Err(Stop::TooDeep);
    }
    tokens.skip();
    let found = terms(alloc, tokens, room - 1)?;
    tokens.expect(Mark::Close)?;
    Ok(found)
}

// One or more terms with commas between them.
#[cycle(term)]
fn terms(alloc: Global, tokens: &mut Cursor<'_>, room: usize) -> Result<List<STerm>, Stop>
    ensures { Reads (separated (spec.is_mark Mark.Comma) (spec.term room) tokens.old) result tokens.new }
{
    let mut found = short_list(alloc);
    found.push(term(alloc, tokens, room)?)?;
    'members: while tokens.eat(Mark::Comma) {
        found.push(term(alloc, tokens, room)?)?;
    }
    Ok(found)
}

// The atom that a term is.
fn atom_of(term: STerm) -> Result<Surface, Stop>
    ensures { (rest : List Token) → Reads (spec.atom_of (out-STerm term) rest) result rest }
{
    match term {
        STerm::App(name, arguments) => Ok(Surface::Atom(name, arguments)),
        STerm::Var(_) => Err(Stop::Unexpected),
    }
}

// What follows the first term of an atom.
#[tactic(auto, unfolding(crate::specs::code::ReadTerms::equated))]
fn equated(
    alloc: Global,
    tokens: &mut Cursor<'_>,
    room: usize,
    left: STerm,
) -> Result<Surface, Stop>
    ensures { Reads (spec.equated room left tokens.old) result tokens.new }
{
    match tokens.peek() {
        Some(Token::Mark(Mark::Equal)) => {
            tokens.skip();
            Ok(Surface::Eq(left, term(alloc, tokens, room)?))
        }
        _ => atom_of(left),
    }
}

// What follows the first term of an atom or an inequation.
#[tactic(auto, unfolding(crate::specs::code::ReadTerms::compared))]
fn compared(
    alloc: Global,
    tokens: &mut Cursor<'_>,
    room: usize,
    left: STerm,
) -> Result<Surface, Stop>
    ensures { Reads (spec.compared room left tokens.old) result tokens.new }
{
    match tokens.peek() {
        Some(Token::Mark(Mark::NotEqual)) => {
            tokens.skip();
            Ok(Surface::Neq(left, term(alloc, tokens, room)?))
        }
        _ => equated(alloc, tokens, room, left),
    }
}

// `$true` or `$false`.
#[tactic(auto, unfolding(crate::specs::code::ReadTerms::constant))]
fn constant(tokens: &mut Cursor<'_>, word: &[u8]) -> Result<Surface, Stop>
    ensures { Reads (spec.constant word.now tokens.old) result tokens.new }
{
    if word == b"$true".as_slice() {
        tokens.skip();
        Ok(Surface::True)
    } else if word == b"$false".as_slice() {
        tokens.skip();
        Ok(Surface::False)
    } else {
        Err(Stop::Unexpected)
    }
}

/// An atom.
#[tactic(auto, unfolding(crate::specs::code::ReadTerms::atom))]
pub fn atom(alloc: Global, tokens: &mut Cursor<'_>, room: usize) -> Result<Surface, Stop>
    ensures { Reads (spec.atom room tokens.old) result tokens.new }
{
    match tokens.peek() {
        Some(Token::Dollar(word)) => {
            let word = word.as_slice();
            constant(tokens, word)
        }
        _ => {
            let left = term(alloc, tokens, room)?;
            equated(alloc, tokens, room, left)
        }
    }
}

/// An atom or an inequation.
#[tactic(auto, unfolding(crate::specs::code::ReadTerms::basic))]
pub fn basic(alloc: Global, tokens: &mut Cursor<'_>, room: usize) -> Result<Surface, Stop>
    ensures { Reads (spec.basic room tokens.old) result tokens.new }
{
    match tokens.peek() {
        Some(Token::Dollar(word)) => {
            let word = word.as_slice();
            constant(tokens, word)
        }
        _ => {
            let left = term(alloc, tokens, room)?;
            compared(alloc, tokens, room, left)
        }
    }
}
