// Terms are read. The room is how deep trees may still nest. Each function has few values of its own, since as many
// calls of it may be open as trees may nest.
ghost use Rattle.first_fault.specs.code.Reading.{mapped};
ghost use Rattle.proof_log.specs.code.ReadWords.{number, listed, head};
ghost use Rattle.proof_log.specs.code.Names.{term_name, term_names};
ghost use Rattle.proof_log.specs.code.ReadTrees as spec;
ghost use Rattle.proof_log.specs.code.Outcomes.{Reads};

use crate::cursor::Cursor;
use crate::name::TermName;
use crate::room::list_for;
use crate::stop::Stop;
use crate::words::{deep_head, head, large, small};
use fof_terms::Term;
use std::alloc::Global;
use tptp_base::{Boxed, List};

/// A term.
#[cycle(term)]
#[tactic(auto, unfolding(crate::specs::code::ReadTrees::term))]
pub fn term(alloc: Global, text: &mut Cursor<'_>, room: usize) -> Result<Term, Stop>
    ensures { Reads (spec.term room text.old) result text.new }
{
    if room == 0 {
        Err(deep_head::<TermName>(text))
    } else {
        term_within(alloc, text, room - 1)
    }
}

// A term whose parts have this room.
#[cycle(term)]
fn term_within(alloc: Global, text: &mut Cursor<'_>, room: usize) -> Result<Term, Stop>
    ensures { Reads (spec.behind (head term_name term_names) (spec.term_by (spec.term room)) text.old) result text.new }
{
    match head(text)? {
        TermName::Var => variable(text),
        TermName::App => application(alloc, text, room),
    }
}

// A variable, behind its name.
fn variable(text: &mut Cursor<'_>) -> Result<Term, Stop>
    ensures { Reads (mapped (λ k. Term.Var k) (number 4294967295 text.old)) result text.new }
{
    let number = small(text)?;
    Ok(Term::Var(number))
}

// An application, behind its name.
#[cycle(term)]
fn application(alloc: Global, text: &mut Cursor<'_>, room: usize) -> Result<Term, Stop>
    ensures { Reads (spec.term_by (spec.term room) TermName.App text.old) result text.new }
{
    let symbol = small(text)?;
    let args = terms(alloc, text, room)?;
    Ok(Term::App(symbol, args))
}

/// How many terms there are, and the terms.
#[inline(never)]
#[cycle(term)]
#[tactic(auto, unfolding(crate::specs::code::ReadWords::listed))]
pub fn terms(alloc: Global, text: &mut Cursor<'_>, room: usize) -> Result<List<Term>, Stop>
    ensures { Reads (listed (spec.term room) text.old) result text.new }
{
    let count = large(text)?;
    let mut found = list_for(alloc, count)?;
    for _ in 0..count {
        let next = term(alloc, text, room)?;
        found.push(next)?;
    }
    Ok(found)
}

/// A term in a box.
#[inline(never)]
pub fn boxed_term(alloc: Global, text: &mut Cursor<'_>, room: usize) -> Result<Boxed<Term>, Stop>
    ensures { Reads (spec.term room text.old) result text.new }
{
    let found = term(alloc, text, room)?;
    Ok(Boxed::new(alloc, found)?)
}
