ghost use Rattle.std.specs.Prelude.{◌≡◌, ◌≤◌, ◌<◌, ◌^◌, ◌++◌, IfOk, OnOk, length, map};
ghost use Rattle.std.specs.List.{AllByRecursion};
ghost use Rattle.fof_terms.specs.Lift.{lifted_term, lift_reach};
ghost use Rattle.clause_form.specs.ClauseView.{form_of_atom as atom_form, form_of_lit as lit_form};
ghost use Rattle.clause_form.specs.Covers.{at_terms, in_lit};
ghost use Rattle.clause_form.specs.Paths.{all_beside as beside_of};
ghost use Rattle.clause_form.specs.code.Beside.{moved, segments as segments_of};
ghost use Rattle.clause_form.specs.Beside.{all_sorts as sorts_of_all};
ghost use Rattle.clause_form.specs.code.Room.{MovesWithin};
ghost use Rattle.clause_form.specs.Room.{AreOver};

use crate::clause::{AtomOf, Clause, Lit};
use fof_terms::{SortId, lift_term, lift_terms};
use std::alloc::Global;
use tptp_base::{List, Memory};

// The atom with its variables moved.
#[tactic(auto, using(crate::proofs::RoomFacts::reach_rules))]
fn lift_atom(alloc: Global, atom: &AtomOf, by: u32, from: u32) -> Result<AtomOf, Memory>
    requires { lift_reach by from (atom_form atom.now) < 2 ^ 32 }
    ensures { IfOk result (λ lifted. lifted ≡ at_terms (lifted_term by from) atom.now) }
{
    match atom {
        AtomOf::Pred(symbol, args) => Ok(AtomOf::Pred(
            *symbol,
            lift_terms(alloc, args.as_slice(), by, from)?,
        )),
        AtomOf::Eq(left, right) => Ok(AtomOf::Eq(
            lift_term(alloc, left, by, from)?,
            lift_term(alloc, right, by, from)?,
        )),
        AtomOf::True => Ok(AtomOf::True),
        AtomOf::False => Ok(AtomOf::False),
    }
}

// The literal with its variables moved.
#[tactic(auto, using(crate::proofs::RoomFacts::lit_reach))]
fn lift_lit(alloc: Global, lit: &Lit, by: u32, from: u32) -> Result<Lit, Memory>
    requires { lift_reach by from (lit_form lit.now) < 2 ^ 32 }
    ensures { IfOk result (λ lifted. lifted ≡ in_lit (lifted_term by from) lit.now) }
{
    Ok(Lit {
        positive: lit.positive,
        atom: lift_atom(alloc, &lit.atom, by, from)?,
    })
}

// The literal of a clause of so many variables, with `before` variables further out and `after` nearer ones.
fn move_lit(alloc: Global, lit: &Lit, after: u32, before: u32, count: u32) -> Result<Lit, Memory>
    requires { MovesWithin after before count (lit_form lit.now) }
    ensures { IfOk result (λ lifted. lifted ≡ in_lit (moved after before count) lit.now) }
{
    let inner = lift_lit(alloc, lit, before, count)?;
    lift_lit(alloc, &inner, after, 0)
}

// Adds these literals of a clause to those before it.
fn push_moved(
    alloc: Global,
    lits: &mut List<Lit>,
    own: &[Lit],
    after: u32,
    before: u32,
    count: u32,
) -> Result<(), Memory>
    requires { AllByRecursion (λ l. MovesWithin after before count (lit_form l)) own.now }
    ensures { OnOk result (lits.new ≡ lits.old ++ map (in_lit (moved after before count)) own.now) }
{
    for lit in own {
        lits.push(move_lit(alloc, lit, after, before, count)?)?;
    }
    Ok(())
}

// The sorts of all clauses.
fn all_sorts(alloc: Global, clauses: &[Clause]) -> Result<List<SortId>, Memory>
    ensures { IfOk result (λ sorts. sorts ≡ sorts_of_all clauses.now) }
{
    let mut sorts = List::new(alloc);
    for clause in clauses {
        sorts.append(List::from_slice(alloc, clause.sorts.as_slice())?)?;
    }
    Ok(sorts)
}

// The literals of all clauses over the variables of all.
fn segments(alloc: Global, clauses: &[Clause], total: usize) -> Result<List<Lit>, Memory>
    requires over { AreOver clauses.now }
    requires total { total ≡ length (sorts_of_all clauses.now) }
    ensures { IfOk result (λ lits. lits ≡ segments_of 0 clauses.now) }
{
    let mut lits = List::new(alloc);
    let mut before: usize = 0;
    for number in 0..clauses.len() {
        let clause = &clauses[number];
        let count = clause.sorts.len();
        let after = total - before - count;
        push_moved(
            alloc,
            &mut lits,
            clause.lits.as_slice(),
            after as u32,
            before as u32,
            count as u32,
        )?;
        before += count;
    }
    Ok(lits)
}

/// Clauses over one scope as one clause: the variables of the first are outermost, its literals first.
pub fn all_beside(alloc: Global, clauses: &[Clause]) -> Result<Clause, Memory>
    requires { AreOver clauses.now }
    ensures { IfOk result (λ whole. whole ≡ beside_of clauses.now) }
{
    let sorts = all_sorts(alloc, clauses)?;
    let lits = segments(alloc, clauses, sorts.len())?;
    Ok(Clause { sorts, lits })
}
