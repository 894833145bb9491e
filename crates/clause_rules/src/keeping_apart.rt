//! Literals that are kept apart from the variables of other clauses.
ghost use Rattle.std.specs.Prelude.{◌≡◌, ◌<◌, ◌≤◌, ◌^◌, map, max, IfOk};
ghost use Rattle.std.specs.List.{All as Each};
ghost use Rattle.fof_terms.specs.Lift.{greatest, lifted_term, lift_term_reach};
ghost use Rattle.clause_form.specs.declared.clause.Lit.{Lit as Literal};
ghost use Rattle.clause_form.specs.Covers.{at_terms, lit_apart};
ghost use Rattle.clause_rules.specs.Reach.{atom_reach};

use clause_form::{AtomOf, Lit};
use fof_terms::{lift_term, lift_terms};
use std::alloc::Global;
use tptp_base::{List, Memory};

/// The literals with their variables moved past so many others.
pub fn apart(alloc: Global, lits: &[Lit], by: u32) -> Result<List<Lit>, Memory>
    requires { Each (λ (l : Literal). atom_reach by l.atom < 2 ^ 32) lits.now }
    ensures { IfOk result (λ moved. moved ≡ map (lit_apart by) lits.now) }
{
    let mut moved = List::new(alloc);
    for lit in lits {
        moved.push(lit_moved(alloc, lit, by)?)?;
    }
    Ok(moved)
}

// The literal with its variables moved.
fn lit_moved(alloc: Global, lit: &Lit, by: u32) -> Result<Lit, Memory>
    requires { atom_reach by lit.now.atom < 2 ^ 32 }
    ensures { IfOk result (λ moved. moved ≡ lit_apart by lit.now) }
{
    let atom = atom_moved(alloc, &lit.atom, by)?;
    Ok(Lit {
        positive: lit.positive,
        atom,
    })
}

// The atom with its variables moved.
fn atom_moved(alloc: Global, atom: &AtomOf, by: u32) -> Result<AtomOf, Memory>
    requires { atom_reach by atom.now < 2 ^ 32 }
    ensures { IfOk result (λ moved. moved ≡ at_terms (lifted_term by 0) atom.now) }
{
    match atom {
        AtomOf::Pred(symbol, args) => Ok(AtomOf::Pred(
            *symbol,
            lift_terms(alloc, args.as_slice(), by, 0)?,
        )),
        AtomOf::Eq(left, right) => Ok(AtomOf::Eq(
            lift_term(alloc, left, by, 0)?,
            lift_term(alloc, right, by, 0)?,
        )),
        AtomOf::True => Ok(AtomOf::True),
        AtomOf::False => Ok(AtomOf::False),
    }
}
