//! Clauses over numbered atoms.
ghost use Rattle.std.specs.Prelude.{IfOk, OnOk};
ghost use Rattle.sat_step.specs.code.Numbers.{IsReadClause, IsNumbered};
ghost use Rattle.sat_step.specs.code.Atoms.{AreNumbered, IsPrefix};

use crate::atoms::Atoms;
use clause_form::{AtomOf, Clause, Lit};
use clause_learning::Literal;
use std::alloc::Global;
use tptp_base::{List, Memory};

/// Distinct atoms, and clauses over their numbers.
#[derive(Drop)]
pub struct Numbered {
    pub atoms: List<AtomOf>,
    pub clauses: List<List<Literal>>,
}

/// The clauses over numbered atoms.
pub fn number(alloc: Global, clauses: &[Clause]) -> Result<Numbered, Memory>
    ensures { IfOk result (IsNumbered clauses.now) }
{
    let mut table = Atoms::new(alloc);
    let mut numbered = List::new(alloc);
    for clause in clauses {
        numbered.push(number_lits(alloc, clause.lits.as_slice(), &mut table)?)?;
    }
    let Atoms { atoms, keys: _ } = table;
    Ok(Numbered {
        atoms,
        clauses: numbered,
    })
}

// The literals over numbered atoms.
fn number_lits(alloc: Global, lits: &[Lit], table: &mut Atoms) -> Result<List<Literal>, Memory>
    requires { AreNumbered table.old }
    ensures numbered { OnOk result (AreNumbered table.new) }
    ensures kept { OnOk result (IsPrefix table.old.atoms table.new.atoms) }
    ensures read { IfOk result (λ literals. IsReadClause table.new.atoms literals lits.now) }
{
    let mut literals = List::new(alloc);
    for lit in lits {
        let atom = table.number(alloc, &lit.atom)?;
        literals.push(Literal {
            atom,
            positive: lit.positive,
        })?;
    }
    Ok(literals)
}
