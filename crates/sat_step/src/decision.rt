ghost use Rattle.std.specs.Prelude.{IfOk};
ghost use Rattle.sat_step.specs.Decisions.{IsDecision};

use crate::numbering::{Numbered, number};
use crate::reading::{read_log, read_signs};
use clause_form::{Clause, Lit};
use clause_learning::{Outcome, solve};
use std::alloc::Global;
use tptp_base::{List, Memory};

/// A clause that follows: its literals, and the numbers of the clauses from which it was made, each after the first
/// resolved with what came before on one literal, the only one of the first that has its opposite in the second.
#[derive(Drop)]
pub struct Learned {
    pub lits: List<Lit>,
    pub from: List<u64>,
}

/// What was decided of clauses.
#[derive(Drop)]
pub enum Decision {
    /// Clauses that follow, made from those that were given and from earlier ones, numbered in this order. The last has
    /// no literal.
    Refuted(List<Learned>),
    /// A literal of each atom. Where the atoms of the positive ones are true and all others false, so is each clause.
    Valuation(List<Lit>),
}

/// Decides whether the clauses have a valuation that makes all true. An atom is taken as a whole, whatever its terms
/// are.
pub fn decide(alloc: Global, clauses: &[Clause]) -> Result<Decision, Memory>
    ensures { IfOk result (IsDecision clauses.now) }
{
    let Numbered { atoms, clauses } = number(alloc, clauses)?;
    match solve(alloc, atoms.len(), clauses)? {
        Outcome::Refuted(log) => {
            let log = read_log(alloc, atoms.as_slice(), log.as_slice())?;
            Ok(Decision::Refuted(log))
        }
        Outcome::Valuation(signs) => {
            let lits = read_signs(alloc, atoms.as_slice(), signs.as_slice())?;
            Ok(Decision::Valuation(lits))
        }
    }
}
