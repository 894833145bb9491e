//! All facts of a refutation.
ghost use Rattle.std.specs.Prelude.{◌≡◌, length, map, IfOk};
ghost use Rattle.sat_entries.specs.code.Refuting.{IsFalsehoodBy, LeadToFalsehood};
ghost use Rattle.sat_step.specs.Decisions.{IsRefuted};

use crate::inputs::input_facts;
use crate::learning::learn;
use clause_form::Clause;
use clause_proofs::{line, truth};
use derive_kit::{Part, not_e};
use kernel::Proof;
use sat_step::Learned;
use search_proofs::place_all;
use std::alloc::Global;
use tptp_base::{List, Memory};

/// Proofs of all facts: those of opened formulas, of wanted clauses, of these and of learned ones as facts, and at last
/// falsehood. The first fact has the number `start`.
pub fn proofs_of_refutation(
    alloc: Global,
    start: u64,
    opened: List<Proof>,
    inputs: List<Option<Proof>>,
    clauses: &[Clause],
    wanted: &[bool],
    log: &[Learned],
) -> Result<List<Proof>, Memory>
    requires inputs { length inputs ≡ length clauses.now }
    requires wanted { length wanted.now ≡ length clauses.now }
    requires log { IsRefuted clauses.now log.now }
    ensures { IfOk result (LeadToFalsehood start opened inputs clauses.now wanted.now log.now) }
{
    let mut proofs = opened;
    let numbers = place_all(alloc, start, inputs, &mut proofs)?;
    let numbers = numbers.as_slice();
    let mut facts = input_facts(alloc, start, clauses, wanted, numbers, &mut proofs)?;
    learn(alloc, start, log, &mut facts, &mut proofs)?;
    let last = facts.len() - 1;
    let falsehood = falsehood_by(alloc, facts.as_slice()[last].number)?;
    proofs.push(falsehood.into_inner())?;
    Ok(proofs)
}

// Falsehood, by the formula of this number, that not all of no literals are false.
fn falsehood_by(alloc: Global, number: u64) -> Result<Part, Memory>
    ensures { IfOk result (IsFalsehoodBy number) }
{
    let denial = line(alloc, number)?;
    not_e(alloc, denial, truth(alloc)?)
}
