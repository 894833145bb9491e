//! Clauses of a log as facts.
ghost use Rattle.std.specs.Prelude.{map, IfOk, OnOk};
ghost use Rattle.chain_proofs.specs.Chains.{Derives};
ghost use Rattle.clause_learning.specs.Refutations.{IsLog};
ghost use Rattle.sat_entries.specs.code.Learning.{IsShown, AreLearned};
ghost use Rattle.sat_step.specs.Decisions.{entry_of, opposite};

use chain_proofs::{Fact, fact_at, stretch_proof, walk_back};
use clause_form::{Lit, copy_lits};
use kernel::Proof;
use sat_step::Learned;
use search_proofs::further;
use std::alloc::Global;
use tptp_base::{List, Memory};

/// Adds a fact for each clause of the log, and proofs of them.
pub fn learn(
    alloc: Global,
    start: u64,
    log: &[Learned],
    facts: &mut List<Fact>,
    proofs: &mut List<Proof>,
) -> Result<(), Memory>
    requires { IsLog opposite (map (λ f. f.lits) facts.old) (map entry_of log.now) }
    ensures { OnOk result (AreLearned start log.now facts.old facts.new proofs.old proofs.new) }
{
    for learned in log {
        let lits = learned.lits.as_slice();
        let from = List::from_slice(alloc, learned.from.as_slice())?;
        let fact = show(alloc, start, facts.as_slice(), lits, from, proofs)?;
        facts.push(fact)?;
    }
    Ok(())
}

// Adds a proof that not all of the literals are false, by the facts of these numbers. Before it stand proofs of facts
// that it needs, where the way is long.
#[cycle(show)]
fn show(
    alloc: Global,
    start: u64,
    facts: &[Fact],
    lits: &[Lit],
    from: List<u64>,
    proofs: &mut List<Proof>,
) -> Result<Fact, Memory>
    requires { Derives facts.now from lits.now }
    ensures { IfOk result (IsShown start facts.now from lits.now proofs.old proofs.new) }
{
    let stretch = walk_back(alloc, facts, lits, from)?;
    let lits = copy_lits(alloc, stretch.lits.as_slice())?;
    let part = match stretch.last {
        Some(number) => stretch_proof(alloc, stretch, fact_at(facts, number))?,
        None => {
            let left = List::from_slice(alloc, stretch.left.as_slice())?;
            let known = stretch.known.lits.as_slice();
            let rest = show(alloc, start, facts, known, left, proofs)?;
            stretch_proof(alloc, stretch, &rest)?
        }
    };
    let number = further(start, proofs.len())?;
    proofs.push(part.into_inner())?;
    Ok(Fact { number, lits })
}
