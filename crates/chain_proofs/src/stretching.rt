//! Walks over the clauses that a further one was made from, the last first. Where the literals of what comes out are
//! false, each clause has at most one literal that is not known to be false; so that one is true, and its opposite is
//! known to be false for the next clause, until all literals of a clause are.
ghost use Rattle.std.specs.Prelude.{◌≡◌, ◌+◌, IfOk, OnOk};
ghost use Rattle.chain_proofs.specs.Chains.{Derives};
ghost use Rattle.chain_proofs.specs.Known.{AreKept};
ghost use Rattle.chain_proofs.specs.Stretches.{IsStretch};
ghost use Rattle.chain_proofs.specs.code.Walks.{IsAdvanced, IsMissing, IsWalk};

use crate::fact::{Fact, denied_form, fact_at};
use crate::known::Known;
use crate::refuting::refuted_by;
use clause_form::{Lit, copy_lits};
use clause_proofs::{denial, negated};
use derive_kit::Part;
use fof_terms::Form;
use std::alloc::Global;
use tptp_base::{List, Memory};

/// The most steps of a stretch. Each nests a proof twice more, and a log has at most 4,000 nodes inside each other.
const MAX_STEPS: usize = 1_500;

/// That a literal is false, and a proof of that, under which the later steps stand.
#[derive(Drop)]
pub struct Step {
    pub fact: Form,
    pub part: Part,
}

/// A walk, or the first steps of a long one.
#[derive(Drop)]
pub struct Stretch {
    /// The literals that are taken to be false.
    pub lits: List<Lit>,
    /// Those, and the literals that are then false by the steps.
    pub known: Known,
    pub steps: List<Step>,
    /// The numbers of the clauses that are left.
    pub left: List<u64>,
    /// The number of a clause all of whose literals are known to be false, if the walk has come to one.
    pub last: Option<u64>,
}

/// Steps, and the number of a clause all of whose literals are known to be false then, if they lead to one.
#[derive(Drop)]
pub(crate) struct Walk {
    pub(crate) steps: List<Step>,
    pub(crate) last: Option<u64>,
}

/// Walks over the clauses of these numbers, from which one with some of the literals is derived.
pub fn walk_back(
    alloc: Global,
    facts: &[Fact],
    lits: &[Lit],
    from: List<u64>,
) -> Result<Stretch, Memory>
    requires { Derives facts.now from lits.now }
    ensures { IfOk result (IsStretch facts.now from lits.now) }
{
    let mut known = Known::of(alloc, lits)?;
    let lits = copy_lits(alloc, known.lits.as_slice())?;
    let mut left = from;
    let Walk { steps, last } = take_steps(alloc, facts, &mut known, &mut left)?;
    Ok(Stretch {
        lits,
        known,
        steps,
        left,
        last,
    })
}

// The same from the literals that are known, each once.
fn take_steps(
    alloc: Global,
    facts: &[Fact],
    known: &mut Known,
    left: &mut List<u64>,
) -> Result<Walk, Memory>
    requires kept { AreKept known.old }
    requires derives { Derives facts.now left.old known.old.lits }
    ensures kept { OnOk result (AreKept known.new) }
    ensures walk { IfOk result (IsWalk facts.now left.old known.old.lits known.new.lits left.new) }
{
    let base = known.lits.len();
    let mut steps = List::new(alloc);
    while let Some(number) = left.pop() {
        let fact = fact_at(facts, number);
        match missing(alloc, known, fact.lits.as_slice())? {
            Some(lit) => advance(alloc, base, fact, lit, known, &mut steps)?,
            None => {
                let last = Some(number);
                return Ok(Walk { steps, last });
            }
        }
        if steps.len() >= MAX_STEPS {
            let last = None;
            return Ok(Walk { steps, last });
        }
    }
    let last = None;
    Ok(Walk { steps, last })
}

// The opposite of the first literal that is not known to be false.
fn missing(alloc: Global, known: &Known, lits: &[Lit]) -> Result<Option<Lit>, Memory>
    requires { AreKept known.now }
    ensures { IfOk result (IsMissing known.now.lits lits.now) }
{
    for lit in lits {
        if known.place(alloc, lit)?.is_none() {
            return Ok(Some(negated(alloc, lit)?));
        }
    }
    Ok(None)
}

// Adds that the literal is false, by the fact, all of whose literals but the opposite are known to be false.
fn advance(
    alloc: Global,
    base: usize,
    fact: &Fact,
    lit: Lit,
    known: &mut Known,
    steps: &mut List<Step>,
) -> Result<(), Memory>
    requires { AreKept known.old }
    ensures kept { OnOk result (AreKept known.new) }
    ensures advanced { OnOk result
        (IsAdvanced base fact.now lit known.old.lits steps.old known.new.lits steps.new) }
{
    let count = one_more(known.lits.len())?;
    let refuted = refuted_by(alloc, known, base, count, fact)?;
    let part = denial(alloc, &lit, refuted)?;
    let fact = denied_form(alloc, &lit)?;
    if known.add(alloc, lit)? {
        steps.push(Step { fact, part })?;
    }
    Ok(())
}

// One more. More than the type of counts has, of which no memory has any, are answered by want of memory.
fn one_more(count: usize) -> Result<usize, Memory>
    ensures { IfOk result (λ more. more ≡ count + 1) }
{
    match count.checked_add(1) {
        Some(more) => Ok(more),
        None => Err(Memory),
    }
}
