//! Clauses of the step as facts.
ghost use Rattle.std.specs.Prelude.{◌≡◌, length, IfOk};
ghost use Rattle.input_proofs.specs.Formulas.{has_or as keeps_or};
ghost use Rattle.clause_form.specs.Paths.{is_plain as plain_atom};
ghost use Rattle.sat_entries.specs.code.Inputs.{AreStatedInputs, IsStatedIf, IsTurned, arms_of, clash_tree};
ghost use Rattle.sat_entries.specs.code.Inputs.{contradiction_tree};

use chain_proofs::{Fact, all_false};
use clause_form::{AtomOf, Clause, Lit, copy_lits};
use clause_proofs::{line, number};
use derive_kit::{Part, and_e, hyp, not_e, not_i, or_e};
use fof_terms::Form;
use kernel::Proof;
use search_proofs::further;
use std::alloc::Global;
use tptp_base::{List, Memory};

/// The clauses as facts. Those that are wanted stand at these numbers as formulas, and proofs are added that not all of
/// their literals are false, the first of all facts having the number `start`.
pub fn input_facts(
    alloc: Global,
    start: u64,
    clauses: &[Clause],
    wanted: &[bool],
    numbers: &[u64],
    proofs: &mut List<Proof>,
) -> Result<List<Fact>, Memory>
    requires wanted { length wanted.now ≡ length clauses.now }
    requires numbers { length numbers.now ≡ length clauses.now }
    ensures { IfOk result (AreStatedInputs start clauses.now wanted.now numbers.now proofs.old proofs.new) }
{
    let mut facts = List::new(alloc);
    for at in 0..clauses.len() {
        let lits = clauses[at].lits.as_slice();
        let number = stated_if(alloc, start, lits, wanted[at], numbers[at], proofs)?;
        let lits = copy_lits(alloc, lits)?;
        facts.push(Fact { number, lits })?;
    }
    Ok(facts)
}

// Adds a proof that not all of the literals are false, if it is wanted, and answers the number of that.
fn stated_if(
    alloc: Global,
    start: u64,
    lits: &[Lit],
    wanted: bool,
    number: u64,
    proofs: &mut List<Proof>,
) -> Result<u64, Memory>
    ensures { IfOk result (IsStatedIf start lits.now wanted number proofs.old proofs.new) }
{
    if !wanted {
        return Ok(0);
    }
    let proof = turned(alloc, lits, number)?;
    let own = further(start, proofs.len())?;
    proofs.push(proof.into_inner())?;
    Ok(own)
}

// That not all of the literals are false, by the formula of that number, the disjunction of the literals or the one.
fn turned(alloc: Global, lits: &[Lit], number: u64) -> Result<Part, Memory>
    ensures { IfOk result (IsTurned lits.now number) }
{
    let denied = all_false(alloc, lits)?;
    let falsehood = contradiction(alloc, lits, number)?;
    not_i(alloc, denied, falsehood)
}

// Falsehood by the formula of that number and the denial of all literals, as hypothesis 0.
fn contradiction(alloc: Global, lits: &[Lit], number: u64) -> Result<Part, Memory>
    ensures { IfOk result (λ part. part ≡ contradiction_tree lits.now number) }
{
    let own = line(alloc, number)?;
    if has_or(lits) {
        let goal = Form::Or(List::new(alloc));
        let arms = arms(alloc, lits)?;
        return or_e(alloc, goal, own, arms);
    }
    match lits.first() {
        Some(lit) => {
            let other = and_e(alloc, 0, hyp(alloc, 0)?)?;
            clash(alloc, lit, own, other)
        }
        None => Ok(own),
    }
}

// For each literal falsehood by it, as hypothesis 0, and by the denial of all, as hypothesis 1.
fn arms(alloc: Global, lits: &[Lit]) -> Result<List<Proof>, Memory>
    ensures { IfOk result (λ made. made ≡ arms_of 0 lits.now) }
{
    let mut made = List::new(alloc);
    for at in 0..lits.len() {
        let own = hyp(alloc, 0)?;
        let other = and_e(alloc, number(at)?, hyp(alloc, 1)?)?;
        made.push(clash(alloc, &lits[at], own, other)?.into_inner())?;
    }
    Ok(made)
}

// Falsehood by a literal and its denial.
fn clash(alloc: Global, lit: &Lit, own: Part, other: Part) -> Result<Part, Memory>
    ensures { IfOk result (λ part. part ≡ clash_tree lit.now own other) }
{
    if lit.positive {
        not_e(alloc, other, own)
    } else {
        not_e(alloc, own, other)
    }
}

// Whether the literals stand in a disjunction.
fn has_or(lits: &[Lit]) -> bool
    ensures { result ≡ keeps_or lits.now }
{
    if lits.len() == 1 {
        return !is_plain(&lits[0].atom);
    }
    true
}

// Whether it is an atom or an equation.
fn is_plain(atom: &AtomOf) -> bool
    ensures { result ≡ plain_atom atom.now }
{
    match atom {
        AtomOf::Pred(_, _) => true,
        AtomOf::Eq(_, _) => true,
        AtomOf::True => false,
        AtomOf::False => false,
    }
}
