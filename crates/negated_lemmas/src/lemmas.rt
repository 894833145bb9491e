//! Lemmas from a refutation of a line's negation.
ghost use Rattle.std.specs.Prelude.{◌≡◌, ◌+◌, ◌<◌, ◌^◌, length, IfOk};
ghost use Rattle.fof_terms.specs.declared.form.Form.{Not};
ghost use Rattle.kernel.specs.declared.proof.Proof.{Hyp, ImpE, ImpI, Line};
ghost use Rattle.negated_lemmas.specs.Negated.{ConcludeLine, IsByFalsehood, ShowsImplied};

use crate::carrying::carried;
use derive_kit::{Part, hyp, imp_e, raa};
use fof_terms::Form;
use kernel::{Entry, Proof};
use std::alloc::Global;
use tptp_base::{Boxed, List, Memory};

// The negation of the line.
fn negation(alloc: Global, line: &Form) -> Result<Boxed<Form>, Memory>
    ensures { IfOk result (λ form. form ≡ Not line.now) }
{
    let line = Boxed::new(alloc, line.copy(alloc)?)?;
    Ok(Boxed::new(alloc, Form::Not(line))?)
}

/// That the line's negation implies what the proof shows. The proof is for a theory whose formula number `first` is that
/// negation, with further facts behind it; the result is for the theory in which each of these stands as an implication
/// from the negation.
pub fn under_negation(alloc: Global, line: &Form, first: u64, proof: &Proof) -> Result<Part, Memory>
    ensures { IfOk result (ShowsImplied line.now first proof.now) }
{
    let part = carried(alloc, proof, first, 0)?;
    let left = negation(alloc, line)?;
    Ok(Boxed::new(alloc, Proof::ImpI(left, part))?)
}

// That the line's negation implies itself.
fn itself(alloc: Global, line: &Form) -> Result<Part, Memory>
    ensures { IfOk result (λ made. made ≡ ImpI (Not line.now) (Hyp 0)) }
{
    let own = hyp(alloc, 0)?;
    let left = negation(alloc, line)?;
    Ok(Boxed::new(alloc, Proof::ImpI(left, own))?)
}

// What the formula of this number implies, by hypothesis 0.
fn implied_by(alloc: Global, number: u64) -> Result<Part, Memory>
    ensures { IfOk result (λ made. made ≡ ImpE (Line number) (Hyp 0)) }
{
    let whole = Boxed::new(alloc, Proof::Line(number))?;
    let own = hyp(alloc, 0)?;
    imp_e(alloc, whole, own)
}

/// The line, by the formula of this number, that its negation implies falsehood.
pub fn by_falsehood(alloc: Global, line: &Form, number: u64) -> Result<Part, Memory>
    ensures { IfOk result (IsByFalsehood line.now number) }
{
    let falsehood = implied_by(alloc, number)?;
    raa(alloc, line.copy(alloc)?, falsehood)
}

/// Lemmas for a theory of `first` formulas: that the line's negation implies itself, that it implies what each of the
/// proofs shows, and the line. The proofs show their facts in the theory with the negation and the facts before, and
/// the last fact is falsehood.
pub fn lemmas_of_refutation(
    alloc: Global,
    line: &Form,
    first: u64,
    proofs: &[Proof],
) -> Result<List<Entry>, Memory>
    requires { first + length proofs.now < 2 ^ 64 }
    ensures { IfOk result (ConcludeLine line.now first proofs.now) }
{
    let mut entries = List::new(alloc);
    entries.push(Entry::Lemma(itself(alloc, line)?.into_inner()))?;
    for proof in proofs {
        let lemma = under_negation(alloc, line, first, proof)?;
        entries.push(Entry::Lemma(lemma.into_inner()))?;
    }
    let last = by_falsehood(alloc, line, first + proofs.len() as u64)?;
    entries.push(Entry::Lemma(last.into_inner()))?;
    Ok(entries)
}
