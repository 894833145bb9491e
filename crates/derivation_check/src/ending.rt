// How a derivation ends.
ghost use Rattle.std.specs.Prelude.{◌≡◌, ◌≤◌, length, count_by, IfOk, Some};
ghost use Rattle.verifier.specs.Report.{is_unverified, is_skipped, HasFalse, AreAccepted};
ghost use Rattle.derivation_check.specs.Claim.{IsJustified};
ghost use Rattle.derivation_check.specs.Endings.{IsVerdict};

use crate::claiming::{Claim, is_justified, status_of};
use fof_terms::Form;
use std::alloc::{AllocError, Global};
use tptp_base::{List, Text};
use verifier::{LineAnswer, Verdict, has_false};

/// How a derivation with these answers ends, over a problem that was named so. It is the first that applies: some line
/// is not accepted; no line is falsehood; the claim is not justified; all is verified.
pub fn verdict(
    alloc: Global,
    claim: &Claim,
    problem: &[u8],
    forms: &[Form],
    answers: &[LineAnswer],
) -> Result<Verdict, AllocError>
    ensures { IfOk result (IsVerdict claim.now problem.now forms.now answers.now) }
{
    let unverified = unverified_count(answers);
    let skipped = skipped_count(answers);
    if unverified + skipped > 0 {
        return Ok(Verdict::Failed(unverified as u64, skipped as u64, answers.len() as u64));
    }
    if !has_false(forms) {
        return Ok(Verdict::NoFalse);
    }
    claimed(alloc, claim, problem, forms, answers)
}

// How a derivation ends whose lines are all accepted, one of them falsehood.
fn claimed(
    alloc: Global,
    claim: &Claim,
    problem: &[u8],
    forms: &[Form],
    answers: &[LineAnswer],
) -> Result<Verdict, AllocError>
    requires accepted { AreAccepted answers.now }
    requires ends { HasFalse forms.now }
    ensures { IfOk result (IsVerdict claim.now problem.now forms.now answers.now) }
{
    if !is_justified(claim) {
        return Ok(Verdict::BadClaim(word_of(alloc, claim)?));
    }
    let status = status_of(alloc, claim)?;
    let problem = List::from_slice(alloc, problem)?;
    Ok(Verdict::Verified(status, problem, answers.len() as u64))
}

// The word of a claim that is not justified.
fn word_of(alloc: Global, claim: &Claim) -> Result<Text, AllocError>
    requires { IsJustified claim.now → ⊥ }
    ensures { IfOk result (λ word. claim.now.word ≡ Some word) }
{
    match &claim.word {
        Some(word) => List::from_slice(alloc, word.as_slice()),
        None => unreachable!(),
    }
}

// How many lines are not verified.
fn unverified_count(answers: &[LineAnswer]) -> usize
    ensures value { result ≡ count_by is_unverified answers.now }
    ensures bound { result ≤ length answers.now }
{
    answers
        .iter()
        .filter(|answer| answer.is_unverified())
        .count()
}

// How many lines are skipped.
fn skipped_count(answers: &[LineAnswer]) -> usize
    ensures value { result ≡ count_by is_skipped answers.now }
    ensures bound { result ≤ length answers.now }
{
    answers.iter().filter(|answer| answer.is_skipped()).count()
}
