// How a derivation ends, and what its claim is worth.
ghost use Rattle.std.specs.Prelude.{◌≡◌, ◌↔◌, IsTrue, IfOk};
ghost use Rattle.verifier.specs.Marks;
ghost use Rattle.derivation_check.specs.Claim as claims;
ghost use Rattle.derivation_check.specs.Claim.{IsJustified};
ghost use Rattle.derivation_check.specs.Endings.{IsVerdict};

use crate::{Control, Probe};
use derivation_check::{Claim, cites_marked, is_justified, status_of, verdict};
use fof_terms::Form;
use std::alloc::{AllocError, Global};
use tptp_base::Text;
use verifier::{LineAnswer, Verdict};

/// Judges derivations.
pub trait Judging {
    /// How a derivation with these answers ends, over a problem that was named so.
    fn verdict(
        alloc: Global,
        claim: &Claim,
        problem: &[u8],
        forms: &[Form],
        answers: &[LineAnswer],
    ) -> Result<Verdict, AllocError>
        ensures { IfOk result (IsVerdict claim.now problem.now forms.now answers.now) };

    /// Whether some line cites a given formula that is marked.
    fn cites_marked(marks: &[bool], answers: &[LineAnswer]) -> bool
        ensures { result ≡ Marks.cites_marked marks.now answers.now };

    /// Whether a refutation justifies the claim.
    fn is_justified(claim: &Claim) -> bool
        ensures { IsTrue result ↔ IsJustified claim.now };

    /// The status that is printed for a justified claim.
    fn status_of(alloc: Global, claim: &Claim) -> Result<Text, AllocError>
        ensures { IfOk result (λ word. word ≡ claims.status_word claim.now) };
}

impl Judging for Probe {
    fn verdict(
        alloc: Global,
        claim: &Claim,
        problem: &[u8],
        forms: &[Form],
        answers: &[LineAnswer],
    ) -> Result<Verdict, AllocError> {
        verdict(alloc, claim, problem, forms, answers)
    }

    fn cites_marked(marks: &[bool], answers: &[LineAnswer]) -> bool {
        cites_marked(marks, answers)
    }

    fn is_justified(claim: &Claim) -> bool {
        is_justified(claim)
    }

    fn status_of(alloc: Global, claim: &Claim) -> Result<Text, AllocError> {
        status_of(alloc, claim)
    }
}

impl Judging for Control {
    fn verdict(
        alloc: Global,
        claim: &Claim,
        problem: &[u8],
        forms: &[Form],
        answers: &[LineAnswer],
    ) -> Result<Verdict, AllocError> {
        match verdict(alloc, claim, problem, forms, answers)? {
            Verdict::Failed(unverified, skipped, lines) => {
                Ok(Verdict::Failed(unverified, skipped, lines))
            }
            Verdict::NoFalse => Ok(Verdict::NoFalse),
            Verdict::BadClaim(word) => Ok(Verdict::BadClaim(word)),
            Verdict::Verified(word, name, lines) => Ok(Verdict::Verified(word, name, lines)),
        }
    }

    fn cites_marked(marks: &[bool], answers: &[LineAnswer]) -> bool {
        let cites = cites_marked(marks, answers);
        cites
    }

    fn is_justified(claim: &Claim) -> bool {
        claim.word.is_none() || is_justified(claim)
    }

    fn status_of(alloc: Global, claim: &Claim) -> Result<Text, AllocError> {
        match &claim.word {
            Some(word) => Text::from_slice(alloc, word.as_slice()),
            None => status_of(alloc, claim),
        }
    }
}
