// What a prover claims, and when it is justified.
ghost use Rattle.std.specs.Prelude.{◌≡◌, ◌↔◌, IsTrue, IfOk};
ghost use Rattle.verifier.specs.Marks;
ghost use Rattle.derivation_check.specs.Cases.{asked_of, claim_by, claimed as claimed_word};
ghost use Rattle.derivation_check.specs.Claim as claims;
ghost use Rattle.derivation_check.specs.Claim.{IsJustified};

use crate::checking::Asked;
use std::alloc::{AllocError, Global};
use szs_report::claim;
use tptp_base::{List, Text};
use verifier::LineAnswer;

/// What a derivation claims of its problem.
#[derive(Drop)]
pub struct Claim {
    /// The word of its first status line, if there is one.
    pub word: Option<Text>,
    /// Whether the problem has a formula of role conjecture.
    pub has_conjecture: bool,
    /// Whether some line cites a formula of the problem of role conjecture or negated_conjecture.
    pub cites_conjecture: bool,
}

/// What is claimed of a problem, where the lines of the derivation have these answers.
pub fn claim_on(
    alloc: Global,
    asked: &Asked<'_>,
    answers: &[LineAnswer],
) -> Result<Claim, AllocError>
    ensures { IfOk result (λ claim. claim ≡ claim_by (asked_of asked.now) answers.now) }
{
    Ok(Claim {
        word: claimed(alloc, asked.output)?,
        has_conjecture: asked.has_conjecture,
        cites_conjecture: cites_marked(asked.marks, answers),
    })
}

// The word of the first status line of a prover's output.
fn claimed(alloc: Global, output: &[u8]) -> Result<Option<Text>, AllocError>
    ensures { IfOk result (λ word. word ≡ claimed_word output.now) }
{
    match claim(output) {
        Some(word) => Ok(Some(Text::from_slice(
            alloc,
            &output[word.start as usize..word.end as usize],
        )?)),
        None => Ok(None),
    }
}

/// Whether some line cites a given formula that is marked.
pub fn cites_marked(marks: &[bool], answers: &[LineAnswer]) -> bool
    ensures { result ≡ Marks.cites_marked marks.now answers.now }
{
    answers.iter().any(|answer| cites_one(marks, answer))
}

// Whether a line cites a given formula that is marked.
fn cites_one(marks: &[bool], answer: &LineAnswer) -> bool
    ensures { result ≡ Marks.answer_cites_marked marks.now answer.now }
{
    match answer {
        LineAnswer::Accepted { cites, .. } => has_marked(marks, cites.as_slice()),
        LineAnswer::Unverified(_) | LineAnswer::Skipped => false,
    }
}

// Whether one of these numbers is marked.
fn has_marked(marks: &[bool], numbers: &[u64]) -> bool
    ensures { result ≡ Marks.some_marked marks.now numbers.now }
{
    numbers.iter().any(|number| is_marked(marks, *number))
}

// Whether the given formula of this number is marked.
fn is_marked(marks: &[bool], number: u64) -> bool
    ensures { result ≡ Marks.is_marked marks.now number }
{
    match marks.get(number as usize) {
        Some(mark) => *mark,
        None => false,
    }
}

/// Whether a refutation justifies the claim.
pub fn is_justified(claim: &Claim) -> bool
    ensures { IsTrue result ↔ IsJustified claim.now }
{
    match &claim.word {
        None => true,
        Some(word) => justifies(
            word.as_slice(),
            claim.has_conjecture,
            claim.cites_conjecture,
        ),
    }
}

// Whether a refutation justifies this word.
fn justifies(word: &[u8], has_conjecture: bool, cites_conjecture: bool) -> bool
    ensures { IsTrue result ↔ claims.Justifies word.now has_conjecture cites_conjecture }
{
    (word == b"Theorem".as_slice() && has_conjecture)
        || (word == b"Unsatisfiable".as_slice() && !has_conjecture)
        || (word == b"ContradictoryAxioms".as_slice() && has_conjecture && !cites_conjecture)
}

/// The status that is printed for a justified claim.
pub fn status_of(alloc: Global, claim: &Claim) -> Result<Text, AllocError>
    ensures { IfOk result (λ word. word ≡ claims.status_word claim.now) }
{
    match &claim.word {
        Some(word) => List::from_slice(alloc, word.as_slice()),
        None => List::from_slice(alloc, default_status(claim.has_conjecture)),
    }
}

// The status of a derivation that claims nothing.
fn default_status(has_conjecture: bool) -> &'static [u8]
    ensures { result.now ≡ claims.default_word has_conjecture }
{
    if has_conjecture {
        b"Theorem"
    } else {
        b"Unsatisfiable"
    }
}
