ghost use Rattle.std.specs.Prelude.{◌≡◌, ◌<◌, [], ◌∷◌, length, IfOk};
ghost use Rattle.kernel.specs.declared.entry.Entry.TheVariants.{Lemma};
ghost use Rattle.elaborate.specs.declared.answer.StepAnswer.TheVariants.{Accepted};
ghost use Rattle.clause_form.specs.Paths.{forms_of};
ghost use Rattle.clause_rules.specs.NormRule.{IsNormStep};
ghost use Rattle.clause_rules.specs.Steps.{AreReady, IsReady};
ghost use Rattle.derive_kit.specs.Derived.{AreOfTheory};
ghost use Rattle.elaborate.specs.Answers.{IsLeafAnswer};
ghost use Rattle.kernel.specs.Statements.{AreClosed};
ghost use Rattle.elaborate.specs.code.Proofs.{IsByCover, IsCoverAlone, IsFirstCover, IsLeftLeaf};
ghost use Rattle.step_clauses.specs.Room.{HasRoom};

use crate::answer::{Reason, Rule, StepAnswer};
use crate::searching::{by_search, lemma};
use clause_form::Parent;
use cover_proofs::{normed, prove};
use derive_kit::Part;
use fof_terms::{Form, Signature};
use proof_check::Theory;
use rule_steps::{cover_step, first_norm};
use std::alloc::Global;
use tptp_base::{List, Memory};

/// The first rule for leaves by which the line follows from one of the candidates, with entries that derive it from the
/// first such candidate, which the line cites. Where there is none, a line that names given formulas is answered as a
/// step from all candidates that no rule gives, with at most `limit` clauses in a search, and any other is left with
/// the reason `Leaf`.
///
/// A leaf is a line that is taken from the problem. Its candidates are the given formulas of the name that it cites,
/// or all of them where it cites none. There must be room for the functions of a search.
pub fn leaf(
    alloc: Global,
    theory: &Theory,
    candidates: &[Parent],
    cited: bool,
    line: &Form,
    limit: u32,
) -> Result<StepAnswer, Memory>
    requires candidates { AreOfTheory theory.now candidates.now }
    requires ready { AreReady theory.now.vocabulary candidates.now }
    requires line { IsReady theory.now.vocabulary line.now }
    requires closed { AreClosed theory.now }
    requires room { HasRoom (length theory.now.vocabulary.symbols) (forms_of candidates.now) line.now }
    ensures { IfOk result (IsLeafAnswer theory.now candidates.now cited line.now limit) }
{
    let signature = theory.signature();
    match first_norm(alloc, signature, candidates, line)? {
        Some(at) => {
            let candidate = &candidates[at as usize];
            let proof = normed(alloc, signature, candidate, line)?;
            accepted(alloc, Rule::Norm, candidate.number, proof)
        }
        None => covered_leaf(alloc, theory, candidates, cited, line, limit),
    }
}

// The answer to a leaf that `norm` gives from no candidate.
fn covered_leaf(
    alloc: Global,
    theory: &Theory,
    candidates: &[Parent],
    cited: bool,
    line: &Form,
    limit: u32,
) -> Result<StepAnswer, Memory>
    requires candidates { AreOfTheory theory.now candidates.now }
    requires ready { AreReady theory.now.vocabulary candidates.now }
    requires line { IsReady theory.now.vocabulary line.now }
    requires closed { AreClosed theory.now }
    requires room { HasRoom (length theory.now.vocabulary.symbols) (forms_of candidates.now) line.now }
    requires no_norm { IsNormStep candidates.now line.now → ⊥ }
    ensures { IfOk result (IsLeafAnswer theory.now candidates.now cited line.now limit) }
{
    match first_cover(alloc, theory.signature(), candidates, line)? {
        Some(found) => {
            let FromOne { number, proof } = found;
            accepted(alloc, Rule::Cover, number, proof)
        }
        None => by_no_rule(alloc, theory, candidates, cited, line, limit),
    }
}

/// The number of a candidate, and a proof of the line from that candidate alone.
#[derive(Drop)]
pub struct FromOne {
    pub number: u64,
    pub proof: Part,
}

// The first candidate from which alone `cover` gives the line, with a proof; None exactly where there is none.
fn first_cover(
    alloc: Global,
    signature: &Signature,
    candidates: &[Parent],
    line: &Form,
) -> Result<Option<FromOne>, Memory>
    requires ready { AreReady signature.now candidates.now }
    requires line { IsReady signature.now line.now }
    ensures { IfOk result (IsFirstCover signature.now candidates.now line.now) }
{
    for at in 0..candidates.len() {
        if let Some(proof) = cover_alone(alloc, signature, candidates, at, line)? {
            let number = candidates[at].number;
            return Ok(Some(FromOne { number, proof }));
        }
    }
    Ok(None)
}

// A proof of the line by `cover` from the candidate at this place alone; None exactly where there is none.
fn cover_alone(
    alloc: Global,
    signature: &Signature,
    candidates: &[Parent],
    at: usize,
    line: &Form,
) -> Result<Option<Part>, Memory>
    requires at { at < length candidates.now }
    requires ready { AreReady signature.now candidates.now }
    requires line { IsReady signature.now line.now }
    ensures { IfOk result (IsCoverAlone signature.now candidates.now line.now at) }
{
    by_cover(alloc, signature, &candidates[at..at + 1], line)
}

// A proof of the line by `cover` from these candidates; None exactly where it does not give the line.
fn by_cover(
    alloc: Global,
    signature: &Signature,
    candidates: &[Parent],
    line: &Form,
) -> Result<Option<Part>, Memory>
    requires ready { AreReady signature.now candidates.now }
    requires line { IsReady signature.now line.now }
    ensures { IfOk result (IsByCover signature.now candidates.now line.now) }
{
    match cover_step(alloc, signature, candidates, line)? {
        Some(just) => {
            let proof = prove(alloc, signature, candidates, line, just)?;
            Ok(Some(proof))
        }
        None => Ok(None),
    }
}

// The answer to a leaf that no rule gives: from all candidates, where it names given formulas.
fn by_no_rule(
    alloc: Global,
    theory: &Theory,
    candidates: &[Parent],
    cited: bool,
    line: &Form,
    limit: u32,
) -> Result<StepAnswer, Memory>
    requires candidates { AreOfTheory theory.now candidates.now }
    requires ready { AreReady theory.now.vocabulary candidates.now }
    requires line { IsReady theory.now.vocabulary line.now }
    requires closed { AreClosed theory.now }
    requires room { HasRoom (length theory.now.vocabulary.symbols) (forms_of candidates.now) line.now }
    ensures { IfOk result (IsLeftLeaf theory.now candidates.now cited line.now limit) }
{
    if cited {
        return by_search(alloc, theory, candidates, line, limit);
    }
    Ok(StepAnswer::Unverified(Reason::Leaf))
}

// The answer that the leaf is accepted by the rule, with the lemma of the proof as its only entry.
fn accepted(alloc: Global, rule: Rule, number: u64, proof: Part) -> Result<StepAnswer, Memory>
    ensures { IfOk result (λ answer. answer ≡ Accepted rule (number ∷ []) (Lemma proof ∷ [])) }
{
    let mut cites = List::new(alloc);
    cites.push(number)?;
    let entries = lemma(alloc, proof)?;
    Ok(StepAnswer::Accepted {
        rule,
        cites,
        entries,
    })
}
