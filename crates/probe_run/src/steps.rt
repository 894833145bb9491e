// The answers to steps and to leaves.
ghost use Rattle.std.specs.Prelude.{IfOk, length};
ghost use Rattle.clause_form.specs.Paths.{forms_of};
ghost use Rattle.clause_rules.specs.Steps.{AreReady, IsReady};
ghost use Rattle.derive_kit.specs.Derived.{AreOfTheory};
ghost use Rattle.elaborate.specs.Answers.{IsLeafAnswer, IsStepAnswer};
ghost use Rattle.kernel.specs.Statements.{AreClosed};
ghost use Rattle.step_clauses.specs.Room.{HasRoom};

use crate::{Control, Probe};
use clause_form::Parent;
use elaborate::{StepAnswer, leaf, step};
use fof_terms::Form;
use proof_check::Theory;
use std::alloc::Global;
use tptp_base::Memory;

/// Answers steps and leaves.
pub trait Answering {
    /// The first rule by which the line follows from some parents, or else `Search` or `Sat`, with entries that derive it.
    fn step(
        alloc: Global,
        theory: &Theory,
        parents: &[Parent],
        line: &Form,
        limit: u32,
    ) -> Result<StepAnswer, Memory>
        requires parents { AreOfTheory theory.now parents.now }
        requires ready { AreReady theory.now.vocabulary parents.now }
        requires line { IsReady theory.now.vocabulary line.now }
        requires closed { AreClosed theory.now }
        requires room { HasRoom (length theory.now.vocabulary.symbols) (forms_of parents.now) line.now }
        ensures { IfOk result (IsStepAnswer theory.now parents.now line.now limit) };

    /// The first rule for leaves by which the line follows from one of the candidates, or else `Search` or `Sat`, with
    /// entries that derive it.
    fn leaf(
        alloc: Global,
        theory: &Theory,
        candidates: &[Parent],
        cited: bool,
        line: &Form,
        limit: u32,
    ) -> Result<StepAnswer, Memory>
        requires candidates { AreOfTheory theory.now candidates.now }
        requires ready { AreReady theory.now.vocabulary candidates.now }
        requires line { IsReady theory.now.vocabulary line.now }
        requires closed { AreClosed theory.now }
        requires room { HasRoom (length theory.now.vocabulary.symbols) (forms_of candidates.now) line.now }
        ensures { IfOk result (IsLeafAnswer theory.now candidates.now cited line.now limit) };
}

impl Answering for Probe {
    fn step(
        alloc: Global,
        theory: &Theory,
        parents: &[Parent],
        line: &Form,
        limit: u32,
    ) -> Result<StepAnswer, Memory> {
        step(alloc, theory, parents, line, limit)
    }

    fn leaf(
        alloc: Global,
        theory: &Theory,
        candidates: &[Parent],
        cited: bool,
        line: &Form,
        limit: u32,
    ) -> Result<StepAnswer, Memory> {
        leaf(alloc, theory, candidates, cited, line, limit)
    }
}

impl Answering for Control {
    fn step(
        alloc: Global,
        theory: &Theory,
        parents: &[Parent],
        line: &Form,
        limit: u32,
    ) -> Result<StepAnswer, Memory> {
        match step(alloc, theory, parents, line, limit)? {
            StepAnswer::Accepted {
                rule,
                cites,
                entries,
            } => Ok(StepAnswer::Accepted {
                rule,
                cites,
                entries,
            }),
            StepAnswer::Unverified(reason) => Ok(StepAnswer::Unverified(reason)),
        }
    }

    fn leaf(
        alloc: Global,
        theory: &Theory,
        candidates: &[Parent],
        cited: bool,
        line: &Form,
        limit: u32,
    ) -> Result<StepAnswer, Memory> {
        let answer = if cited {
            leaf(alloc, theory, candidates, true, line, limit)?
        } else {
            leaf(alloc, theory, candidates, false, line, limit)?
        };
        Ok(answer)
    }
}
