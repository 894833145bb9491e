//! Entries by a refutation of the clauses of a propositional step.
ghost use Rattle.std.specs.Prelude.{◌≡◌, false, length, IfOk};
ghost use Rattle.clause_form.specs.Paths.{forms_of};
ghost use Rattle.clause_rules.specs.Steps.{AreReady, IsReady};
ghost use Rattle.derive_kit.specs.Derived.{AreOfTheory, IsDerivedFrom, numbers_of};
ghost use Rattle.kernel.specs.Statements.{AreClosed};
ghost use Rattle.sat_step.specs.Decisions.{IsRefuted};
ghost use Rattle.sat_step.specs.Propositional.{IsPropositionalStep, propositional_clauses};
ghost use Rattle.step_clauses.specs.Room.{HasRoom};
ghost use Rattle.step_clauses.specs.Wide.{is_wide};

use crate::naming::named_inputs;
use crate::refuting::proofs_of_refutation;
use clause_form::{Clause, FormFault, Parent};
use fof_terms::Form;
use input_proofs::{OpenedInputs, open_inputs};
use kernel::Entry;
use negated_lemmas::lemmas_of_refutation;
use proof_check::Theory;
use sat_step::Learned;
use search_proofs::further;
use std::alloc::Global;
use step_clauses::search_input;
use tptp_base::{List, Memory};

/// Entries that derive the line from the parents, by a log that refutes the clauses of the step.
pub fn sat_entries(
    alloc: Global,
    theory: &Theory,
    parents: &[Parent],
    line: &Form,
    log: &[Learned],
) -> Result<List<Entry>, Memory>
    requires closed { AreClosed theory.now }
    requires parents { AreOfTheory theory.now parents.now }
    requires ready { AreReady theory.now.vocabulary parents.now }
    requires line { IsReady theory.now.vocabulary line.now }
    requires room { HasRoom (length theory.now.vocabulary.symbols) (forms_of parents.now) line.now }
    requires narrow { is_wide (length theory.now.vocabulary.symbols) (forms_of parents.now) line.now ≡ false }
    requires propositional { IsPropositionalStep (forms_of parents.now) line.now }
    requires log { IsRefuted (propositional_clauses (forms_of parents.now) line.now) log.now }
    ensures { IfOk result (λ entries. IsDerivedFrom theory.now (numbers_of parents.now) entries line.now) }
{
    let clauses = clauses_of_step(alloc, theory, parents, line)?;
    entries_by(alloc, theory, parents, line, clauses.as_slice(), log)
}

/// The clauses of a propositional step that is not wide.
pub(crate) fn clauses_of_step(
    alloc: Global,
    theory: &Theory,
    parents: &[Parent],
    line: &Form,
) -> Result<List<Clause>, Memory>
    requires ready { AreReady theory.now.vocabulary parents.now }
    requires line { IsReady theory.now.vocabulary line.now }
    requires room { HasRoom (length theory.now.vocabulary.symbols) (forms_of parents.now) line.now }
    requires narrow { is_wide (length theory.now.vocabulary.symbols) (forms_of parents.now) line.now ≡ false }
    requires propositional { IsPropositionalStep (forms_of parents.now) line.now }
    ensures { IfOk result (λ clauses. clauses ≡ propositional_clauses (forms_of parents.now) line.now) }
{
    let next = theory.signature().symbol_count();
    match search_input(alloc, parents, line, next) {
        Ok(input) => Ok(input.clauses),
        // The step is not wide, so it is want of memory.
        Err(FormFault::Memory) | Err(FormFault::Wide) => Err(Memory),
    }
}

/// The same as `sat_entries`, with the clauses of the step.
pub(crate) fn entries_by(
    alloc: Global,
    theory: &Theory,
    parents: &[Parent],
    line: &Form,
    clauses: &[Clause],
    log: &[Learned],
) -> Result<List<Entry>, Memory>
    requires closed { AreClosed theory.now }
    requires parents { AreOfTheory theory.now parents.now }
    requires ready { AreReady theory.now.vocabulary parents.now }
    requires line { IsReady theory.now.vocabulary line.now }
    requires room { HasRoom (length theory.now.vocabulary.symbols) (forms_of parents.now) line.now }
    requires narrow { is_wide (length theory.now.vocabulary.symbols) (forms_of parents.now) line.now ≡ false }
    requires propositional { IsPropositionalStep (forms_of parents.now) line.now }
    requires clauses { clauses.now ≡ propositional_clauses (forms_of parents.now) line.now }
    requires log { IsRefuted clauses.now log.now }
    ensures { IfOk result (λ entries. IsDerivedFrom theory.now (numbers_of parents.now) entries line.now) }
{
    let wanted = named_inputs(alloc, clauses.len(), log)?;
    let wanted = wanted.as_slice();
    let opened = open_inputs(alloc, theory, parents, line, wanted)?;
    let OpenedInputs {
        choices,
        facts,
        proofs,
    } = opened;
    let denied = further(theory.len(), choices.len())?;
    let start = further(denied, 1)?;
    let proofs = proofs_of_refutation(alloc, start, facts, proofs, clauses, wanted, log)?;
    further(denied, proofs.len())?;
    let lemmas = lemmas_of_refutation(alloc, line, denied, proofs.as_slice())?;
    let mut entries = choices;
    entries.append(lemmas)?;
    Ok(entries)
}
