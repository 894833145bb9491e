//! Propositional steps decided.
ghost use Rattle.std.specs.Prelude.{◌≡◌, false, length, IfOk};
ghost use Rattle.clause_form.specs.Paths.{forms_of};
ghost use Rattle.clause_rules.specs.Steps.{AreReady, IsReady};
ghost use Rattle.derive_kit.specs.Derived.{AreOfTheory};
ghost use Rattle.kernel.specs.Statements.{AreClosed};
ghost use Rattle.sat_entries.specs.Decided.{IsDecided};
ghost use Rattle.step_clauses.specs.Room.{HasRoom};
ghost use Rattle.step_clauses.specs.Wide.{is_wide};

use crate::entries::{clauses_of_step, entries_by};
use crate::propositional::is_propositional_step;
use clause_form::Parent;
use fof_terms::Form;
use kernel::Entry;
use proof_check::Theory;
use sat_step::{Decision, decide};
use std::alloc::Global;
use tptp_base::{List, Memory};

/// Entries that derive the line from the parents, where the step is propositional and the parents entail the line. None
/// exactly where it is not both.
pub fn decide_step(
    alloc: Global,
    theory: &Theory,
    parents: &[Parent],
    line: &Form,
) -> Result<Option<List<Entry>>, Memory>
    requires closed { AreClosed theory.now }
    requires parents { AreOfTheory theory.now parents.now }
    requires ready { AreReady theory.now.vocabulary parents.now }
    requires line { IsReady theory.now.vocabulary line.now }
    requires room { HasRoom (length theory.now.vocabulary.symbols) (forms_of parents.now) line.now }
    requires narrow { is_wide (length theory.now.vocabulary.symbols) (forms_of parents.now) line.now ≡ false }
    ensures { IfOk result (IsDecided theory.now parents.now line.now) }
{
    let is_propositional = is_propositional_step(alloc, parents, line)?;
    if !is_propositional {
        return Ok(None);
    }
    let clauses = clauses_of_step(alloc, theory, parents, line)?;
    let clauses = clauses.as_slice();
    match decide(alloc, clauses)? {
        Decision::Refuted(log) => {
            let entries = entries_by(alloc, theory, parents, line, clauses, log.as_slice())?;
            Ok(Some(entries))
        }
        Decision::Valuation(_) => Ok(None),
    }
}
