//! The rules by which a line follows from the clauses that parents are.
ghost use Rattle.std.specs.Prelude.{◌≡◌, true, IfOk};
ghost use Rattle.clause_rules.specs.Answers.{IsAnswer, ShapeRule};
ghost use Rattle.clause_rules.specs.Settled.{IsFit};
ghost use Rattle.clause_rules.specs.Steps.{AreReady, IsReady};
ghost use Rattle.rule_steps.specs.code.AmongClauses.{AnswersBy, gives_clauses};
ghost use Rattle.rule_steps.specs.code.SlotFits.{AllFit};

use crate::search::Search;
use clause_form::{Parent, as_clause};
use clause_rules::Just;
use fof_terms::{Form, Signature};
use std::alloc::Global;
use substitution_search::clauses_of_parents;
use tptp_base::Memory;

/// A rule that looks at clauses alone.
pub trait ClauseRule {
    /// Which of the rules it is.
    ghost rule: { ShapeRule };

    /// A justification by the rule. None exactly where there is none.
    fn among(search: &Search<'_>) -> Result<Option<Just>, Memory>
        requires clauses { AllFit search.now.sig.now search.now.clauses.now }
        requires line { IsFit search.now.sig.now search.now.line.now }
        ensures { IfOk result (λ found. AnswersBy rule search.now found) };

    /// All lines that it gives are clauses.
    ghost clauses_alone: { gives_clauses rule ≡ true };
}

/// A justification of a line by the rule, from the clauses that the parents are. None exactly where there is none.
pub fn step_by<R: ClauseRule>(
    alloc: Global,
    sig: &Signature,
    parents: &[Parent],
    line: &Form,
) -> Result<Option<Just>, Memory>
    requires parents { AreReady sig.now parents.now }
    requires line { IsReady sig.now line.now }
    ensures { IfOk result (λ answer. IsAnswer sig.now parents.now line.now R.rule answer) }
{
    match as_clause(alloc, line)? {
        Some(line) => {
            let clauses = clauses_of_parents(alloc, parents)?;
            let search = Search {
                alloc,
                sig,
                clauses: clauses.as_slice(),
                line: &line,
            };
            R::among(&search)
        }
        None => Ok(None),
    }
}
