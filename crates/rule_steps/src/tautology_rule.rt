ghost use Rattle.std.specs.Prelude.{IfOk};
ghost use Rattle.clause_rules.specs.Answers.{IsAnswer, tautology};

use clause_form::{Parent, as_clause, is_trivial};
use clause_rules::Just;
use fof_terms::{Form, Signature};
use std::alloc::Global;
use tptp_base::Memory;

/// A justification by the rule `tautology`: the line is a clause that is true by its form. None exactly where it isn't.
pub fn tautology_step(
    alloc: Global,
    sig: &Signature,
    parents: &[Parent],
    line: &Form,
) -> Result<Option<Just>, Memory>
    ensures { IfOk result (λ answer. IsAnswer sig.now parents.now line.now tautology answer) }
{
    match as_clause(alloc, line)? {
        Some(clause) => {
            if is_trivial(&clause) {
                Ok(Some(Just::Tautology))
            } else {
                Ok(None)
            }
        }
        None => Ok(None),
    }
}
