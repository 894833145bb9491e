// The given formulas as those of a step.
ghost use Rattle.std.specs.Prelude.{◌≡◌, IfOk};
ghost use Rattle.problem_proofs.specs.Posed.{parents_of as parents_of_given};

use clause_form::Parent;
use sort_check::GivenEntry;
use std::alloc::Global;
use tptp_base::{List, Memory};

/// The given formulas, from which falsehood is to follow. They have no numbers of their own.
pub(crate) fn parents_of(alloc: Global, given: &[GivenEntry]) -> Result<List<Parent>, Memory>
    ensures { IfOk result (λ parents. parents ≡ parents_of_given given.now) }
{
    let mut parents = List::new(alloc);
    for entry in given {
        let form = entry.form.copy(alloc)?;
        parents.push(Parent { number: 0, form })?;
    }
    Ok(parents)
}
