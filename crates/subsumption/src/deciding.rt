ghost use Rattle.std.specs.Prelude.{◌↔◌, IfOk, IsTrue};
ghost use Rattle.clause_form.specs.Covers.{AreSorted, scope_of};
ghost use Rattle.subsumption.specs.Subsumes.{Subsumes};
ghost use Rattle.subsumption.specs.code.Placed.{AreSortedIn};

use crate::bindings::no_bindings;
use crate::placing::place_from;
use crate::screening::all_fit;
use crate::task::Task;
use clause_form::Clause;
use fof_terms::Signature;
use smallvec::SmallVec;
use std::alloc::Global;
use tptp_base::Memory;

/// Whether the member subsumes the clause. No memory is taken before the heads of all literals fit.
pub fn subsumes(
    alloc: Global,
    signature: &Signature,
    member: &Clause,
    clause: &Clause,
) -> Result<bool, Memory>
    requires member_sorted { AreSorted signature.now (scope_of member.now) member.now.lits }
    requires clause_sorted { AreSorted signature.now (scope_of clause.now) clause.now.lits }
    ensures { IfOk result (λ answer. IsTrue answer ↔ Subsumes signature.now member.now clause.now) }
{
    if member.lits.len() > clause.lits.len() {
        return Ok(false);
    }
    if !all_fit(clause.lits.as_slice(), member.lits.as_slice()) {
        return Ok(false);
    }
    let task = Task {
        signature,
        member,
        clause,
    };
    have_places(alloc, &task)
}

// Whether the literals of the member have places in the clause.
fn have_places(alloc: Global, task: &Task<'_>) -> Result<bool, Memory>
    requires { AreSortedIn task.now }
    ensures { IfOk result (λ answer.
        IsTrue answer ↔ Subsumes task.now.signature.now task.now.member.now task.now.clause.now) }
{
    let mut bindings = no_bindings(alloc, task.member.sorts.len())?;
    let mut taken: SmallVec<bool, 16> = SmallVec::with_capacity(alloc, task.clause.lits.len())?;
    for _ in 0..task.clause.lits.len() {
        taken.push(false)?;
    }
    place_from(task, &mut bindings, &mut taken, 0)
}
