//! The search for a place of its own for each literal of a member, each place tried for each literal in turn.
ghost use Rattle.std.specs.Prelude.{◌≡◌, ◌<◌, ◌≤◌, false, length, Some, slice_get, IfOk};
ghost use Rattle.clause_form.specs.Covers.{AreSorted, scope_of};
ghost use Rattle.subsumption.specs.code.Matched.{IsTable};
ghost use Rattle.subsumption.specs.code.Placed.{Anywhere, AreSortedIn, IsAt, IsPlaced, IsThere, IsTrial};

use crate::becoming::becomes;
use crate::bindings::Bindings;
use crate::task::Task;
use clause_form::AtomOf;
use tptp_base::Memory;

/// Whether each literal from number `from` on has a place of its own among those that are not taken.
#[cycle(placing)]
pub fn place_from<'a>(
    task: &Task<'a>,
    bindings: &mut Bindings<'a>,
    taken: &mut [bool],
    from: usize,
) -> Result<bool, Memory>
    requires sorted { AreSortedIn task.now }
    requires table { IsTable task.now bindings.old }
    requires size { length taken.old ≡ length task.now.clause.now.lits }
    ensures { IfOk result (λ answer.
        IsPlaced task.now bindings.old bindings.new taken.old taken.new from Anywhere answer) }
{
    if from >= task.member.lits.len() {
        return Ok(true);
    }
    for place in 0..taken.len() {
        if let Some(answer) = place_at(task, bindings, taken, from, place)? {
            return Ok(answer);
        }
    }
    Ok(false)
}

// The same, with the first of these at this place; None where this place will not do, and others may.
#[cycle(placing)]
fn place_at<'a>(
    task: &Task<'a>,
    bindings: &mut Bindings<'a>,
    taken: &mut [bool],
    from: usize,
    place: usize,
) -> Result<Option<bool>, Memory>
    requires sorted { AreSortedIn task.now }
    requires table { IsTable task.now bindings.old }
    requires size { length taken.old ≡ length task.now.clause.now.lits }
    requires from { from < length task.now.member.now.lits }
    requires place { place < length taken.old }
    ensures { IfOk result (λ answer.
        IsTrial task.now bindings.old bindings.new taken.old taken.new from (IsThere from place) answer) }
{
    if taken[place] {
        return Ok(None);
    }
    if let Some(answer) = place_in_way(task, bindings, taken, from, place, false)? {
        return Ok(Some(answer));
    }
    match &task.member.lits.as_slice()[from].atom {
        AtomOf::Eq(_, _) => place_in_way(task, bindings, taken, from, place, true),
        _ => Ok(None),
    }
}

// The same, with its sides exchanged or not. Where no variable had to be bound for it, no other place serves better: what
// stands there could stand here.
#[cycle(placing)]
fn place_in_way<'a>(
    task: &Task<'a>,
    bindings: &mut Bindings<'a>,
    taken: &mut [bool],
    from: usize,
    place: usize,
    exchanged: bool,
) -> Result<Option<bool>, Memory>
    requires sorted { AreSortedIn task.now }
    requires table { IsTable task.now bindings.old }
    requires size { length taken.old ≡ length task.now.clause.now.lits }
    requires from { from < length task.now.member.now.lits }
    requires free { slice_get taken.old place ≡ Some false }
    ensures { IfOk result (λ answer. IsTrial task.now bindings.old bindings.new taken.old taken.new from
        (IsAt task.now from place exchanged) answer) }
{
    let count = bindings.count();
    let lit = &task.member.lits.as_slice()[from];
    let target = &task.clause.lits.as_slice()[place];
    if !becomes(task, bindings, lit, target, exchanged)? {
        bindings.undo(count);
        return Ok(None);
    }
    let bound = bindings.count();
    taken[place] = true;
    if place_from(task, bindings, taken, from + 1)? {
        return Ok(Some(true));
    }
    taken[place] = false;
    bindings.undo(count);
    if bound == count {
        return Ok(Some(false));
    }
    Ok(None)
}
