ghost use Rattle.std.specs.Prelude.{◌≡◌, IfOk, OnOk};
ghost use Rattle.saturation.specs.code.Steps.{Places, Sifts};

use crate::member::Member;
use crate::queue::Queue;
use crate::waiting::Waiting;
use clause_form::is_trivial;
use clause_order::clause_weight_of;
use std::alloc::Global;
use tptp_base::{List, Memory};

/// Sends each member where it belongs, up to one that is empty.
pub fn sift(
    alloc: Global,
    mut todo: List<Waiting>,
    bound: u64,
    queue: &mut Queue,
    heavy: &mut List<Waiting>,
) -> Result<Option<Member>, Memory>
    ensures { IfOk result (Sifts bound todo queue.old heavy.old queue.new heavy.new) }
{
    while let Some(next) = todo.pop() {
        if next.is_empty() {
            return Ok(Some(next.member(alloc)?));
        }
        place(alloc, next, bound, queue, heavy)?;
    }
    Ok(None)
}

// Sends a member to the queue or to what is too heavy. Drops it where an equal clause waits, or where it is trivial.
fn place(
    alloc: Global,
    member: Waiting,
    bound: u64,
    queue: &mut Queue,
    heavy: &mut List<Waiting>,
) -> Result<(), Memory>
    ensures { OnOk result (Places bound member queue.old heavy.old queue.new heavy.new) }
{
    let sum = member.sum();
    if queue.has(sum, &member) {
        return Ok(());
    }
    let clause = member.clause(alloc)?;
    if is_trivial(&clause) {
        return Ok(());
    }
    let weight = clause_weight_of(&clause);
    if weight > bound {
        Ok(heavy.push(member)?)
    } else {
        queue.push(weight, sum, member)
    }
}
