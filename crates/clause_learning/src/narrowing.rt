//! What is held where a walk has stopped loses literals that follow from its others.
ghost use Rattle.std.specs.Prelude.{◌≡◌, ◌<◌, ℕ, Some, length, slice_get, IfSome, IsTrue, OnOk};
ghost use Rattle.clause_learning.specs.Valuations.{HasAtoms};
ghost use Rattle.clause_learning.specs.code.Trails.{clauses_of, value_at};
ghost use Rattle.clause_learning.specs.code.Held.{AreBefore, IsBefore, IsStoppedAt};

use crate::analysis::{Stop, resolve};
use crate::clauses::Clauses;
use crate::level::Level;
use crate::literal::Literal;
use crate::marks::Marks;
use crate::plan::Plan;
use crate::trail::{Step, Trail};
use sqlite_items::Items as List;
use std::alloc::AllocError;

/// Resolves what is held with the reasons of those literals that the plan finds to follow from others.
pub fn narrow(
    clauses: &Clauses,
    trail: &Trail,
    stop: Stop,
    plan: &mut Plan,
    marks: &mut Marks,
    level: &mut Level,
    from: &mut List<u64>,
) -> Result<(), AllocError>
    requires within { HasAtoms (length marks.old.marks) (clauses_of clauses.now) }
    requires stopped { IsStoppedAt (clauses_of clauses.now) from.old marks.old trail.now stop }
    ensures many { OnOk result (length marks.new.marks ≡ length marks.old.marks) }
    ensures stopped { OnOk result (IsStoppedAt (clauses_of clauses.now) from.new marks.new trail.now stop) }
{
    plan.make(clauses, trail, marks)?;
    'atoms: while let Some(atom) = plan.order.pop() {
        drop_atom(clauses, trail, stop, atom, marks, level, from)?;
    }
    Ok(())
}

// Resolves what is held with the reason of the atom, if it is held and no literal of the reason is of a step that is to
// be taken back.
fn drop_atom(
    clauses: &Clauses,
    trail: &Trail,
    stop: Stop,
    atom: usize,
    marks: &mut Marks,
    level: &mut Level,
    from: &mut List<u64>,
) -> Result<(), AllocError>
    requires within { HasAtoms (length marks.old.marks) (clauses_of clauses.now) }
    requires stopped { IsStoppedAt (clauses_of clauses.now) from.old marks.old trail.now stop }
    ensures many { OnOk result (length marks.new.marks ≡ length marks.old.marks) }
    ensures stopped { OnOk result (IsStoppedAt (clauses_of clauses.now) from.new marks.new trail.now stop) }
{
    let Some(step) = step_of(trail, atom) else {
        return Ok(());
    };
    let Some(number) = step.reason else {
        return Ok(());
    };
    let Some(clause) = clauses.get(number) else {
        return Ok(());
    };
    let lits = clause.as_slice();
    if marks.has(step.literal.atom) && are_before(lits, trail, step.literal.atom, stop.keep) {
        resolve(lits, number, step.literal.atom, trail, marks, level, from)?;
        return Ok(());
    }
    Ok(())
}

// The step that gave the atom its value.
fn step_of(trail: &Trail, atom: usize) -> Option<Step>
    ensures { IfSome result (λ step. (place : ℕ) × (slice_get trail.now.steps place ≡ Some step)) }
{
    let value = trail.value(atom)?;
    let step = trail.steps.get(value.place)?;
    Some(*step)
}

// Whether the literals of other atoms than this have values that were given before so many steps.
fn are_before(lits: &[Literal], trail: &Trail, atom: usize, keep: usize) -> bool
    ensures { IsTrue result → AreBefore trail.now.values lits.now atom keep }
{
    for lit in lits {
        if lit.atom != atom && !is_before(trail, lit.atom, keep) {
            return false;
        }
    }
    true
}

// Whether the atom has a value that was given before so many steps.
fn is_before(trail: &Trail, atom: usize, keep: usize) -> bool
    ensures { IsTrue result → IsBefore trail.now.values atom keep }
{
    match trail.value(atom) {
        Some(value) => value.place < keep,
        None => false,
    }
}
