//! What is learned from a clause that is false.
ghost use Rattle.std.specs.Prelude.{◌≡◌, ◌++◌, ◌∷◌, [], length, IfOk, IfSome, OnOk};
ghost use Rattle.clause_learning.specs.Valuations.{HasAtoms};
ghost use Rattle.clause_learning.specs.code.Trails.{clauses_of, IsTrail, IsJustified};
ghost use Rattle.clause_learning.specs.code.Marked.{AreWithin};
ghost use Rattle.clause_learning.specs.code.Cuts.{IsCut};
ghost use Rattle.clause_learning.specs.code.Held.{IsHeld, IsHeldAt, IsMerged, IsPassed, IsWalked, IsCollected, IsBegun};

use crate::clauses::Clauses;
use crate::level::Level;
use crate::literal::Literal;
use crate::marks::Marks;
use crate::order::Order;
use crate::retreating::cut;
use crate::trail::{Step, Trail};
use sqlite_items::Items as List;
use std::alloc::{AllocError, Global};

/// Where a walk stops: at this literal, and that many steps are to be kept.
#[derive(Clone, Copy, Drop)]
pub struct Stop {
    pub literal: Literal,
    pub keep: usize,
}

/// Resolves what is held with the clause of this number, on this atom.
pub fn resolve(
    clause: &[Literal],
    number: usize,
    atom: usize,
    trail: &Trail,
    marks: &mut Marks,
    level: &mut Level,
    from: &mut List<u64>,
) -> Result<(), AllocError>
    requires { AreWithin (length marks.old.marks) clause.now }
    ensures marks { OnOk result (IsMerged marks.old clause.now atom marks.new) }
    ensures from { OnOk result (from.new ≡ from.old ++ number ∷ []) }
{
    marks.mark_all(clause, trail, level)?;
    marks.unmark(atom);
    from.push(number as u64)?;
    Ok(())
}

// How many steps are to be kept, if the last step was the only one of its level that is marked.
fn cut_at_last(trail: &Trail, marks: &Marks, level: &mut Level) -> Option<usize>
    ensures { IfSome result (IsCut trail.now.steps marks.now) }
{
    if level.leave() {
        return cut(trail, marks);
    }
    None
}

// How many steps are to be kept, if the walk stops at this step, which was taken back: where what is held has the
// opposite of its literal, and no clause gave it, or no other literal of its level is held. If it does not stop, what is
// held is resolved with the clause that gave the literal.
fn pass(
    clauses: &Clauses,
    trail: &Trail,
    step: Step,
    marks: &mut Marks,
    level: &mut Level,
    from: &mut List<u64>,
) -> Result<Option<usize>, AllocError>
    requires { HasAtoms (length marks.old.marks) (clauses_of clauses.now) }
    ensures many { OnOk result (length marks.new.marks ≡ length marks.old.marks) }
    ensures passed { IfOk result (λ keep.
        IsJustified (clauses_of clauses.now) step.reason step.literal trail.now.values
        → IsHeldAt (clauses_of clauses.now) from.old marks.old trail.now.values step.literal
        → IsPassed (clauses_of clauses.now) from.new marks.new trail.now step keep) }
{
    if !marks.has(step.literal.atom) {
        return Ok(None);
    }
    let Some(number) = step.reason else {
        return Ok(Some(trail.steps.len()));
    };
    if let Some(keep) = cut_at_last(trail, marks, level) {
        return Ok(Some(keep));
    }
    if let Some(clause) = clauses.get(number) {
        resolve(
            clause.as_slice(),
            number,
            step.literal.atom,
            trail,
            marks,
            level,
            from,
        )?;
    }
    Ok(None)
}

/// Walks back over the trail from a clause that is false, and resolves it with the reasons of its literals, until none
/// is left, or one that alone is of its level, or that was taken freely.
pub fn walk(
    clauses: &Clauses,
    trail: &mut Trail,
    marks: &mut Marks,
    level: &mut Level,
    order: &mut Order,
    from: &mut List<u64>,
) -> Result<Option<Stop>, AllocError>
    requires within { HasAtoms (length marks.old.marks) (clauses_of clauses.now) }
    requires trail { IsTrail (clauses_of clauses.now) trail.old }
    requires held { IsHeld (clauses_of clauses.now) from.old marks.old trail.old.values }
    ensures many { OnOk result (length marks.new.marks ≡ length marks.old.marks) }
    ensures walked { IfOk result (IsWalked (clauses_of clauses.now) from.new marks.new trail.old trail.new) }
{
    'walk: while let Some(step) = trail.undo() {
        order.put(step.literal)?;
        if let Some(keep) = pass(clauses, trail, step, marks, level, from)? {
            return Ok(Some(Stop {
                literal: step.literal,
                keep,
            }));
        }
    }
    Ok(None)
}

/// The literals of what is held: this one, and those of the marked atoms that are false.
pub fn collect(
    alloc: Global,
    asserted: Literal,
    trail: &Trail,
    marks: &Marks,
) -> Result<List<Literal>, AllocError>
    ensures { IfOk result (IsCollected asserted trail.now.values marks.now) }
{
    let mut lits = List::new(alloc);
    lits.push(asserted)?;
    let touched = marks.touched.as_slice();
    for atom in touched {
        if marks.has(*atom) {
            if let Some(value) = trail.value(*atom) {
                lits.push(Literal {
                    atom: *atom,
                    positive: !value.positive,
                })?;
            }
        }
    }
    Ok(lits)
}

/// Holds the clause of this number, which is false.
pub fn begin(
    clauses: &Clauses,
    number: usize,
    trail: &Trail,
    marks: &mut Marks,
    level: &mut Level,
    from: &mut List<u64>,
) -> Result<(), AllocError>
    requires { HasAtoms (length marks.old.marks) (clauses_of clauses.now) }
    ensures many { OnOk result (length marks.new.marks ≡ length marks.old.marks) }
    ensures begun { OnOk result (IsBegun (clauses_of clauses.now) number from.old marks.old from.new marks.new) }
{
    if let Some(clause) = clauses.get(number) {
        marks.mark_all(clause.as_slice(), trail, level)?;
    }
    from.push(number as u64)?;
    Ok(())
}
