//! How far steps are taken back.
ghost use Rattle.std.specs.Prelude.{◌≤◌, length, IfSome, OnOk};
ghost use Rattle.clause_learning.specs.code.Cuts.{IsCut, IsCutTo};

use crate::marks::Marks;
use crate::order::Order;
use crate::trail::Trail;
use std::alloc::AllocError;

/// The place of the first step that was taken freely and has no marked step behind it, if there is one.
pub fn cut(trail: &Trail, marks: &Marks) -> Option<usize>
    ensures { IfSome result (IsCut trail.now.steps marks.now) }
{
    let steps = trail.steps.as_slice();
    let mut keep = None;
    let mut place = steps.len();
    'steps: while place > 0 {
        place -= 1;
        let step = steps[place];
        if marks.has(step.literal.atom) {
            return keep;
        }
        if step.reason.is_none() {
            keep = Some(place);
        }
    }
    keep
}

/// Takes steps back until no more than that many are left.
pub fn retreat(trail: &mut Trail, keep: usize, order: &mut Order) -> Result<(), AllocError>
    requires { keep ≤ length trail.old.steps }
    ensures { OnOk result (IsCutTo trail.old keep trail.new) }
{
    'steps: while keep < trail.steps.len() {
        let Some(step) = trail.undo() else {
            return Ok(());
        };
        order.put(step.literal)?;
    }
    Ok(())
}
