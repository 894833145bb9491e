//! Which inputs a refutation needs.
ghost use Rattle.std.specs.Prelude.{◌≡◌, ℕ, true, false, Some, length, slice_get, IfOk};
ghost use Rattle.saturation.specs.declared.member.Member.{Member as Listed};
ghost use Rattle.search_proofs.specs.code.Wanting.{AreInputsMarked, IsInputBelow, MarksInput};

use crate::needing::unmarked;
use saturation::{Member, Origin};
use std::alloc::Global;
use tptp_base::{List, Memory};

/// Which of so many inputs the further member needs, by the members that are needed.
pub fn wanted_inputs(
    alloc: Global,
    count: usize,
    members: &[Member],
    needed: &[bool],
    last: &Member,
) -> Result<List<bool>, Memory>
    requires needed { length needed.now ≡ length members.now }
    requires last { IsInputBelow count last.now.origin }
    requires each { (j : ℕ) (m : Listed) → slice_get members.now j ≡ Some m → IsInputBelow count m.origin }
    ensures { IfOk result (AreInputsMarked count members.now needed.now last.now) }
{
    let mut marks = unmarked(alloc, count)?;
    mark_input(&mut marks, true, &last.origin);
    for at in 0..members.len() {
        mark_input(&mut marks, needed[at], &members[at].origin);
    }
    Ok(marks)
}

// Marks the origin's input, if it is needed and has one.
fn mark_input(marks: &mut List<bool>, needed: bool, origin: &Origin)
    requires { IsInputBelow (length marks.old) origin.now }
    ensures some { needed ≡ true → MarksInput origin.now marks.old marks.new }
    ensures none { needed ≡ false → marks.new ≡ marks.old }
{
    if !needed {
        return;
    }
    if let Origin::Input(number) = origin {
        marks.set(*number as usize, true);
    }
}
