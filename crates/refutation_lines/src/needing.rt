// What a derivation prints and uses.
ghost use Rattle.std.specs.Prelude.{◌≡◌, ◌==◌, ◌∷◌, [], if◌then◌else◌, length, IfOk};
ghost use Rattle.std.specs.List.{list_any};
ghost use Rattle.printed_clauses.specs.Marks.{Marks};
ghost use Rattle.refutation_lines.specs.Needs.{is_input, owner_of};
ghost use Rattle.refutation_lines.specs.Needs.{printed_inputs as printed_of, used_parts as used_of};

use crate::placing::number_at;
use printed_clauses::{mark, unmarked};
use saturation::{Member, Origin};
use std::alloc::Global;
use tptp_base::{List, Memory};

/// Which of so many inputs are printed: those that are needed members.
pub(crate) fn printed_inputs(
    alloc: Global,
    count: usize,
    members: &[Member],
    needed: &[bool],
) -> Result<List<bool>, Memory>
    requires { length needed.now ≡ length members.now }
    ensures { IfOk result (λ printed. printed ≡ printed_of needed.now members.now count) }
{
    let mut marks = unmarked(alloc, count)?;
    for at in 0..members.len() {
        mark_if_needed(needed[at], &members[at], &mut marks);
    }
    Ok(marks)
}

// Marks the input that the member is, if it is needed.
fn mark_if_needed(is_needed: bool, member: &Member, marks: &mut List<bool>)
    ensures { Marks (λ k. list_any (is_input k) (if is_needed then member.now.origin ∷ [] else []))
        marks.old marks.new }
{
    if !is_needed {
        return;
    }
    mark_input(&member.origin, marks);
}

// Marks the input of that origin.
fn mark_input(origin: &Origin, marks: &mut List<bool>)
    ensures { Marks (λ k. is_input k origin.now) marks.old marks.new }
{
    match origin {
        Origin::Input(number) => mark(*number as usize, marks),
        Origin::Inferred(_, _, _) => {}
    }
}

/// Which of so many parts are used: those of printed inputs, and that of the last clause.
pub(crate) fn used_parts(
    alloc: Global,
    count: usize,
    owners: &[usize],
    printed: &[bool],
    last: &Origin,
) -> Result<List<bool>, Memory>
    requires { length printed.now ≡ length owners.now }
    ensures { IfOk result (λ used. used ≡ used_of owners.now printed.now last.now count) }
{
    let mut marks = unmarked(alloc, count)?;
    for at in 0..owners.len() {
        mark_if(printed[at], owners[at], &mut marks);
    }
    mark_owner(owners, last, &mut marks);
    Ok(marks)
}

// Marks the part, if its input is printed.
fn mark_if(is_printed: bool, owner: usize, marks: &mut List<bool>)
    ensures { Marks (λ k. list_any (λ o. o == k) (if is_printed then owner ∷ [] else [])) marks.old marks.new }
{
    if !is_printed {
        return;
    }
    mark(owner, marks);
}

// Marks the part of an input.
fn mark_owner(owners: &[usize], origin: &Origin, marks: &mut List<bool>)
    ensures { Marks (λ k. list_any (λ o. o == k) (owner_of owners.now origin.now)) marks.old marks.new }
{
    match origin {
        Origin::Input(number) => mark(number_at(owners, *number as usize), marks),
        Origin::Inferred(_, _, _) => {}
    }
}
