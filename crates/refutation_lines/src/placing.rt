// Where clauses stand.
ghost use Rattle.std.specs.Prelude.{◌≡◌, ◌&&◌, length, get_or, IfOk};
ghost use Rattle.refutation_lines.specs.Places.{behind as place_behind, is_inferred};
ghost use Rattle.refutation_lines.specs.Places.{place_of as place_by, places_from, ranks_from};

use saturation::{Member, Origin};
use std::alloc::Global;
use tptp_base::{List, Memory};

/// How many marks stand before each place, and in all.
pub(crate) fn ranks_of(alloc: Global, marks: &[bool]) -> Result<List<usize>, Memory>
    ensures { IfOk result (λ ranks. ranks ≡ ranks_from 0 marks.now) }
{
    let mut ranks = List::new(alloc);
    let mut next = 0;
    for is_marked in marks {
        ranks.push(next)?;
        next = behind(next, *is_marked)?;
    }
    ranks.push(next)?;
    Ok(ranks)
}

// The place behind that of one that is there or not.
fn behind(place: usize, is_there: bool) -> Result<usize, Memory>
    ensures { IfOk result (λ next. next ≡ place_behind place is_there) }
{
    if !is_there {
        return Ok(place);
    }
    match place.checked_add(1) {
        Some(next) => Ok(next),
        // No memory holds so many clauses.
        None => Err(Memory),
    }
}

/// The place of each member: inputs at their ranks, and the needed ones that are inferred from the place `first` on.
pub(crate) fn places_of(
    alloc: Global,
    members: &[Member],
    needed: &[bool],
    ranks: &[usize],
    first: usize,
) -> Result<List<usize>, Memory>
    requires { length needed.now ≡ length members.now }
    ensures { IfOk result (λ places. places ≡ places_from ranks.now first needed.now members.now) }
{
    let mut places = List::new(alloc);
    let mut next = first;
    for at in 0..members.len() {
        let member = &members[at];
        places.push(place_of(ranks, next, &member.origin))?;
        next = behind_member(next, needed[at], &member.origin)?;
    }
    Ok(places)
}

// The place of what is of that origin, where the next inferred one stands at `next`.
fn place_of(ranks: &[usize], next: usize, origin: &Origin) -> usize
    ensures { result ≡ place_by ranks.now next origin.now }
{
    match origin {
        Origin::Input(number) => number_at(ranks, *number as usize),
        Origin::Inferred(_, _, _) => next,
    }
}

// The place behind that of a member of that origin, which has a place of its own where it is needed and inferred.
fn behind_member(next: usize, is_needed: bool, origin: &Origin) -> Result<usize, Memory>
    ensures { IfOk result (λ more. more ≡ place_behind next (is_inferred origin.now && is_needed)) }
{
    match origin {
        Origin::Input(_) => Ok(next),
        Origin::Inferred(_, _, _) => behind(next, is_needed),
    }
}

/// The number at the place, or 0 past the end.
pub(crate) fn number_at(numbers: &[usize], at: usize) -> usize
    ensures { result ≡ get_or numbers.now at 0 }
{
    match numbers.get(at) {
        Some(number) => *number,
        None => 0,
    }
}
