//! What the indexes get of a member.
ghost use Rattle.std.specs.Prelude.{◌≡◌, ◌++◌, ◌∷◌, [], length, true, OnOk, List as Clauses, option_to_list};
ghost use Rattle.clause_form.specs.declared.clause.Clause.{Clause as Disjunction};
ghost use Rattle.superpose.specs.Used.{AreUsed};
ghost use Rattle.saturation.specs.code.Entered.{AreEntered, entries_of};
ghost use Rattle.saturation.specs.code.Offers.{atom_at, side_at, spot_at, atom_offers, side_offers, spot_offers};

use crate::offers::{atom_in, side_in, spot_in};
use clause_form::{Clause, Lit};
use clause_index::Partners;
use std::alloc::Global;
use superpose::{Side, Spot, Used};
use tptp_base::Memory;

/// Enters the terms of the clause that inferences use, for its number.
pub fn enter<I: Partners>(
    alloc: Global,
    clause: &Clause,
    used: &Used,
    place: u32,
    literals: &mut I,
    terms: &mut I,
) -> Result<(), Memory>
    requires used { AreUsed clause.now.lits used.now }
    ensures literals { I.is_whole literals.new ≡ I.is_whole literals.old }
    ensures terms { I.is_whole terms.new ≡ I.is_whole terms.old }
    ensures entered { OnOk result ((list : Clauses Disjunction) → length list ≡ place
        → I.is_whole literals.old ≡ true → I.is_whole terms.old ≡ true
        → AreEntered list (I.entries literals.old) (I.entries terms.old)
        → AreEntered (list ++ clause.now ∷ []) (I.entries literals.new) (I.entries terms.new)) }
{
    let lits = clause.lits.as_slice();
    enter_atoms(alloc, lits, used.lits.as_slice(), place, literals)?;
    enter_sides(lits, used.sides.as_slice(), place, terms)?;
    enter_spots(lits, used.spots.as_slice(), place, terms)
}

// Adds the predicate atoms of these literals, for this number.
fn enter_atoms<I: Partners>(
    alloc: Global,
    lits: &[Lit],
    numbers: &[usize],
    place: u32,
    index: &mut I,
) -> Result<(), Memory>
    ensures whole { I.is_whole index.new ≡ I.is_whole index.old }
    ensures entered { OnOk result (I.is_whole index.old ≡ true → I.entries index.new
        ≡ I.entries index.old ++ entries_of place (atom_offers lits.now numbers.now)) }
{
    for number in numbers {
        enter_atom(alloc, lits, *number, place, index)?;
    }
    Ok(())
}

// Adds the predicate atom of the literal, if it has one.
fn enter_atom<I: Partners>(
    alloc: Global,
    lits: &[Lit],
    number: usize,
    place: u32,
    index: &mut I,
) -> Result<(), Memory>
    ensures whole { I.is_whole index.new ≡ I.is_whole index.old }
    ensures entered { OnOk result (I.is_whole index.old ≡ true → I.entries index.new
        ≡ I.entries index.old ++ entries_of place (option_to_list (atom_at lits.now number))) }
{
    match atom_in(alloc, lits, number)? {
        Some(offer) => index.add(place, offer.positive, &offer.term),
        None => Ok(()),
    }
}

// Adds these sides of equations.
fn enter_sides<I: Partners>(
    lits: &[Lit],
    sides: &[Side],
    place: u32,
    index: &mut I,
) -> Result<(), Memory>
    ensures whole { I.is_whole index.new ≡ I.is_whole index.old }
    ensures entered { OnOk result (I.is_whole index.old ≡ true → I.entries index.new
        ≡ I.entries index.old ++ entries_of place (side_offers lits.now sides.now)) }
{
    for side in sides {
        enter_side(lits, side, place, index)?;
    }
    Ok(())
}

// Adds the side of the equation.
fn enter_side<I: Partners>(
    lits: &[Lit],
    side: &Side,
    place: u32,
    index: &mut I,
) -> Result<(), Memory>
    ensures whole { I.is_whole index.new ≡ I.is_whole index.old }
    ensures entered { OnOk result (I.is_whole index.old ≡ true → I.entries index.new
        ≡ I.entries index.old ++ entries_of place (option_to_list (side_at lits.now side.now))) }
{
    match side_in(lits, side) {
        Some(term) => index.add(place, true, term),
        None => Ok(()),
    }
}

// Adds the terms at these places.
fn enter_spots<I: Partners>(
    lits: &[Lit],
    spots: &[Spot],
    place: u32,
    index: &mut I,
) -> Result<(), Memory>
    ensures whole { I.is_whole index.new ≡ I.is_whole index.old }
    ensures entered { OnOk result (I.is_whole index.old ≡ true → I.entries index.new
        ≡ I.entries index.old ++ entries_of place (spot_offers lits.now spots.now)) }
{
    for spot in spots {
        enter_spot(lits, spot, place, index)?;
    }
    Ok(())
}

// Adds the term at the place.
fn enter_spot<I: Partners>(
    lits: &[Lit],
    spot: &Spot,
    place: u32,
    index: &mut I,
) -> Result<(), Memory>
    ensures whole { I.is_whole index.new ≡ I.is_whole index.old }
    ensures entered { OnOk result (I.is_whole index.old ≡ true → I.entries index.new
        ≡ I.entries index.old ++ entries_of place (option_to_list (spot_at lits.now spot.now))) }
{
    match spot_in(lits, spot) {
        Some(term) => index.add(place, false, term),
        None => Ok(()),
    }
}
