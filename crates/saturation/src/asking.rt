//! Which members the indexes do not rule out as partners.
ghost use Rattle.std.specs.Prelude.{◌≡◌, ◌∷◌, ◌++◌, [], IfOk, OnOk, option_to_list};
ghost use Rattle.saturation.specs.code.Marked.{AllFalse, AreAsked, IsAsked, IsMarked, Marks};
ghost use Rattle.saturation.specs.code.Offers.{atom_at, side_at, spot_at, atom_offers, side_offers, spot_offers};

use crate::offers::{atom_in, side_in, spot_in};
use clause_form::Lit;
use clause_index::Partners;
use fof_terms::Term;
use std::alloc::Global;
use superpose::{Side, Spot, Used};
use tptp_base::{List, Memory};

/// For each of so many members, whether it may be a partner of what inferences use of the literals with this sign.
pub fn partners<I: Partners>(
    alloc: Global,
    count: usize,
    positive: bool,
    lits: &[Lit],
    used: &Used,
    literals: &I,
    terms: &I,
) -> Result<List<bool>, Memory>
    requires { I.is_whole terms.now ≡ I.is_whole literals.now }
    ensures { IfOk result (IsMarked (I.is_whole literals.now) count positive (atom_offers lits.now used.now.lits)
        (side_offers lits.now used.now.sides ++ spot_offers lits.now used.now.spots)
        (I.entries literals.now) (I.entries terms.now)) }
{
    let mut marks = no_marks(alloc, count)?;
    ask_atoms(
        alloc,
        lits,
        used.lits.as_slice(),
        positive,
        literals,
        &mut marks,
    )?;
    ask_sides(
        alloc,
        lits,
        used.sides.as_slice(),
        positive,
        terms,
        &mut marks,
    )?;
    ask_spots(
        alloc,
        lits,
        used.spots.as_slice(),
        positive,
        terms,
        &mut marks,
    )?;
    Ok(marks)
}

// No member is marked.
fn no_marks(alloc: Global, count: usize) -> Result<List<bool>, Memory>
    ensures { IfOk result (AllFalse count) }
{
    let mut marks = List::new(alloc);
    for _at in 0..count {
        marks.push(false)?;
    }
    Ok(marks)
}

// Marks the partners of the predicate atoms of these literals that have this sign.
fn ask_atoms<I: Partners>(
    alloc: Global,
    lits: &[Lit],
    numbers: &[usize],
    positive: bool,
    index: &I,
    marks: &mut List<bool>,
) -> Result<(), Memory>
    ensures { OnOk result (AreAsked (I.is_whole index.now) (I.entries index.now) positive
        (atom_offers lits.now numbers.now) marks.old marks.new) }
{
    for number in numbers {
        ask_atom(alloc, lits, *number, positive, index, marks)?;
    }
    Ok(())
}

// Marks the partners of the predicate atom of the literal, if it has this sign.
fn ask_atom<I: Partners>(
    alloc: Global,
    lits: &[Lit],
    number: usize,
    positive: bool,
    index: &I,
    marks: &mut List<bool>,
) -> Result<(), Memory>
    ensures { OnOk result (AreAsked (I.is_whole index.now) (I.entries index.now) positive
        (option_to_list (atom_at lits.now number)) marks.old marks.new) }
{
    match atom_in(alloc, lits, number)? {
        Some(offer) => ask(alloc, offer.positive, &offer.term, positive, index, marks),
        None => Ok(()),
    }
}

// Marks the partners of these sides of equations, if they have this sign.
fn ask_sides<I: Partners>(
    alloc: Global,
    lits: &[Lit],
    sides: &[Side],
    positive: bool,
    index: &I,
    marks: &mut List<bool>,
) -> Result<(), Memory>
    ensures { OnOk result (AreAsked (I.is_whole index.now) (I.entries index.now) positive
        (side_offers lits.now sides.now) marks.old marks.new) }
{
    for side in sides {
        ask_side(alloc, lits, side, positive, index, marks)?;
    }
    Ok(())
}

// Marks the partners of the side of the equation, which is positive, if positive terms are to have theirs.
fn ask_side<I: Partners>(
    alloc: Global,
    lits: &[Lit],
    side: &Side,
    positive: bool,
    index: &I,
    marks: &mut List<bool>,
) -> Result<(), Memory>
    ensures { OnOk result (AreAsked (I.is_whole index.now) (I.entries index.now) positive
        (option_to_list (side_at lits.now side.now)) marks.old marks.new) }
{
    if !positive {
        return Ok(());
    }
    match side_in(lits, side) {
        Some(term) => ask(alloc, true, term, positive, index, marks),
        None => Ok(()),
    }
}

// Marks the partners of the terms at these places, if they have this sign.
fn ask_spots<I: Partners>(
    alloc: Global,
    lits: &[Lit],
    spots: &[Spot],
    positive: bool,
    index: &I,
    marks: &mut List<bool>,
) -> Result<(), Memory>
    ensures { OnOk result (AreAsked (I.is_whole index.now) (I.entries index.now) positive
        (spot_offers lits.now spots.now) marks.old marks.new) }
{
    for spot in spots {
        ask_spot(alloc, lits, spot, positive, index, marks)?;
    }
    Ok(())
}

// Marks the partners of the term at the place, which is negative, if negative terms are to have theirs.
fn ask_spot<I: Partners>(
    alloc: Global,
    lits: &[Lit],
    spot: &Spot,
    positive: bool,
    index: &I,
    marks: &mut List<bool>,
) -> Result<(), Memory>
    ensures { OnOk result (AreAsked (I.is_whole index.now) (I.entries index.now) positive
        (option_to_list (spot_at lits.now spot.now)) marks.old marks.new) }
{
    if positive {
        return Ok(());
    }
    match spot_in(lits, spot) {
        Some(term) => ask(alloc, false, term, positive, index, marks),
        None => Ok(()),
    }
}

// Marks the partners of the term, if its own sign is the one that is asked for.
fn ask<I: Partners>(
    alloc: Global,
    own: bool,
    term: &Term,
    positive: bool,
    index: &I,
    marks: &mut List<bool>,
) -> Result<(), Memory>
    ensures { OnOk result (IsAsked (I.is_whole index.now) (I.entries index.now) positive
        (record { positive = own; term = term.now }) marks.old marks.new) }
{
    if own != positive {
        return Ok(());
    }
    let places = index.candidates(alloc, !positive, term)?;
    mark_all(places.as_slice(), marks);
    Ok(())
}

// Marks the members of these numbers.
fn mark_all(places: &[u32], marks: &mut List<bool>)
    ensures { Marks places.now marks.old marks.new }
{
    for place in places {
        mark(*place, marks);
    }
}

// Marks the member of this number, if there is one.
fn mark(place: u32, marks: &mut List<bool>)
    ensures { Marks (place ∷ []) marks.old marks.new }
{
    if (place as usize) < marks.len() {
        marks.set(place as usize, true);
    }
}
