//! What inferences use of a clause.
ghost use Rattle.std.specs.Prelude.{◌<◌, length, IfOk, OnOk};
ghost use Rattle.superpose.specs.declared.used.Side.{Side as Read};
ghost use Rattle.superpose.specs.declared.used.Spot.{Spot as Stand};
ghost use Rattle.superpose.specs.Used.{AreUsed};
ghost use Rattle.superpose.specs.code.Uses.{Gains, IsSideOf, IsSpotAt, IsSpotOf, UsesLit};

use crate::naming::number;
use crate::sides::is_usable;
use crate::superposition::part_in;
use clause_form::{Clause, Lit};
use clause_order::eligible;
use clause_rules::{Position, places_of_lit};
use std::alloc::Global;
use tptp_base::{List, Memory};

/// A positive equation, and the side from which it is read.
#[derive(Clone, Copy)]
pub struct Side {
    pub lit: usize,
    pub flipped: bool,
}

/// A place in a literal.
#[derive(Drop)]
pub struct Spot {
    pub lit: usize,
    pub place: Position,
}

/// What inferences use of a clause: the numbers of its eligible literals, the sides of equations among them that are
/// not less than the other one, and the places in them at which no variable stands.
#[derive(Drop)]
pub struct Used {
    pub lits: List<usize>,
    pub sides: List<Side>,
    pub spots: List<Spot>,
}

/// What inferences use of the clause.
pub fn used_of(alloc: Global, clause: &Clause) -> Result<Used, Memory>
    ensures { IfOk result (λ used. AreUsed clause.now.lits used) }
{
    let mut used = Used {
        lits: List::new(alloc),
        sides: List::new(alloc),
        spots: List::new(alloc),
    };
    for i in 0..clause.lits.len() {
        add_lit(alloc, clause, i, &mut used)?;
    }
    Ok(used)
}

// Adds what inferences use of literal i, if it is eligible.
fn add_lit(alloc: Global, clause: &Clause, i: usize, used: &mut Used) -> Result<(), Memory>
    requires { i < length clause.now.lits }
    ensures { OnOk result (UsesLit clause.now.lits i used.old used.new) }
{
    let at = number(i)?;
    if !eligible(clause, at) {
        return Ok(());
    }
    let lit = &clause.lits.as_slice()[i];
    used.lits.push(i)?;
    add_side(lit, i, false, &mut used.sides)?;
    add_side(lit, i, true, &mut used.sides)?;
    add_spots(alloc, lit, i, &mut used.spots)
}

// Adds the side of literal i, if it may be used.
fn add_side(lit: &Lit, i: usize, flipped: bool, sides: &mut List<Side>) -> Result<(), Memory>
    ensures { OnOk result (Gains Read (IsSideOf lit.now i flipped) sides.old sides.new) }
{
    if !is_usable(lit, flipped) {
        return Ok(());
    }
    sides.push(Side { lit: i, flipped })?;
    Ok(())
}

// Adds the places of literal i at which no variable stands.
fn add_spots(alloc: Global, lit: &Lit, i: usize, spots: &mut List<Spot>) -> Result<(), Memory>
    ensures { OnOk result (Gains Stand (IsSpotOf lit.now i) spots.old spots.new) }
{
    let places = places_of_lit(alloc, lit)?;
    let places = places.as_slice();
    for at in 0..places.len() {
        add_spot(alloc, lit, i, places[at].as_slice(), spots)?;
    }
    Ok(())
}

// Adds the place of literal i, if a term that is no variable stands there.
fn add_spot(
    alloc: Global,
    lit: &Lit,
    i: usize,
    place: &[usize],
    spots: &mut List<Spot>,
) -> Result<(), Memory>
    ensures { OnOk result (Gains Stand (IsSpotAt lit.now i place.now) spots.old spots.new) }
{
    if part_in(lit, place).is_none() {
        return Ok(());
    }
    let place = Position::from_slice(alloc, place)?;
    spots.push(Spot { lit: i, place })?;
    Ok(())
}
