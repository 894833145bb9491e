//! All places of clauses at which a term may be replaced, and all equations of clauses, as they are read.
ghost use Rattle.std.specs.Prelude.{◌≡◌, ◌++◌, IfOk, OnOk};
ghost use Rattle.rule_steps.specs.code.ParamodulationSearch.{HasEquation, HasSpot, readings_from, readings_of_atom};
ghost use Rattle.rule_steps.specs.code.ParamodulationSearch.{readings_of_lits, readings_of_slot, sites_from};
ghost use Rattle.rule_steps.specs.code.ParamodulationSearch.{sites_of_lits, sites_of_places, sites_of_slot};
ghost use Rattle.clause_rules.specs.PlaceSearch.{places_of};

use crate::sides::{Sides, sides_of};
use clause_form::{AtomOf, Clause, Lit};
use clause_rules::{Position, places_of_lit, term_in};
use fof_terms::Term;
use std::alloc::Global;
use tptp_base::{List, Memory};

/// A place in a literal of a clause.
#[derive(Drop)]
pub struct Site {
    pub clause: usize,
    pub lit: usize,
    pub at: Position,
}

/// A positive equation of a clause, read from left to right, or from right to left where flipped.
#[derive(Clone, Copy)]
pub struct Reading {
    pub clause: usize,
    pub lit: usize,
    pub flipped: bool,
}

/// A literal, and the term at a place of it.
#[derive(Clone, Copy)]
pub struct Spot<'a> {
    pub lit: &'a Lit,
    pub term: &'a Term,
}

/// All places of the clauses.
pub fn sites_of(alloc: Global, clauses: &[Option<Clause>]) -> Result<List<Site>, Memory>
    ensures { IfOk result (λ sites. sites ≡ sites_from 0 clauses.now) }
{
    let mut sites = List::new(alloc);
    for at in 0..clauses.len() {
        add_slot(alloc, at, &clauses[at], &mut sites)?;
    }
    Ok(sites)
}

// Adds the places of a clause, if it is one.
fn add_slot(
    alloc: Global,
    clause: usize,
    slot: &Option<Clause>,
    sites: &mut List<Site>,
) -> Result<(), Memory>
    ensures { OnOk result (sites.new ≡ sites.old ++ sites_of_slot clause slot.now) }
{
    match slot {
        Some(of) => add_sites(alloc, clause, of.lits.as_slice(), sites),
        None => Ok(()),
    }
}

// Adds the places of a clause's literals.
fn add_sites(
    alloc: Global,
    clause: usize,
    lits: &[Lit],
    sites: &mut List<Site>,
) -> Result<(), Memory>
    ensures { OnOk result (sites.new ≡ sites.old ++ sites_of_lits clause 0 lits.now) }
{
    for at in 0..lits.len() {
        add_places(alloc, clause, at, &lits[at], sites)?;
    }
    Ok(())
}

/// The places of literal i, as it is given, of clause a.
pub fn sites_at(alloc: Global, a: usize, i: usize, of: &Lit) -> Result<List<Site>, Memory>
    ensures { IfOk result (λ sites. sites ≡ sites_of_places a i (places_of of.now)) }
{
    let mut sites = List::new(alloc);
    add_places(alloc, a, i, of, &mut sites)?;
    Ok(sites)
}

// Adds the places of a literal.
fn add_places(
    alloc: Global,
    clause: usize,
    lit: usize,
    of: &Lit,
    sites: &mut List<Site>,
) -> Result<(), Memory>
    ensures { OnOk result (sites.new ≡ sites.old ++ sites_of_places clause lit (places_of of.now)) }
{
    let places = places_of_lit(alloc, of)?;
    for place in places.as_slice() {
        let at = Position::from_slice(alloc, place.as_slice())?;
        sites.push(Site { clause, lit, at })?;
    }
    Ok(())
}

/// All positive equations of the clauses, each read both ways.
pub fn readings_of(alloc: Global, clauses: &[Option<Clause>]) -> Result<List<Reading>, Memory>
    ensures { IfOk result (λ readings. readings ≡ readings_from 0 clauses.now) }
{
    let mut readings = List::new(alloc);
    for at in 0..clauses.len() {
        add_slot_readings(at, &clauses[at], &mut readings)?;
    }
    Ok(readings)
}

// Adds the equations of a clause, if it is one.
fn add_slot_readings(
    clause: usize,
    slot: &Option<Clause>,
    readings: &mut List<Reading>,
) -> Result<(), Memory>
    ensures { OnOk result (readings.new ≡ readings.old ++ readings_of_slot clause slot.now) }
{
    match slot {
        Some(of) => add_readings(clause, of.lits.as_slice(), readings),
        None => Ok(()),
    }
}

// Adds the equations of a clause's literals.
fn add_readings(clause: usize, lits: &[Lit], readings: &mut List<Reading>) -> Result<(), Memory>
    ensures { OnOk result (readings.new ≡ readings.old ++ readings_of_lits clause 0 lits.now) }
{
    for at in 0..lits.len() {
        add_reading(clause, at, &lits[at], readings)?;
    }
    Ok(())
}

// Adds the equation that a literal is, read both ways.
fn add_reading(
    clause: usize,
    lit: usize,
    of: &Lit,
    readings: &mut List<Reading>,
) -> Result<(), Memory>
    ensures { OnOk result (readings.new ≡ readings.old ++ readings_of_atom clause lit of.now.positive of.now.atom) }
{
    match &of.atom {
        AtomOf::Eq(_, _) if of.positive => {
            readings.push(Reading {
                clause,
                lit,
                flipped: false,
            })?;
            readings.push(Reading {
                clause,
                lit,
                flipped: true,
            })?;
        }
        _ => {}
    }
    Ok(())
}

/// The literal of that number with the term at the place, if it has one there.
pub fn spot_in<'a>(lits: &'a [Lit], lit: usize, place: &[usize]) -> Option<Spot<'a>>
    ensures { HasSpot lits.now lit place.now result }
{
    if lit >= lits.len() {
        return None;
    }
    match term_in(&lits[lit], place) {
        Some(term) => Some(Spot {
            lit: &lits[lit],
            term,
        }),
        None => None,
    }
}

/// The sides of the literal of that if it is a positive equation.
pub fn equation_in(lits: &[Lit], lit: usize, flipped: bool) -> Option<Sides<'_>>
    ensures { HasEquation lits.now lit flipped result }
{
    if lit >= lits.len() {
        return None;
    }
    sides_of(&lits[lit], flipped)
}
