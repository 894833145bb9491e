//! All inferences from two clauses.
ghost use Rattle.std.specs.Prelude.{◌<◌, length, OnOk};
ghost use Rattle.clause_rules.specs.Steps.{scope_of_both};
ghost use Rattle.clause_order.specs.Eligible.{IsEligible};
ghost use Rattle.superpose.specs.Drafts.{IsClause};
ghost use Rattle.superpose.specs.Made.{Adds, AddsFromTwo};
ghost use Rattle.superpose.specs.Used.{AreUsed};
ghost use Rattle.superpose.specs.code.Listed.{AreEligible, AreUsedSides, AreUsedSpots};
ghost use Rattle.superpose.specs.code.Listed.{ResolvesAmong, ResolvesWith, SuperposesAmong, SuperposesFrom};
ghost use Rattle.superpose.specs.code.Uses.{UsesSide};

use crate::made::{Made, keep};
use crate::resolution::resolve_at;
use crate::superposition::superpose_at;
use crate::used::{Side, Spot, Used};
use clause_form::Clause;
use fof_terms::Signature;
use std::alloc::Global;
use tptp_base::{List, Memory};

/// Adds the most general clauses that resolution and superposition make, where the positive literal or the equation is
/// that of the first clause. Where memory runs out, the list may have some of them.
pub fn add_from_two(
    alloc: Global,
    sig: &Signature,
    c: &Clause,
    used_of_c: &Used,
    d: &Clause,
    used_of_d: &Used,
    made: &mut List<Made>,
) -> Result<(), Memory>
    requires c { IsClause sig.now c.now }
    requires d { IsClause sig.now d.now }
    requires used_of_c { AreUsed c.now.lits used_of_c.now }
    requires used_of_d { AreUsed d.now.lits used_of_d.now }
    ensures { OnOk result (AddsFromTwo sig.now c.now d.now made.old made.new) }
{
    add_resolved(
        alloc,
        sig,
        c,
        used_of_c.lits.as_slice(),
        d,
        used_of_d.lits.as_slice(),
        made,
    )?;
    add_superposed(
        alloc,
        sig,
        c,
        used_of_c.sides.as_slice(),
        d,
        used_of_d.spots.as_slice(),
        made,
    )
}

// Adds what resolution makes of two of these eligible literals.
fn add_resolved(
    alloc: Global,
    sig: &Signature,
    c: &Clause,
    firsts: &[usize],
    d: &Clause,
    seconds: &[usize],
    made: &mut List<Made>,
) -> Result<(), Memory>
    requires c { IsClause sig.now c.now }
    requires d { IsClause sig.now d.now }
    requires firsts { AreEligible c.now.lits firsts.now }
    requires seconds { AreEligible d.now.lits seconds.now }
    ensures { OnOk result (Adds sig.now (scope_of_both c.now d.now)
        (ResolvesAmong c.now d.now firsts.now seconds.now) made.old made.new) }
{
    for at in 0..firsts.len() {
        add_resolved_with(alloc, sig, c, firsts[at], d, seconds, made)?;
    }
    Ok(())
}

// The same of literal i and one of these.
fn add_resolved_with(
    alloc: Global,
    sig: &Signature,
    c: &Clause,
    i: usize,
    d: &Clause,
    seconds: &[usize],
    made: &mut List<Made>,
) -> Result<(), Memory>
    requires c { IsClause sig.now c.now }
    requires d { IsClause sig.now d.now }
    requires first { IsEligible c.now.lits i }
    requires i { i < length c.now.lits }
    requires seconds { AreEligible d.now.lits seconds.now }
    ensures { OnOk result (Adds sig.now (scope_of_both c.now d.now) (ResolvesWith c.now d.now seconds.now i)
        made.old made.new) }
{
    for at in 0..seconds.len() {
        let found = resolve_at(alloc, sig, c, d, i, seconds[at])?;
        keep(made, found)?;
    }
    Ok(())
}

// Adds what superposition makes from one of these sides at one of these places.
fn add_superposed(
    alloc: Global,
    sig: &Signature,
    c: &Clause,
    sides: &[Side],
    d: &Clause,
    spots: &[Spot],
    made: &mut List<Made>,
) -> Result<(), Memory>
    requires c { IsClause sig.now c.now }
    requires d { IsClause sig.now d.now }
    requires sides { AreUsedSides c.now.lits sides.now }
    requires spots { AreUsedSpots d.now.lits spots.now }
    ensures { OnOk result (Adds sig.now (scope_of_both c.now d.now)
        (SuperposesAmong c.now d.now sides.now spots.now) made.old made.new) }
{
    for at in 0..sides.len() {
        add_superposed_from(alloc, sig, c, sides[at], d, spots, made)?;
    }
    Ok(())
}

// The same from this side.
fn add_superposed_from(
    alloc: Global,
    sig: &Signature,
    c: &Clause,
    side: Side,
    d: &Clause,
    spots: &[Spot],
    made: &mut List<Made>,
) -> Result<(), Memory>
    requires c { IsClause sig.now c.now }
    requires d { IsClause sig.now d.now }
    requires side { UsesSide c.now.lits side }
    requires spots { AreUsedSpots d.now.lits spots.now }
    ensures { OnOk result (Adds sig.now (scope_of_both c.now d.now) (SuperposesFrom c.now d.now spots.now side)
        made.old made.new) }
{
    for at in 0..spots.len() {
        let spot = &spots[at];
        let found = superpose_at(alloc, sig, c, d, side, spot.lit, spot.place.as_slice())?;
        keep(made, found)?;
    }
    Ok(())
}
