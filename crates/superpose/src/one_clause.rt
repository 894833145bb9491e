//! All inferences from one clause.
ghost use Rattle.std.specs.Prelude.{ℕ, ◌<◌, length, OnOk};
ghost use Rattle.clause_form.specs.Covers.{scope_of};
ghost use Rattle.clause_order.specs.Eligible.{IsEligible};
ghost use Rattle.superpose.specs.Drafts.{IsClause};
ghost use Rattle.superpose.specs.Inferences.{ResolvesEquationAt};
ghost use Rattle.superpose.specs.Made.{Adds, AddsFromOne};
ghost use Rattle.superpose.specs.Used.{AreUsed};
ghost use Rattle.superpose.specs.code.Listed.{AreEligible, OfSome};
ghost use Rattle.superpose.specs.code.Places.{FactorsPair, FactorsRead, FactorsWithSome, FromLit};

use crate::equation_factoring::factor_equations_at;
use crate::equation_resolution::resolve_equation_at;
use crate::factoring::factor_at;
use crate::made::{Made, keep};
use crate::used::Used;
use clause_form::Clause;
use fof_terms::Signature;
use std::alloc::Global;
use tptp_base::{List, Memory};

/// Adds the most general clauses that factoring, equality resolution and equality factoring make of the clause. Where
/// memory runs out, the list may have some of them.
pub fn add_from_one(
    alloc: Global,
    sig: &Signature,
    c: &Clause,
    used: &Used,
    made: &mut List<Made>,
) -> Result<(), Memory>
    requires c { IsClause sig.now c.now }
    requires used { AreUsed c.now.lits used.now }
    ensures { OnOk result (AddsFromOne sig.now c.now made.old made.new) }
{
    add_from_lits(alloc, sig, c, used.lits.as_slice(), made)
}

// Adds those at these eligible literals.
fn add_from_lits(
    alloc: Global,
    sig: &Signature,
    c: &Clause,
    numbers: &[usize],
    made: &mut List<Made>,
) -> Result<(), Memory>
    requires c { IsClause sig.now c.now }
    requires numbers { AreEligible c.now.lits numbers.now }
    ensures { OnOk result (Adds sig.now (scope_of c.now) (OfSome ℕ (FromLit c.now) numbers.now) made.old made.new) }
{
    for at in 0..numbers.len() {
        add_from_lit(alloc, sig, c, numbers[at], made)?;
    }
    Ok(())
}

// Adds those at literal i.
fn add_from_lit(
    alloc: Global,
    sig: &Signature,
    c: &Clause,
    i: usize,
    made: &mut List<Made>,
) -> Result<(), Memory>
    requires c { IsClause sig.now c.now }
    requires i { i < length c.now.lits }
    requires first { IsEligible c.now.lits i }
    ensures { OnOk result (Adds sig.now (scope_of c.now) (FromLit c.now i) made.old made.new) }
{
    add_resolved(alloc, sig, c, i, made)?;
    add_factored(alloc, sig, c, i, made)
}

// Adds what equality resolution makes at the literal.
fn add_resolved(
    alloc: Global,
    sig: &Signature,
    c: &Clause,
    i: usize,
    made: &mut List<Made>,
) -> Result<(), Memory>
    requires c { IsClause sig.now c.now }
    requires i { i < length c.now.lits }
    requires first { IsEligible c.now.lits i }
    ensures { OnOk result (Adds sig.now (scope_of c.now) (ResolvesEquationAt c.now i) made.old made.new) }
{
    let found = resolve_equation_at(alloc, sig, c, i)?;
    keep(made, found)
}

// Adds what factoring and equality factoring make of the literal and each other one.
fn add_factored(
    alloc: Global,
    sig: &Signature,
    c: &Clause,
    i: usize,
    made: &mut List<Made>,
) -> Result<(), Memory>
    requires c { IsClause sig.now c.now }
    requires i { i < length c.now.lits }
    requires first { IsEligible c.now.lits i }
    ensures { OnOk result (Adds sig.now (scope_of c.now) (FactorsWithSome c.now i) made.old made.new) }
{
    for j in 0..c.lits.len() {
        add_pair(alloc, sig, c, i, j, made)?;
    }
    Ok(())
}

// The same of two literals.
fn add_pair(
    alloc: Global,
    sig: &Signature,
    c: &Clause,
    i: usize,
    j: usize,
    made: &mut List<Made>,
) -> Result<(), Memory>
    requires c { IsClause sig.now c.now }
    requires i { i < length c.now.lits }
    requires j { j < length c.now.lits }
    requires first { IsEligible c.now.lits i }
    ensures { OnOk result (Adds sig.now (scope_of c.now) (FactorsPair c.now i j) made.old made.new) }
{
    let found = factor_at(alloc, sig, c, i, j)?;
    keep(made, found)?;
    add_equations(alloc, sig, c, i, false, j, made)?;
    add_equations(alloc, sig, c, i, true, j, made)
}

// What equality factoring makes of two literals, the first read from this side.
fn add_equations(
    alloc: Global,
    sig: &Signature,
    c: &Clause,
    i: usize,
    flipped: bool,
    j: usize,
    made: &mut List<Made>,
) -> Result<(), Memory>
    requires c { IsClause sig.now c.now }
    requires i { i < length c.now.lits }
    requires j { j < length c.now.lits }
    requires first { IsEligible c.now.lits i }
    ensures { OnOk result (Adds sig.now (scope_of c.now) (FactorsRead c.now i flipped j) made.old made.new) }
{
    let found = factor_equations_at(alloc, sig, c, i, flipped, j, false)?;
    keep(made, found)?;
    let found = factor_equations_at(alloc, sig, c, i, flipped, j, true)?;
    keep(made, found)
}
