ghost use Rattle.std.specs.Prelude.{◌≡◌, ◌<◌, ◌≤◌, false, length, Some, IfOk, option_copied, slice_get};
ghost use Rattle.std.specs.Option.{MatchOption};
ghost use Rattle.clause_rules.specs.declared.just.Just.TheVariants.{Paramodulation};
ghost use Rattle.clause_rules.specs.Answers.{IsAnswer, paramodulation};
ghost use Rattle.clause_rules.specs.ParamodulationRule.{Paramodulates};
ghost use Rattle.rule_steps.specs.declared.sites.Reading.{Reading as Read};
ghost use Rattle.rule_steps.specs.code.ParamodulationSearch.{FoundAtLit, FoundInClause, FoundInClauses, HasClause};
ghost use Rattle.rule_steps.specs.code.ParamodulationSearch.{NeverAt, NoneAtSite, ShowsParamodulation, TriedAtSite};
ghost use Rattle.rule_steps.specs.code.AmongClauses.{AnswersBy};
ghost use Rattle.rule_steps.specs.code.SlotFits.{AllFit};
ghost use Rattle.clause_rules.specs.Settled.{IsFit, Settles};
ghost use Rattle.clause_rules.specs.Steps.{AreReady, IsReady, equation, scope_of_both};

use crate::beside::may_rest_be_covered;
use crate::clause_rule::{ClauseRule, step_by};
use crate::paramodulating::of_joint;
use crate::search::Search;
use crate::site_rule::{SiteRule, at_sites};
use crate::sites::{Reading, Site, equation_in, readings_of, sites_at, spot_in};
use clause_form::{Clause, Parent};
use clause_rules::{Just, Position, put_in};
use fof_terms::{Form, Signature, Term};
use std::alloc::Global;
use substitution_search::{may_be_covered, may_meet, may_others_be_covered};
use tptp_base::Memory;
use unify_terms::Subst;

/// The rule, for what all rules of its kind share.
pub struct Paramodulations;

impl SiteRule for Paramodulations {
    ghost use Rattle.rule_steps.specs.code.ParamodulationSearch.{NoneAtSite, ShowsParamodulation};

    ghost Never = { λ search site reading.
        NoneAtSite search.sig.now search.clauses.now search.line.now site reading };

    ghost Shows = { λ search just. ShowsParamodulation search.sig.now search.clauses.now search.line.now just };

    fn may_change(search: &Search<'_>, site: &Site) -> Result<bool, Memory> {
        may_clause_change(search, site)
    }

    fn try_at(search: &Search<'_>, site: &Site, reading: &Reading) -> Result<Option<Just>, Memory> {
        paramodulation_at(search, site, reading)
    }
}

impl ClauseRule for Paramodulations {
    ghost use Rattle.std.specs.Prelude.{refl};
    ghost use Rattle.clause_rules.specs.Answers.{paramodulation};

    ghost rule = { paramodulation };

    fn among(search: &Search<'_>) -> Result<Option<Just>, Memory> {
        paramodulate_among(search)
    }

    ghost clauses_alone = { refl };
}

/// A justification by the rule `paramodulation`: the left side of a positive equation of one parent, as it is read,
/// becomes the term at a place of another, and the right side takes that place. None exactly where there is none.
pub fn paramodulation_step(
    alloc: Global,
    sig: &Signature,
    parents: &[Parent],
    line: &Form,
) -> Result<Option<Just>, Memory>
    requires parents { AreReady sig.now parents.now }
    requires line { IsReady sig.now line.now }
    ensures { IfOk result (λ answer. IsAnswer sig.now parents.now line.now paramodulation answer) }
{
    step_by::<Paramodulations>(alloc, sig, parents, line)
}

/// The same among the clauses that the parents are.
pub fn paramodulate_among(search: &Search<'_>) -> Result<Option<Just>, Memory>
    requires clauses { AllFit search.now.sig.now search.now.clauses.now }
    requires line { IsFit search.now.sig.now search.now.line.now }
    ensures { IfOk result (λ found. AnswersBy paramodulation search.now found) }
{
    let readings = readings_of(search.alloc, search.clauses)?;
    if readings.is_empty() {
        return Ok(None);
    }
    in_clauses(search, readings.as_slice())
}

// A justification at a place of one of the clauses.
fn in_clauses(search: &Search<'_>, readings: &[Reading]) -> Result<Option<Just>, Memory>
    requires clauses { AllFit search.now.sig.now search.now.clauses.now }
    requires line { IsFit search.now.sig.now search.now.line.now }
    ensures { IfOk result (λ found.
        FoundInClauses search.now.sig.now search.now.clauses.now readings.now search.now.line.now found) }
{
    for a in 0..search.clauses.len() {
        let found = in_slot(search, readings, a, &search.clauses[a])?;
        if let Some(just) = found {
            return Ok(Some(just));
        }
    }
    Ok(None)
}

// A justification at a place of this clause, if it is one.
fn in_slot(
    search: &Search<'_>,
    readings: &[Reading],
    a: usize,
    slot: &Option<Clause>,
) -> Result<Option<Just>, Memory>
    requires clauses { AllFit search.now.sig.now search.now.clauses.now }
    requires line { IsFit search.now.sig.now search.now.line.now }
    requires there { slice_get search.now.clauses.now a ≡ Some slot.now }
    ensures { IfOk result (λ found.
        FoundInClause search.now.sig.now search.now.clauses.now readings.now search.now.line.now a found) }
{
    match slot {
        Some(into) => in_clause(search, readings, a, into),
        None => Ok(None),
    }
}

// A justification at a place of this clause.
fn in_clause(
    search: &Search<'_>,
    readings: &[Reading],
    a: usize,
    into: &Clause,
) -> Result<Option<Just>, Memory>
    requires clauses { AllFit search.now.sig.now search.now.clauses.now }
    requires line { IsFit search.now.sig.now search.now.line.now }
    requires there { slice_get search.now.clauses.now a ≡ Some (Some into.now) }
    ensures { IfOk result (λ found.
        FoundInClause search.now.sig.now search.now.clauses.now readings.now search.now.line.now a found) }
{
    for i in 0..into.lits.len() {
        let found = at_lit(search, readings, a, into, i)?;
        if let Some(just) = found {
            return Ok(Some(just));
        }
    }
    Ok(None)
}

// A justification at a place of this literal. Whether the others can be covered is settled once for all its places.
fn at_lit(
    search: &Search<'_>,
    readings: &[Reading],
    a: usize,
    into: &Clause,
    i: usize,
) -> Result<Option<Just>, Memory>
    requires clauses { AllFit search.now.sig.now search.now.clauses.now }
    requires line { IsFit search.now.sig.now search.now.line.now }
    requires there { slice_get search.now.clauses.now a ≡ Some (Some into.now) }
    requires lit { i < length into.now.lits }
    ensures { IfOk result (λ found.
        FoundAtLit search.now.sig.now search.now.clauses.now readings.now search.now.line.now a i found) }
{
    let is_open = may_rest_be_covered(search.alloc, search.sig, into, search.line, i)?;
    if !is_open {
        return Ok(None);
    }
    let lits = into.lits.as_slice();
    let sites = sites_at(search.alloc, a, i, &lits[i])?;
    at_sites::<Paramodulations>(search, sites.as_slice(), readings)
}

// Whether the line may cover the literal at this place with another term there. A cheap test.
fn may_clause_change(search: &Search<'_>, site: &Site) -> Result<bool, Memory>
    requires clauses { AllFit search.now.sig.now search.now.clauses.now }
    ensures { IfOk result (λ answer. answer ≡ false → (reading : Read)
        → NoneAtSite search.now.sig.now search.now.clauses.now search.now.line.now site.now reading) }
{
    match clause_in(search.clauses, site.clause) {
        Some(into) => may_change(search.alloc, search.line, into, site),
        None => Ok(false),
    }
}

// Whether the line may cover the literal of the clause with another term at this place.
fn may_change(alloc: Global, line: &Clause, into: &Clause, site: &Site) -> Result<bool, Memory>
    requires few { length into.now.sorts ≤ 1000000000 }
    ensures { IfOk result (λ answer. answer ≡ false → NeverAt line.now into.now site.now) }
{
    let lits = into.lits.as_slice();
    let at = site.lit;
    if at >= lits.len() {
        return Ok(true);
    }
    let hole = Term::Var(into.sorts.len() as u32);
    let open = put_in(alloc, &lits[at], site.at.as_slice(), &hole)?;
    Ok(may_be_covered(line.lits.as_slice(), &open))
}

// A justification at this place with this equation.
fn paramodulation_at(
    search: &Search<'_>,
    site: &Site,
    reading: &Reading,
) -> Result<Option<Just>, Memory>
    requires clauses { AllFit search.now.sig.now search.now.clauses.now }
    requires line { IsFit search.now.sig.now search.now.line.now }
    ensures { IfOk result (λ found.
        MatchOption found
        (NoneAtSite search.now.sig.now search.now.clauses.now search.now.line.now site.now reading.now)
        (ShowsParamodulation search.now.sig.now search.now.clauses.now search.now.line.now)) }
{
    let found = with_reading(search, site, reading)?;
    match found {
        Some(subst) => justified(search.alloc, site, reading, subst),
        None => Ok(None),
    }
}

// The justification at this place with this equation.
fn justified(
    alloc: Global,
    site: &Site,
    reading: &Reading,
    subst: Subst,
) -> Result<Option<Just>, Memory>
    ensures { IfOk result (λ just. just
        ≡ Some (Paramodulation site.now.clause reading.now.clause site.now.lit site.now.at reading.now.lit
        reading.now.flipped subst)) }
{
    let at = Position::from_slice(alloc, site.at.as_slice())?;
    Ok(Some(Just::Paramodulation {
        into: site.clause,
        from: reading.clause,
        into_lit: site.lit,
        at,
        from_lit: reading.lit,
        flipped: reading.flipped,
        subst,
    }))
}

// A substitution that shows the paramodulation at this place with this equation.
fn with_reading(
    search: &Search<'_>,
    site: &Site,
    reading: &Reading,
) -> Result<Option<Subst>, Memory>
    requires clauses { AllFit search.now.sig.now search.now.clauses.now }
    requires line { IsFit search.now.sig.now search.now.line.now }
    ensures { IfOk result (λ found.
        TriedAtSite search.now.sig.now search.now.clauses.now search.now.line.now site.now reading.now found) }
{
    match clause_in(search.clauses, site.clause) {
        Some(into) => match clause_in(search.clauses, reading.clause) {
            Some(from) => of_clauses(search, into, from, site, reading),
            None => Ok(None),
        },
        None => Ok(None),
    }
}

/// The clause of that number, if it is one.
pub fn clause_in(clauses: &[Option<Clause>], at: usize) -> Option<&Clause>
    ensures { HasClause clauses.now at (option_copied result) }
{
    if at >= clauses.len() {
        return None;
    }
    clauses[at].as_ref()
}

// The same with these clauses: cheap tests of the two terms and of the other literals come first.
fn of_clauses(
    search: &Search<'_>,
    into: &Clause,
    from: &Clause,
    site: &Site,
    reading: &Reading,
) -> Result<Option<Subst>, Memory>
    requires into { IsFit search.now.sig.now into.now }
    requires from { IsFit search.now.sig.now from.now }
    requires line { IsFit search.now.sig.now search.now.line.now }
    ensures { IfOk result (λ found.
        Settles search.now.sig.now search.now.line.now (scope_of_both into.now from.now)
        (Paramodulates search.now.sig.now into.now from.now search.now.line.now site.now.lit site.now.at
        reading.now.lit reading.now.flipped) found) }
{
    match spot_in(into.lits.as_slice(), site.lit, site.at.as_slice()) {
        Some(spot) => match equation_in(from.lits.as_slice(), reading.lit, reading.flipped) {
            Some(sides) => {
                if !may_meet(spot.term, sides.left, false) {
                    return Ok(None);
                }
                let line = search.line.lits.as_slice();
                if !may_others_be_covered(line, from.lits.as_slice(), reading.lit) {
                    return Ok(None);
                }
                of_joint(search, into, from, site, reading)
            }
            None => Ok(None),
        },
        None => Ok(None),
    }
}
