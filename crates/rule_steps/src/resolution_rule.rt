ghost use Rattle.std.specs.Prelude.{◌≡◌, ◌<◌, false, length, Some, IfOk};
ghost use Rattle.clause_rules.specs.declared.just.Just.TheVariants.{Resolution};
ghost use Rattle.clause_rules.specs.Answers.{IsAnswer, resolution};
ghost use Rattle.clause_rules.specs.ResolutionRule.{ResolvesTo};
ghost use Rattle.rule_steps.specs.code.ResolutionSearch.{resolution_needs, AsksAt, NeverResolves, FoundAt, FoundInSlot};
ghost use Rattle.rule_steps.specs.code.ResolutionSearch.{FoundPivot, FoundWith, FoundFrom};
ghost use Rattle.clause_rules.specs.Settled.{IsFit, Settles};
ghost use Rattle.rule_steps.specs.code.AmongClauses.{AnswersBy};
ghost use Rattle.rule_steps.specs.code.SlotFits.{IsSlotFit, AllFit};
ghost use Rattle.clause_rules.specs.Steps.{scope_of_both, AreReady, IsReady};
ghost use Rattle.clause_rules.specs.Ways.{goal_of_needs};

use crate::clause_rule::{ClauseRule, step_by};
use crate::search::Search;
use clause_form::{Clause, Lit, Parent};
use clause_rules::{Joint, Just, join, with_one};
use fof_terms::{Form, Signature};
use std::alloc::Global;
use substitution_search::{all_covered, alone, may_be_pivot, may_clash, settle, ways_to};
use tptp_base::{List, Memory};
use unify_terms::{Goal, Subst};

/// A literal of the right clause, and a substitution.
#[derive(Drop)]
pub struct Found {
    pub place: usize,
    pub subst: Subst,
}

/// The rule, for what all rules of its kind share.
pub struct Resolutions;

impl ClauseRule for Resolutions {
    ghost use Rattle.std.specs.Prelude.{refl};
    ghost use Rattle.clause_rules.specs.Answers.{resolution};

    ghost rule = { resolution };

    fn among(search: &Search<'_>) -> Result<Option<Just>, Memory> {
        resolve_among(search)
    }

    ghost clauses_alone = { refl };
}

/// A justification by the rule `resolution`: two literals of two parents become complementary, and what else the
/// parents have is covered by the line. None exactly where there is none.
pub fn resolution_step(
    alloc: Global,
    sig: &Signature,
    parents: &[Parent],
    line: &Form,
) -> Result<Option<Just>, Memory>
    requires parents { AreReady sig.now parents.now }
    requires line { IsReady sig.now line.now }
    ensures { IfOk result (λ answer. IsAnswer sig.now parents.now line.now resolution answer) }
{
    step_by::<Resolutions>(alloc, sig, parents, line)
}

/// The same among the clauses that the parents are.
pub fn resolve_among(search: &Search<'_>) -> Result<Option<Just>, Memory>
    requires clauses { AllFit search.now.sig.now search.now.clauses.now }
    requires line { IsFit search.now.sig.now search.now.line.now }
    ensures { IfOk result (λ found. AnswersBy resolution search.now found) }
{
    for a in 0..search.clauses.len() {
        let found = resolve_from(search, &search.clauses[a], a)?;
        if let Some(just) = found {
            return Ok(Some(just));
        }
    }
    Ok(None)
}

// The same with this left clause, if it is one.
fn resolve_from(
    search: &Search<'_>,
    left: &Option<Clause>,
    a: usize,
) -> Result<Option<Just>, Memory>
    requires clauses { AllFit search.now.sig.now search.now.clauses.now }
    requires left { IsSlotFit search.now.sig.now left.now }
    requires line { IsFit search.now.sig.now search.now.line.now }
    ensures { IfOk result (λ found.
        FoundFrom search.now.sig.now search.now.clauses.now left.now search.now.line.now a found) }
{
    match left {
        Some(left) => resolve_with(search, left, a),
        None => Ok(None),
    }
}

// The same with this left clause, whose number is a.
fn resolve_with(search: &Search<'_>, left: &Clause, a: usize) -> Result<Option<Just>, Memory>
    requires clauses { AllFit search.now.sig.now search.now.clauses.now }
    requires left { IsFit search.now.sig.now left.now }
    requires line { IsFit search.now.sig.now search.now.line.now }
    ensures { IfOk result (λ found.
        FoundWith search.now.sig.now search.now.clauses.now left.now search.now.line.now a found) }
{
    for i in 0..left.lits.len() {
        let found = resolve_pivot(search, left, a, i)?;
        if let Some(just) = found {
            return Ok(Some(just));
        }
    }
    Ok(None)
}

// The same at this literal of the left clause. Whether the others can be covered is tested once for all right clauses.
fn resolve_pivot(
    search: &Search<'_>,
    left: &Clause,
    a: usize,
    i: usize,
) -> Result<Option<Just>, Memory>
    requires clauses { AllFit search.now.sig.now search.now.clauses.now }
    requires left { IsFit search.now.sig.now left.now }
    requires line { IsFit search.now.sig.now search.now.line.now }
    requires left_lit { i < length left.now.lits }
    ensures { IfOk result (λ found.
        FoundPivot search.now.sig.now search.now.clauses.now left.now search.now.line.now a i found) }
{
    if !may_be_pivot(search.line.lits.as_slice(), left.lits.as_slice(), i) {
        return Ok(None);
    }
    for b in 0..search.clauses.len() {
        let found = resolve_slot(search, left, &search.clauses[b], i)?;
        if let Some(found) = found {
            return Ok(Some(justified(a, b, i, found)));
        }
    }
    Ok(None)
}

// The same for a right clause, if it is one.
fn resolve_slot(
    search: &Search<'_>,
    left: &Clause,
    right: &Option<Clause>,
    i: usize,
) -> Result<Option<Found>, Memory>
    requires left { IsFit search.now.sig.now left.now }
    requires right { IsSlotFit search.now.sig.now right.now }
    requires line { IsFit search.now.sig.now search.now.line.now }
    requires left_lit { i < length left.now.lits }
    ensures { IfOk result (λ found. FoundInSlot search.now.sig.now left.now right.now search.now.line.now i found) }
{
    match right {
        Some(right) => resolve_lit(search, left, right, i),
        None => Ok(None),
    }
}

// The justification with these clauses.
fn justified(a: usize, b: usize, i: usize, found: Found) -> Just
    ensures { result ≡ Resolution a b i found.place found.subst }
{
    let Found { place, subst } = found;
    Just::Resolution {
        left: a,
        right: b,
        left_lit: i,
        right_lit: place,
        subst,
    }
}

// The same at this literal of the left clause.
fn resolve_lit(
    search: &Search<'_>,
    left: &Clause,
    right: &Clause,
    i: usize,
) -> Result<Option<Found>, Memory>
    requires left { IsFit search.now.sig.now left.now }
    requires right { IsFit search.now.sig.now right.now }
    requires line { IsFit search.now.sig.now search.now.line.now }
    requires left_lit { i < length left.now.lits }
    ensures { IfOk result (λ found. FoundAt search.now.sig.now left.now right.now search.now.line.now i found) }
{
    for j in 0..right.lits.len() {
        let found = resolve_at(search, left, right, i, j)?;
        if let Some(subst) = found {
            return Ok(Some(Found { place: j, subst }));
        }
    }
    Ok(None)
}

// What is asked of a substitution at the pivot and its opposite.
fn resolution_goal(
    alloc: Global,
    line: &[Lit],
    left: &[Lit],
    right: &[Lit],
    pivot: &Lit,
    opposite: &Lit,
) -> Result<Goal, Memory>
    ensures { IfOk result (λ goal. goal
        ≡ goal_of_needs (resolution_needs line.now left.now right.now pivot.now opposite.now)) }
{
    let clash = Goal::Any(ways_to(alloc, !pivot.positive, &pivot.atom, opposite)?);
    let mut goals = alone(alloc, clash)?;
    let targets = with_one(alloc, line, pivot)?;
    goals.append(all_covered(alloc, left, targets.as_slice())?)?;
    let targets = with_one(alloc, line, opposite)?;
    goals.append(all_covered(alloc, right, targets.as_slice())?)?;
    Ok(Goal::All(goals))
}

// A substitution that shows the resolution at these literals; None exactly where there is none.
fn resolve_at(
    search: &Search<'_>,
    left: &Clause,
    right: &Clause,
    i: usize,
    j: usize,
) -> Result<Option<Subst>, Memory>
    requires left { IsFit search.now.sig.now left.now }
    requires right { IsFit search.now.sig.now right.now }
    requires line { IsFit search.now.sig.now search.now.line.now }
    requires left_lit { i < length left.now.lits }
    requires right_lit { j < length right.now.lits }
    ensures { IfOk result (λ found.
        Settles search.now.sig.now search.now.line.now (scope_of_both left.now right.now)
        (ResolvesTo search.now.sig.now left.now right.now search.now.line.now i j) found) }
{
    let line_lits = search.line.lits.as_slice();
    if !may_resolve(line_lits, left.lits.as_slice(), right.lits.as_slice(), i, j) {
        return Ok(None);
    }
    let joint = join(search.alloc, search.sig, search.line, left, right)?;
    let goal = goal_at(search.alloc, search.line, &joint, i, j)?;
    settle(search.alloc, search.sig, &joint.scope, &goal)
}

// Whether the literals may become complementary, and all others of the right clause be covered or be its one. These
// tests are cheap, and come before a goal is made.
fn may_resolve(line: &[Lit], left: &[Lit], right: &[Lit], i: usize, j: usize) -> bool
    requires left_lit { i < length left.now }
    requires right_lit { j < length right.now }
    ensures { result ≡ false → NeverResolves line.now left.now right.now i j }
{
    if !may_clash(&left[i], &right[j]) {
        return false;
    }
    may_be_pivot(line, right, j)
}

// What is asked of a substitution at these literals.
fn goal_at(alloc: Global, line: &Clause, joint: &Joint, i: usize, j: usize) -> Result<Goal, Memory>
    requires left_lit { i < length joint.now.left }
    requires right_lit { j < length joint.now.right }
    ensures { IfOk result (λ goal. AsksAt line.now joint.now i j goal) }
{
    let left = joint.left.as_slice();
    let right = joint.right.as_slice();
    resolution_goal(
        alloc,
        line.lits.as_slice(),
        left,
        right,
        &left[i],
        &right[j],
    )
}
