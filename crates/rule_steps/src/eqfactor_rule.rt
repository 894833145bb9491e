ghost use Rattle.std.specs.Prelude.{◌≡◌, ◌<◌, length, slice_set, Some, IfOk};
ghost use Rattle.clause_form.specs.Covers.{scope_of};
ghost use Rattle.clause_rules.specs.declared.just.Just.TheVariants.{EqFactor};
ghost use Rattle.clause_rules.specs.Answers.{IsAnswer, eqfactor};
ghost use Rattle.clause_rules.specs.EqFactorRule.{Factors};
ghost use Rattle.rule_steps.specs.code.EqFactorSearch.{FoundFactor, FoundInParent, NoneRead, NoneWith};
ghost use Rattle.rule_steps.specs.code.EqFactorSearch.{NoneFrom, NoneIn};
ghost use Rattle.clause_rules.specs.JointClauses.{IsJoinedOne};
ghost use Rattle.clause_rules.specs.Settled.{IsFit, Settles};
ghost use Rattle.rule_steps.specs.code.AmongClauses.{AnswersBy};
ghost use Rattle.rule_steps.specs.code.SlotFits.{IsSlotFit, AllFit};
ghost use Rattle.clause_rules.specs.Steps.{unequal, AreReady, IsReady};

use crate::clause_rule::{ClauseRule, step_by};
use crate::search::Search;
use crate::sides::{Sides, sides_of};
use clause_form::{AtomOf, Clause, Lit, Parent, copy_lits};
use clause_rules::{Joint, Just, join_one};
use fof_terms::{Form, Signature, Term};
use std::alloc::Global;
use substitution_search::{may_others_be_covered, settle_beside};
use tptp_base::{List, Memory};
use unify_terms::Subst;

/// Two equations of a clause, how they are read, and a substitution.
#[derive(Drop)]
pub struct Factor {
    pub first: usize,
    pub first_flipped: bool,
    pub second: usize,
    pub second_flipped: bool,
    pub subst: Subst,
}

/// The rule, for what all rules of its kind share.
pub struct Factorings;

impl ClauseRule for Factorings {
    ghost use Rattle.std.specs.Prelude.{refl};
    ghost use Rattle.clause_rules.specs.Answers.{eqfactor};

    ghost rule = { eqfactor };

    fn among(search: &Search<'_>) -> Result<Option<Just>, Memory> {
        factor_among(search)
    }

    ghost clauses_alone = { refl };
}

/// A justification by the rule `eqfactor`: two equations of a parent get one side in common, and their other sides are
/// denied to be equal in place of the first. None exactly where there is none.
pub fn eqfactor_step(
    alloc: Global,
    sig: &Signature,
    parents: &[Parent],
    line: &Form,
) -> Result<Option<Just>, Memory>
    requires parents { AreReady sig.now parents.now }
    requires line { IsReady sig.now line.now }
    ensures { IfOk result (λ answer. IsAnswer sig.now parents.now line.now eqfactor answer) }
{
    step_by::<Factorings>(alloc, sig, parents, line)
}

// The literals with the denied equation of the right sides in place of literal i.
fn with_denied(
    alloc: Global,
    lits: &[Lit],
    i: usize,
    first: &Sides<'_>,
    second: &Sides<'_>,
) -> Result<List<Lit>, Memory>
    requires { i < length lits.now }
    ensures { IfOk result (λ made. made ≡ slice_set lits.now i (unequal first.now.right.now second.now.right.now)) }
{
    let mut made = copy_lits(alloc, lits)?;
    made.set(i, unequal_lit(alloc, first.right, second.right)?);
    Ok(made)
}

// The denied equation.
fn unequal_lit(alloc: Global, left: &Term, right: &Term) -> Result<Lit, Memory>
    ensures { IfOk result (λ lit. lit ≡ unequal left.now right.now) }
{
    let atom = AtomOf::Eq(left.copy(alloc)?, right.copy(alloc)?);
    Ok(Lit {
        positive: false,
        atom,
    })
}

// A substitution that shows the factoring at these literals, read so; None exactly where there is none.
fn factor_at(
    search: &Search<'_>,
    clause: &Clause,
    joint: &Joint,
    i: usize,
    first_flipped: bool,
    j: usize,
    second_flipped: bool,
) -> Result<Option<Subst>, Memory>
    requires clause { IsFit search.now.sig.now clause.now }
    requires line { IsFit search.now.sig.now search.now.line.now }
    requires joint { IsJoinedOne search.now.line.now clause.now joint.now }
    requires first { i < length joint.now.left }
    requires second { j < length joint.now.left }
    ensures { IfOk result (λ found.
        Settles search.now.sig.now search.now.line.now (scope_of clause.now)
        (Factors search.now.sig.now clause.now search.now.line.now i first_flipped j second_flipped) found) }
{
    if i == j {
        return Ok(None);
    }
    let lits = joint.left.as_slice();
    match sides_of(&lits[i], first_flipped) {
        Some(first) => match sides_of(&lits[j], second_flipped) {
            Some(second) => {
                let made = with_denied(search.alloc, lits, i, &first, &second)?;
                settle_beside(
                    search.alloc,
                    search.sig,
                    &joint.scope,
                    first.left,
                    second.left,
                    made.as_slice(),
                    search.line.lits.as_slice(),
                )
            }
            None => Ok(None),
        },
        None => Ok(None),
    }
}

// A factoring at these literals, the first of them read so.
fn factor_read(
    search: &Search<'_>,
    clause: &Clause,
    joint: &Joint,
    i: usize,
    first_flipped: bool,
    j: usize,
) -> Result<Option<Factor>, Memory>
    requires clause { IsFit search.now.sig.now clause.now }
    requires line { IsFit search.now.sig.now search.now.line.now }
    requires joint { IsJoinedOne search.now.line.now clause.now joint.now }
    requires first { i < length joint.now.left }
    requires second { j < length joint.now.left }
    ensures { IfOk result (λ found.
        FoundFactor search.now.sig.now clause.now search.now.line.now
        (NoneRead search.now.sig.now clause.now search.now.line.now i first_flipped j) found) }
{
    let straight = factor_at(search, clause, joint, i, first_flipped, j, false)?;
    if let Some(subst) = straight {
        return Ok(Some(factored(i, first_flipped, j, false, subst)));
    }
    let flipped = factor_at(search, clause, joint, i, first_flipped, j, true)?;
    if let Some(subst) = flipped {
        return Ok(Some(factored(i, first_flipped, j, true, subst)));
    }
    Ok(None)
}

// The factoring with these literals.
fn factored(i: usize, first_flipped: bool, j: usize, second_flipped: bool, subst: Subst) -> Factor
    ensures { result
        ≡ record {
          first = i;
          first_flipped = first_flipped;
          second = j;
          second_flipped = second_flipped;
          subst = subst;
        } }
{
    Factor {
        first: i,
        first_flipped,
        second: j,
        second_flipped,
        subst,
    }
}

// A factoring at these literals.
fn factor_with(
    search: &Search<'_>,
    clause: &Clause,
    joint: &Joint,
    i: usize,
    j: usize,
) -> Result<Option<Factor>, Memory>
    requires clause { IsFit search.now.sig.now clause.now }
    requires line { IsFit search.now.sig.now search.now.line.now }
    requires joint { IsJoinedOne search.now.line.now clause.now joint.now }
    requires first { i < length joint.now.left }
    requires second { j < length joint.now.left }
    ensures { IfOk result (λ found.
        FoundFactor search.now.sig.now clause.now search.now.line.now
        (NoneWith search.now.sig.now clause.now search.now.line.now i j) found) }
{
    let straight = factor_read(search, clause, joint, i, false, j)?;
    if let Some(factor) = straight {
        return Ok(Some(factor));
    }
    let flipped = factor_read(search, clause, joint, i, true, j)?;
    if let Some(factor) = flipped {
        return Ok(Some(factor));
    }
    Ok(None)
}

// A factoring whose first equation is literal i. A cheap test of the other literals comes first.
fn factor_from(
    search: &Search<'_>,
    clause: &Clause,
    joint: &Joint,
    i: usize,
) -> Result<Option<Factor>, Memory>
    requires clause { IsFit search.now.sig.now clause.now }
    requires line { IsFit search.now.sig.now search.now.line.now }
    requires joint { IsJoinedOne search.now.line.now clause.now joint.now }
    requires first { i < length joint.now.left }
    ensures { IfOk result (λ found.
        FoundFactor search.now.sig.now clause.now search.now.line.now
        (NoneFrom search.now.sig.now clause.now search.now.line.now i) found) }
{
    if !may_others_be_covered(search.line.lits.as_slice(), clause.lits.as_slice(), i) {
        return Ok(None);
    }
    for j in 0..joint.left.len() {
        let found = factor_with(search, clause, joint, i, j)?;
        if let Some(factor) = found {
            return Ok(Some(factor));
        }
    }
    Ok(None)
}

// A factoring over this scope.
fn factor_joint(
    search: &Search<'_>,
    clause: &Clause,
    joint: &Joint,
) -> Result<Option<Factor>, Memory>
    requires clause { IsFit search.now.sig.now clause.now }
    requires line { IsFit search.now.sig.now search.now.line.now }
    requires joint { IsJoinedOne search.now.line.now clause.now joint.now }
    ensures { IfOk result (λ found.
        FoundFactor search.now.sig.now clause.now search.now.line.now
        (NoneIn search.now.sig.now clause.now search.now.line.now) found) }
{
    for i in 0..joint.left.len() {
        let found = factor_from(search, clause, joint, i)?;
        if let Some(factor) = found {
            return Ok(Some(factor));
        }
    }
    Ok(None)
}

// A factoring of the clause, if it is one.
fn factor_slot(search: &Search<'_>, slot: &Option<Clause>) -> Result<Option<Factor>, Memory>
    requires slot { IsSlotFit search.now.sig.now slot.now }
    requires line { IsFit search.now.sig.now search.now.line.now }
    ensures { IfOk result (λ found. FoundInParent search.now.sig.now slot.now search.now.line.now found) }
{
    match slot {
        Some(clause) => {
            let joint = join_one(search.alloc, search.sig, search.line, clause)?;
            factor_joint(search, clause, &joint)
        }
        None => Ok(None),
    }
}

/// A factoring of one of the clauses.
pub fn factor_among(search: &Search<'_>) -> Result<Option<Just>, Memory>
    requires clauses { AllFit search.now.sig.now search.now.clauses.now }
    requires line { IsFit search.now.sig.now search.now.line.now }
    ensures { IfOk result (λ found. AnswersBy eqfactor search.now found) }
{
    for a in 0..search.clauses.len() {
        let found = factor_slot(search, &search.clauses[a])?;
        if let Some(factor) = found {
            return Ok(Some(justified(a, factor)));
        }
    }
    Ok(None)
}

// The justification with this clause.
fn justified(a: usize, factor: Factor) -> Just
    ensures { result
        ≡ EqFactor a factor.first factor.first_flipped factor.second factor.second_flipped factor.subst }
{
    let Factor {
        first,
        first_flipped,
        second,
        second_flipped,
        subst,
    } = factor;
    Just::EqFactor {
        parent: a,
        first,
        first_flipped,
        second,
        second_flipped,
        subst,
    }
}
