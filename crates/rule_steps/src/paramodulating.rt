// What a paramodulation of two clauses makes, and the substitution by which the line covers it.
ghost use Rattle.std.specs.Prelude.{◌≡◌, ◌↔◌, ◌++◌, remove, IsTrue, Some, IfOk, slice_get, slice_set};
ghost use Rattle.fof_terms.specs.Sorts.{sort_of_term};
ghost use Rattle.clause_rules.specs.JointClauses.{IsJoined};
ghost use Rattle.clause_rules.specs.ParamodulationRule.{HasPlace, Paramodulates};
ghost use Rattle.clause_rules.specs.Places.{lit_put_at};
ghost use Rattle.clause_rules.specs.Settled.{IsFit, Settles};
ghost use Rattle.clause_rules.specs.Steps.{equation, scope_of_both};

use crate::search::Search;
use crate::sides::Sides;
use crate::sites::{Reading, Site, Spot, equation_in, spot_in};
use clause_form::{Clause, Lit, copy_lits};
use clause_rules::{Joint, join, put_in, reversed};
use fof_terms::{Scope as Reach, Signature, Term, sort_of};
use std::alloc::Global;
use substitution_search::settle_beside;
use tptp_base::{List, Memory};
use unify_terms::{Scope, Subst};

/// A substitution that shows the paramodulation at this place with this equation, over one list of variables.
pub fn of_joint(
    search: &Search<'_>,
    into: &Clause,
    from: &Clause,
    site: &Site,
    reading: &Reading,
) -> Result<Option<Subst>, Memory>
    requires into { IsFit search.now.sig.now into.now }
    requires from { IsFit search.now.sig.now from.now }
    requires line { IsFit search.now.sig.now search.now.line.now }
    requires place { HasPlace into.now.lits site.now.lit site.now.at }
    ensures { IfOk result (λ found.
        Settles search.now.sig.now search.now.line.now (scope_of_both into.now from.now)
        (Paramodulates search.now.sig.now into.now from.now search.now.line.now site.now.lit site.now.at
        reading.now.lit reading.now.flipped) found) }
{
    let joint = join(search.alloc, search.sig, search.line, into, from)?;
    match spot_in(joint.left.as_slice(), site.lit, site.at.as_slice()) {
        Some(spot) => match equation_in(joint.right.as_slice(), reading.lit, reading.flipped) {
            Some(sides) => {
                let is_one = is_one_sort(
                    search.alloc,
                    search.sig,
                    &joint.scope,
                    spot.term,
                    sides.left,
                )?;
                if !is_one {
                    return Ok(None);
                }
                let lits = paramodulated(search.alloc, &joint, site, reading, &spot, &sides)?;
                settle_beside(
                    search.alloc,
                    search.sig,
                    &joint.scope,
                    spot.term,
                    sides.left,
                    lits.as_slice(),
                    search.line.lits.as_slice(),
                )
            }
            None => Ok(None),
        },
        None => Ok(None),
    }
}

// Whether the terms have one sort over the scope.
fn is_one_sort(
    alloc: Global,
    sig: &Signature,
    scope: &Scope,
    left: &Term,
    right: &Term,
) -> Result<bool, Memory>
    ensures { IfOk result (λ answer. IsTrue answer
        ↔ (sort_of_term sig.now scope.now.sorts left.now ≡ sort_of_term sig.now scope.now.sorts right.now)) }
{
    let sorts = reversed(alloc, scope.sorts.as_slice())?;
    let reach = Reach::Outside(sorts.as_slice());
    let first = sort_of(left, sig, &reach);
    let second = sort_of(right, sig, &reach);
    Ok(first == second)
}

// The literals of both clauses with the right side in place of the term, and without the equation.
fn paramodulated(
    alloc: Global,
    joint: &Joint,
    site: &Site,
    reading: &Reading,
    spot: &Spot<'_>,
    sides: &Sides<'_>,
) -> Result<List<Lit>, Memory>
    requires into { slice_get joint.now.left site.now.lit ≡ Some spot.now.lit.now }
    requires from { slice_get joint.now.right reading.now.lit
        ≡ Some (equation reading.now.flipped sides.now.left.now sides.now.right.now) }
    ensures { IfOk result (λ made. made
        ≡ slice_set joint.now.left site.now.lit (lit_put_at site.now.at sides.now.right.now spot.now.lit.now)
        ++ remove joint.now.right reading.now.lit) }
{
    let mut lits = copy_lits(alloc, joint.left.as_slice())?;
    let changed: Lit = put_in(alloc, spot.lit, site.at.as_slice(), sides.right)?;
    lits.set(site.lit, changed);
    let mut others = copy_lits(alloc, joint.right.as_slice())?;
    others.remove(reading.lit);
    lits.append(others)?;
    Ok(lits)
}
