//! Superposition at a place of a literal.
ghost use Rattle.std.specs.Prelude.{◌≡◌, ◌<◌, length, slice_get, option_copied, Some, false, IfOk, OnOk};
ghost use Rattle.fof_terms.specs.declared.term.Term.{Term as Inner};
ghost use Rattle.clause_rules.specs.Steps.{equation, scope_of_both};
ghost use Rattle.clause_order.specs.Eligible.{IsEligible, IsNotLess};
ghost use Rattle.superpose.specs.Drafts.{IsClause};
ghost use Rattle.superpose.specs.Inferences.{SuperposesAt};
ghost use Rattle.superpose.specs.Made.{IsBestAt};
ghost use Rattle.superpose.specs.code.Placed.{AreReplaced, HasPart, NoneStands};

use crate::agreeing::may_meet;
use crate::concluding::conclude;
use crate::made::Made;
use crate::pairing::pair_apart;
use crate::resolution::scope_of_two;
use crate::sides::sides_of;
use crate::used::Side;
use clause_form::{Clause, Lit};
use clause_rules::{kept_apart, put_in, term_in};
use fof_terms::{Signature, Term};
use std::alloc::Global;
use tptp_base::{List, Memory};
use unify_terms::unify;

/// The most general clause that superposition makes of a side of a positive equation of the first clause, at a place of
/// literal j of the second clause. None exactly where no substitution makes one.
pub fn superpose_at(
    alloc: Global,
    sig: &Signature,
    c: &Clause,
    d: &Clause,
    side: Side,
    j: usize,
    place: &[usize],
) -> Result<Option<Made>, Memory>
    requires c { IsClause sig.now c.now }
    requires d { IsClause sig.now d.now }
    requires i { side.lit < length c.now.lits }
    requires j { j < length d.now.lits }
    requires first { IsEligible c.now.lits side.lit }
    requires second { IsEligible d.now.lits j }
    requires not_less { (l r : Inner) → slice_get c.now.lits side.lit ≡ Some (equation side.flipped l r)
        → IsNotLess l r }
    ensures { IfOk result (λ found. IsBestAt sig.now (scope_of_both c.now d.now)
        (SuperposesAt c.now d.now side.lit side.flipped j place.now) found) }
{
    let lits = c.lits.as_slice();
    let sides = match sides_of(&lits[side.lit], side.flipped) {
        Some(sides) => sides,
        None => return Ok(None),
    };
    let target = &d.lits.as_slice()[j];
    if !may_stand_at(sides.left, target, place) {
        return Ok(None);
    }
    let part = match part_in(target, place) {
        Some(part) => part,
        None => return Ok(None),
    };
    let by = c.sorts.len() as u32;
    let pairs = pair_apart(alloc, sides.left, part, by)?;
    let scope = scope_of_two(alloc, c, d)?;
    match unify(alloc, sig, &scope, pairs.as_slice())? {
        Some(subst) => {
            let mut apart = kept_apart(alloc, sig, d, by)?;
            replace(alloc, &mut apart, j, place, sides.right)?;
            let sorts = scope.sorts.as_slice();
            Ok(Some(conclude(alloc, sorts, &subst, lits, side.lit, apart.as_slice())?))
        }
        None => Ok(None),
    }
}

// Whether a term stands at the place whose symbols agree with those of the side.
fn may_stand_at(side: &Term, target: &Lit, place: &[usize]) -> bool
    ensures { result ≡ false → NoneStands side.now target.now place.now }
{
    match term_in(target, place) {
        Some(term) => may_meet(side, term),
        None => false,
    }
}

/// The term at the place of the literal, if one stands there that is no variable.
pub fn part_in<'a>(lit: &'a Lit, place: &[usize]) -> Option<&'a Term>
    ensures { HasPart lit.now place.now (option_copied result) }
{
    let part = term_in(lit, place)?;
    match part {
        Term::App(_, _) => Some(part),
        Term::Var(_) => None,
    }
}

// Puts another term at a place of one of the literals.
fn replace(
    alloc: Global,
    lits: &mut List<Lit>,
    j: usize,
    place: &[usize],
    new: &Term,
) -> Result<(), Memory>
    requires { j < length lits.old }
    ensures { OnOk result (AreReplaced lits.old j place.now new.now lits.new) }
{
    let lit = put_in(alloc, &lits.as_slice()[j], place, new)?;
    lits.set(j, lit);
    Ok(())
}
