//! The ways to make literals the same, as goals of a search. Ways whose heads clash are left out, so most literals
//! have few or none.
ghost use Rattle.std.specs.Prelude.{◌≡◌, ◌++◌, ◌∷◌, [], length, map, IfOk};
ghost use Rattle.clause_form.specs.declared.clause.AtomOf.TheVariants.{Pred, Eq as Equation};
ghost use Rattle.unify_terms.specs.declared.goal.Goal.{Same};
ghost use Rattle.clause_rules.specs.Ways.{zip_pairs, atom_ways, lit_ways, absurd_ways, cover_ways, goal_of_need};

use clause_form::{AtomOf, Lit};
use fof_terms::{SymId, Term};
use std::alloc::Global;
use tptp_base::{List, Memory};
use unify_terms::{Goal, Pair};

// The terms at the same places.
fn pairs_of(alloc: Global, left: &[Term], right: &[Term]) -> Result<List<Pair>, Memory>
    requires { length left.now ≡ length right.now }
    ensures { IfOk result (λ pairs. pairs ≡ zip_pairs left.now right.now) }
{
    let mut pairs = List::new(alloc);
    for at in 0..left.len() {
        pairs.push(pair_of(alloc, &left[at], &right[at])?)?;
    }
    Ok(pairs)
}

// The two terms as a pair.
fn pair_of(alloc: Global, left: &Term, right: &Term) -> Result<Pair, Memory>
    ensures { IfOk result (λ pair. pair ≡ record { left = left.now; right = right.now }) }
{
    let left = left.copy(alloc)?;
    let right = right.copy(alloc)?;
    Ok(Pair { left, right })
}

/// The goal as a list.
pub fn alone(alloc: Global, goal: Goal) -> Result<List<Goal>, Memory>
    ensures { IfOk result (λ goals. goals ≡ goal ∷ []) }
{
    let mut goals = List::new(alloc);
    goals.push(goal)?;
    Ok(goals)
}

/// The way that asks the two terms to be equal.
pub fn one_pair(alloc: Global, left: &Term, right: &Term) -> Result<Goal, Memory>
    ensures { IfOk result (λ goal. goal ≡ Same (record { left = left.now; right = right.now } ∷ [])) }
{
    let mut pairs = List::new(alloc);
    pairs.push(pair_of(alloc, left, right)?)?;
    Ok(Goal::Same(pairs))
}

// The way that asks nothing.
fn no_pair(alloc: Global) -> Goal
    ensures { result ≡ Same [] }
{
    Goal::Same(List::new(alloc))
}

// The ways to make two atoms of predicates the same.
fn pred_ways(
    alloc: Global,
    symbol: SymId,
    args: &[Term],
    other: SymId,
    others: &[Term],
) -> Result<List<Goal>, Memory>
    ensures { IfOk result (λ ways. ways ≡ map Same (atom_ways (Pred symbol args.now) (Pred other others.now))) }
{
    if symbol == other && args.len() == others.len() {
        let pairs = pairs_of(alloc, args, others)?;
        return alone(alloc, Goal::Same(pairs));
    }
    Ok(List::new(alloc))
}

// The ways to make two equations the same up to their sides.
fn equation_ways(
    alloc: Global,
    left: &Term,
    right: &Term,
    third: &Term,
    fourth: &Term,
) -> Result<List<Goal>, Memory>
    ensures { IfOk result (λ ways. ways
        ≡ map Same (atom_ways (Equation left.now right.now) (Equation third.now fourth.now))) }
{
    let mut ways = List::new(alloc);
    ways.push(two_pairs(alloc, left, third, right, fourth)?)?;
    ways.push(two_pairs(alloc, right, third, left, fourth)?)?;
    Ok(ways)
}

// The way that asks the first two terms to be equal, and the other two.
fn two_pairs(
    alloc: Global,
    left: &Term,
    right: &Term,
    third: &Term,
    fourth: &Term,
) -> Result<Goal, Memory>
    ensures { IfOk result (λ goal. goal
        ≡ Same (record { left = left.now; right = right.now } ∷ record { left = third.now; right = fourth.now } ∷ [])) }
{
    let mut pairs = List::new(alloc);
    pairs.push(pair_of(alloc, left, right)?)?;
    pairs.push(pair_of(alloc, third, fourth)?)?;
    Ok(Goal::Same(pairs))
}

// The ways to make the atoms the same up to the sides of an equation; none where their heads differ.
fn ways_of_atoms(alloc: Global, left: &AtomOf, right: &AtomOf) -> Result<List<Goal>, Memory>
    ensures { IfOk result (λ ways. ways ≡ map Same (atom_ways left.now right.now)) }
{
    match (left, right) {
        (AtomOf::Pred(symbol, args), AtomOf::Pred(other, others)) => {
            pred_ways(alloc, *symbol, args.as_slice(), *other, others.as_slice())
        }
        (AtomOf::Eq(first, second), AtomOf::Eq(third, fourth)) => {
            equation_ways(alloc, first, second, third, fourth)
        }
        (AtomOf::True, AtomOf::True) | (AtomOf::False, AtomOf::False) => {
            alone(alloc, no_pair(alloc))
        }
        _ => Ok(List::new(alloc)),
    }
}

/// The ways to make the literal of this sign and atom the target, up to sides.
#[tactic(auto, using(crate::proofs::WayRules::signed_same, crate::proofs::WayRules::signed_other))]
pub fn ways_to(
    alloc: Global,
    positive: bool,
    atom: &AtomOf,
    target: &Lit,
) -> Result<List<Goal>, Memory>
    ensures { IfOk result (λ ways. ways ≡ map Same (lit_ways positive atom.now target.now)) }
{
    if positive == target.positive {
        return ways_of_atoms(alloc, atom, &target.atom);
    }
    Ok(List::new(alloc))
}

// The ways to make the literal false by its form.
fn ways_to_absurdity(alloc: Global, atom: &AtomOf, positive: bool) -> Result<List<Goal>, Memory>
    ensures { IfOk result (λ ways. ways ≡ map Same (absurd_ways atom.now positive)) }
{
    match atom {
        AtomOf::Eq(left, right) if !positive => alone(alloc, one_pair(alloc, left, right)?),
        AtomOf::True if !positive => alone(alloc, no_pair(alloc)),
        AtomOf::False if positive => alone(alloc, no_pair(alloc)),
        _ => Ok(List::new(alloc)),
    }
}

/// The goal that the literal is one of the targets, up to sides, or false by its form.
#[tactic(auto, using(crate::proofs::WayRules::ways_more, crate::proofs::WayRules::ways_joined))]
pub fn covered(alloc: Global, lit: &Lit, targets: &[Lit]) -> Result<Goal, Memory>
    ensures { IfOk result (λ goal. goal ≡ goal_of_need (cover_ways targets.now lit.now)) }
{
    let mut ways = List::new(alloc);
    for target in targets {
        ways.append(ways_to(alloc, lit.positive, &lit.atom, target)?)?;
    }
    ways.append(ways_to_absurdity(alloc, &lit.atom, lit.positive)?)?;
    Ok(Goal::Any(ways))
}

/// The goals that each literal is one of the targets, up to sides, or false by its form.
pub fn all_covered(alloc: Global, lits: &[Lit], targets: &[Lit]) -> Result<List<Goal>, Memory>
    ensures { IfOk result (λ goals. goals ≡ map (λ k. goal_of_need (cover_ways targets.now k)) lits.now) }
{
    let mut goals = List::new(alloc);
    for lit in lits {
        goals.push(covered(alloc, lit, targets)?)?;
    }
    Ok(goals)
}
