//! The pairs of terms that two atoms, or two terms, ask to be made equal.
ghost use Rattle.std.specs.Prelude.{◌≡◌, ◌∷◌, [], length, IfOk};
ghost use Rattle.fof_terms.specs.Lift.{lifted_term};
ghost use Rattle.clause_rules.specs.Ways.{zip_pairs};
ghost use Rattle.superpose.specs.code.Pairs.{ArePairsOf};

use crate::copying::copied;
use crate::moving::moved;
use clause_form::{AtomOf, Lit};
use fof_terms::Term;
use std::alloc::Global;
use tptp_base::{List, Memory};
use unify_terms::Pair;

/// The pairs of the arguments of the atoms of two literals; None where no instances of the atoms are equal.
pub fn pairs_of_lits(alloc: Global, first: &Lit, second: &Lit) -> Result<Option<List<Pair>>, Memory>
    ensures { IfOk result (λ pairs. ArePairsOf first.now.atom second.now.atom pairs) }
{
    pairs_of_atoms(alloc, &first.atom, &second.atom)
}

// The pairs of the arguments of two atoms; None where no instances of the atoms are equal.
fn pairs_of_atoms(
    alloc: Global,
    first: &AtomOf,
    second: &AtomOf,
) -> Result<Option<List<Pair>>, Memory>
    ensures { IfOk result (λ pairs. ArePairsOf first.now second.now pairs) }
{
    match first {
        AtomOf::Pred(symbol, args) => match second {
            AtomOf::Pred(other, others) => {
                if symbol != other || args.len() != others.len() {
                    return Ok(None);
                }
                Ok(Some(pairs_of(alloc, args.as_slice(), others.as_slice())?))
            }
            AtomOf::Eq(_, _) | AtomOf::True | AtomOf::False => Ok(None),
        },
        AtomOf::Eq(left, right) => match second {
            AtomOf::Eq(other_left, other_right) => {
                let mut pairs = pair_of(alloc, left, other_left)?;
                pairs.append(pair_of(alloc, right, other_right)?)?;
                Ok(Some(pairs))
            }
            AtomOf::Pred(_, _) | AtomOf::True | AtomOf::False => Ok(None),
        },
        AtomOf::True => match second {
            AtomOf::True => Ok(Some(List::new(alloc))),
            AtomOf::Pred(_, _) | AtomOf::Eq(_, _) | AtomOf::False => Ok(None),
        },
        AtomOf::False => match second {
            AtomOf::False => Ok(Some(List::new(alloc))),
            AtomOf::Pred(_, _) | AtomOf::Eq(_, _) | AtomOf::True => Ok(None),
        },
    }
}

// The pairs of the terms at each place of two lists.
fn pairs_of(alloc: Global, first: &[Term], second: &[Term]) -> Result<List<Pair>, Memory>
    requires { length first.now ≡ length second.now }
    ensures { IfOk result (λ pairs. pairs ≡ zip_pairs first.now second.now) }
{
    let mut pairs = List::new(alloc);
    for at in 0..first.len() {
        pairs.push(Pair {
            left: first[at].copy(alloc)?,
            right: second[at].copy(alloc)?,
        })?;
    }
    Ok(pairs)
}

/// The one pair of a term and another one, whose variables are moved past so many others.
pub fn pair_apart(alloc: Global, first: &Term, second: &Term, by: u32) -> Result<List<Pair>, Memory>
    ensures { IfOk result (λ pairs. pairs ≡ zip_pairs (first.now ∷ []) (lifted_term by 0 second.now ∷ [])) }
{
    let mut pairs = Vec::with_capacity(alloc, 1)?;
    pairs.push(Pair {
        left: copied(first, alloc)?,
        right: moved(second, alloc, by)?,
    })?;
    Ok(List::from_vec(pairs))
}

/// The one pair of the two terms.
pub fn pair_of(alloc: Global, first: &Term, second: &Term) -> Result<List<Pair>, Memory>
    ensures { IfOk result (λ pairs. pairs ≡ zip_pairs (first.now ∷ []) (second.now ∷ [])) }
{
    let mut pairs = List::new(alloc);
    pairs.push(Pair {
        left: first.copy(alloc)?,
        right: second.copy(alloc)?,
    })?;
    Ok(pairs)
}
