//! The terms of a clause for which an index is asked, and which it has.
ghost use Rattle.std.specs.Prelude.{◌≡◌, IfOk, true, false, option_copied};
ghost use Rattle.saturation.specs.code.Offers.{atom_at, side_at, spot_at, offer_of};

use clause_form::{AtomOf, Lit};
use clause_rules::term_in;
use fof_terms::{Term, copy_terms};
use std::alloc::Global;
use superpose::{Side, Spot};
use tptp_base::Memory;

/// A term, and the sign under which an index has it. Predicate atoms of eligible literals are offered as terms, the
/// sides of equations as positive terms, and the terms below literals as negative ones.
#[derive(Drop)]
pub struct Offer {
    pub positive: bool,
    pub term: Term,
}

/// The literal's predicate atom as a term, if it has one.
pub fn atom_in(alloc: Global, lits: &[Lit], number: usize) -> Result<Option<Offer>, Memory>
    ensures { IfOk result (λ found. found ≡ atom_at lits.now number) }
{
    match lits.get(number) {
        Some(lit) => match &lit.atom {
            AtomOf::Pred(symbol, args) => Ok(Some(Offer {
                positive: lit.positive,
                term: Term::App(*symbol, copy_terms(alloc, args.as_slice())?),
            })),
            _ => Ok(None),
        },
        None => Ok(None),
    }
}

/// The side of the equation.
pub fn side_in<'a>(lits: &'a [Lit], side: &Side) -> Option<&'a Term>
    ensures { offer_of true (option_copied result) ≡ side_at lits.now side.now }
{
    match lits.get(side.lit) {
        Some(lit) => match &lit.atom {
            AtomOf::Eq(left, right) => {
                if side.flipped {
                    Some(right)
                } else {
                    Some(left)
                }
            }
            _ => None,
        },
        None => None,
    }
}

/// The term at the place.
pub fn spot_in<'a>(lits: &'a [Lit], spot: &Spot) -> Option<&'a Term>
    ensures { offer_of false (option_copied result) ≡ spot_at lits.now spot.now }
{
    match lits.get(spot.lit) {
        Some(lit) => term_in(lit, spot.place.as_slice()),
        None => None,
    }
}
