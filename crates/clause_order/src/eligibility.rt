ghost use Rattle.std.specs.Prelude.{◌≡◌, ◌<◌, ◌↔◌, IsTrue, length};
ghost use Rattle.clause_order.specs.Eligible.{IsEligible, IsFirstHeaviest, IsUnexceeded};

use crate::exceeding::exceeds;
use crate::weighing::lit_weight_of;
use clause_form::{Clause, Lit};

/// Whether the literal at this place is eligible for inferences: where the clause has a negative literal, the first of
/// the heaviest negative ones alone, else each literal that no other exceeds.
pub fn eligible(clause: &Clause, lit: u32) -> bool
    ensures { IsTrue result ↔ IsEligible clause.now.lits lit }
{
    let lits = clause.lits.as_slice();
    let at = lit as usize;
    if at >= lits.len() {
        return false;
    }
    if lits[at].positive {
        return is_unexceeded(lits, at);
    }
    is_first_heaviest(lits, at)
}

/// Whether the literal at this place is negative, and the first of the heaviest negative ones.
fn is_first_heaviest(lits: &[Lit], at: usize) -> bool
    requires { at < length lits.now }
    ensures { IsTrue result ↔ IsFirstHeaviest lits.now at }
{
    let chosen = &lits[at];
    if chosen.positive {
        return false;
    }
    let weight = lit_weight_of(chosen);
    for place in 0..lits.len() {
        if !lits[place].positive {
            let other = lit_weight_of(&lits[place]);
            if weight < other || (weight == other && place < at) {
                return false;
            }
        }
    }
    true
}

/// Whether the clause has no negative literal, and no literal exceeds that at this place.
fn is_unexceeded(lits: &[Lit], at: usize) -> bool
    requires { at < length lits.now }
    ensures { IsTrue result ↔ IsUnexceeded lits.now at }
{
    let chosen = &lits[at];
    for lit in lits {
        if !lit.positive || exceeds(lit, chosen) {
            return false;
        }
    }
    true
}
