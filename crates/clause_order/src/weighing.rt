ghost use Rattle.std.specs.Prelude.{◌≡◌, ◌+◌, map, sum};
ghost use Rattle.fof_terms.specs.Count.{symbol_count};
ghost use Rattle.clause_order.specs.Weights.{clause_weight, lit_weight, stopped};

use clause_form::{AtomOf, Clause, Lit};
use fof_terms::{Term, weight};

/// One more than the number of symbols and variables of the terms, up to the greatest value.
fn weight_over(terms: &[Term]) -> u64
    ensures { result ≡ stopped (1 + sum (map symbol_count terms.now)) }
{
    let mut total: u64 = 1;
    for term in terms {
        total = total.saturating_add(weight(term));
    }
    total
}

/// The number of symbols and variables of the literal's atom, up to the greatest value.
#[tactic(auto, using(crate::proofs::WeightsFacts::weight_equations))]
pub fn lit_weight_of(lit: &Lit) -> u64
    ensures { result ≡ lit_weight lit.now }
{
    match &lit.atom {
        AtomOf::Pred(_, args) => weight_over(args.as_slice()),
        AtomOf::Eq(left, right) => weight(left).saturating_add(weight(right)).saturating_add(1),
        AtomOf::True | AtomOf::False => 1,
    }
}

/// The number of symbols and variables of the clause's atoms, up to the greatest value.
pub fn clause_weight_of(clause: &Clause) -> u64
    ensures { result ≡ clause_weight clause.now }
{
    let mut total: u64 = 0;
    for lit in clause.lits.as_slice() {
        total = total.saturating_add(lit_weight_of(lit));
    }
    total
}
