ghost use Rattle.std.specs.Prelude.{◌≡◌, ◌≤◌, map, max};
ghost use Rattle.fof_terms.specs.Lift.{greatest};
ghost use Rattle.std.specs.List.{All as Each};
ghost use Rattle.clause_order.specs.Weights.{clause_weight};
ghost use Rattle.saturation.specs.Lists.{bound_of};

use clause_form::Clause;
use clause_order::clause_weight_of;

/// The greatest weight that a member may have.
pub fn heaviest_allowed(inputs: &[Clause]) -> u64
    requires { Each (λ c. clause_weight c ≤ 100000000) inputs.now }
    ensures { result ≡ bound_of inputs.now }
{
    greatest_weight(inputs) * 2 + 500
}

// The weight of the heaviest clause.
fn greatest_weight(clauses: &[Clause]) -> u64
    ensures { result ≡ greatest (map clause_weight clauses.now) }
{
    let mut most = 0;
    for clause in clauses {
        most = larger(most, clause_weight_of(clause));
    }
    most
}

// The greater of two numbers.
fn larger(left: u64, right: u64) -> u64
    ensures { result ≡ max left right }
{
    if left < right { right } else { left }
}
