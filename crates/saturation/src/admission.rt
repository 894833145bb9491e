//! Which clauses a search takes.
ghost use Rattle.std.specs.Prelude.{◌≤◌, IsTrue};
ghost use Rattle.std.specs.List.{All as Each};
ghost use Rattle.clause_order.specs.Weights.{clause_weight};
ghost use Rattle.superpose.specs.Drafts.{IsClause};

use clause_form::Clause;
use clause_order::clause_weight_of;
use fof_terms::Signature;
use superpose::is_clause;

/// Whether a search takes the clauses: they are well-sorted over few sorts, which exist, and not too heavy.
pub fn are_searchable(signature: &Signature, clauses: &[Clause]) -> bool
    ensures clauses { IsTrue result → Each (IsClause signature.now) clauses.now }
    ensures light { IsTrue result → Each (λ c. clause_weight c ≤ 100000000) clauses.now }
    ensures whole { Each (IsClause signature.now) clauses.now → Each (λ c. clause_weight c ≤ 100000000) clauses.now
        → IsTrue result }
{
    clauses.iter().all(|clause| is_clause(signature, clause)
        && clause_weight_of(clause) <= 100_000_000)
}
