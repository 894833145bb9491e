//! Factoring of two positive literals.
ghost use Rattle.std.specs.Prelude.{◌≡◌, ◌<◌, length, false, true, IfOk};
ghost use Rattle.clause_form.specs.Covers.{scope_of};
ghost use Rattle.clause_order.specs.Eligible.{IsEligible};
ghost use Rattle.superpose.specs.Drafts.{IsClause};
ghost use Rattle.superpose.specs.Inferences.{FactorsAt};
ghost use Rattle.superpose.specs.Made.{IsBestAt};
ghost use Rattle.superpose.specs.code.Pairs.{NotPositive};

use crate::concluding::conclude;
use crate::made::Made;
use crate::pairing::pairs_of_lits;
use clause_form::{Clause, Lit};
use clause_rules::scope_of_clause;
use fof_terms::Signature;
use std::alloc::Global;
use tptp_base::Memory;
use unify_terms::{Scope, unify};

/// The most general factor of the positive literals i and j, of which the second goes. None exactly where no
/// substitution makes them equal.
pub fn factor_at(
    alloc: Global,
    sig: &Signature,
    c: &Clause,
    i: usize,
    j: usize,
) -> Result<Option<Made>, Memory>
    requires c { IsClause sig.now c.now }
    requires i { i < length c.now.lits }
    requires j { j < length c.now.lits }
    requires first { IsEligible c.now.lits i }
    ensures { IfOk result (λ found. IsBestAt sig.now (scope_of c.now) (FactorsAt c.now i j) found) }
{
    let lits = c.lits.as_slice();
    if i == j {
        return Ok(None);
    }
    let first = &lits[i];
    let second = &lits[j];
    if !are_positive(first, second) {
        return Ok(None);
    }
    let pairs = match pairs_of_lits(alloc, first, second)? {
        Some(pairs) => pairs,
        None => return Ok(None),
    };
    let scope = Scope {
        sorts: scope_of_clause(alloc, c)?,
        rigid: 0,
    };
    match unify(alloc, sig, &scope, pairs.as_slice())? {
        Some(subst) => {
            let sorts = scope.sorts.as_slice();
            Ok(Some(conclude(alloc, sorts, &subst, lits, j, &[])?))
        }
        None => Ok(None),
    }
}

// Whether both literals are positive.
fn are_positive(first: &Lit, second: &Lit) -> bool
    ensures never { result ≡ false → NotPositive first.now second.now }
    ensures both { result ≡ true → (first.now.positive ≡ true) × (second.now.positive ≡ true) }
{
    if !first.positive {
        return false;
    }
    second.positive
}
