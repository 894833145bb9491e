//! Equality resolution of a denied equation.
ghost use Rattle.std.specs.Prelude.{◌≡◌, ◌<◌, length, IfOk};
ghost use Rattle.clause_form.specs.Covers.{scope_of};
ghost use Rattle.clause_order.specs.Eligible.{IsEligible};
ghost use Rattle.superpose.specs.Drafts.{IsClause};
ghost use Rattle.superpose.specs.Inferences.{ResolvesEquationAt};
ghost use Rattle.superpose.specs.Made.{IsBestAt};

use crate::concluding::conclude;
use crate::made::Made;
use crate::pairing::pair_of;
use crate::sides::denied_sides;
use clause_form::Clause;
use clause_rules::scope_of_clause;
use fof_terms::Signature;
use std::alloc::Global;
use tptp_base::Memory;
use unify_terms::{Scope, unify};

/// The most general clause that is left where the sides of the denied equation i are made equal. None exactly where no
/// substitution does.
pub fn resolve_equation_at(
    alloc: Global,
    sig: &Signature,
    c: &Clause,
    i: usize,
) -> Result<Option<Made>, Memory>
    requires c { IsClause sig.now c.now }
    requires i { i < length c.now.lits }
    requires first { IsEligible c.now.lits i }
    ensures { IfOk result (λ found. IsBestAt sig.now (scope_of c.now) (ResolvesEquationAt c.now i) found) }
{
    let lits = c.lits.as_slice();
    let sides = match denied_sides(&lits[i]) {
        Some(sides) => sides,
        None => return Ok(None),
    };
    let pairs = pair_of(alloc, sides.left, sides.right)?;
    let scope = Scope {
        sorts: scope_of_clause(alloc, c)?,
        rigid: 0,
    };
    match unify(alloc, sig, &scope, pairs.as_slice())? {
        Some(subst) => {
            let sorts = scope.sorts.as_slice();
            Ok(Some(conclude(alloc, sorts, &subst, lits, i, &[])?))
        }
        None => Ok(None),
    }
}
