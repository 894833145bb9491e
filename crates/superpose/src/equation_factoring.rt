//! Equality factoring of two positive equations.
ghost use Rattle.std.specs.Prelude.{◌≡◌, ◌<◌, ◌∷◌, [], length, IfOk};
ghost use Rattle.clause_form.specs.Covers.{scope_of};
ghost use Rattle.clause_rules.specs.Steps.{unequal};
ghost use Rattle.clause_order.specs.Eligible.{IsEligible};
ghost use Rattle.superpose.specs.Drafts.{IsClause};
ghost use Rattle.superpose.specs.Inferences.{FactorsEquationsAt};
ghost use Rattle.superpose.specs.Made.{IsBestAt};

use crate::concluding::conclude;
use crate::made::Made;
use crate::pairing::pair_of;
use crate::sides::sides_of;
use clause_form::{AtomOf, Clause, Lit};
use clause_rules::scope_of_clause;
use fof_terms::{Signature, Term};
use std::alloc::Global;
use tptp_base::{List, Memory};
use unify_terms::{Scope, unify};

/// The most general clause that equality factoring makes of the positive equations i and j, each read from the side
/// that is said. None exactly where no substitution makes one.
pub fn factor_equations_at(
    alloc: Global,
    sig: &Signature,
    c: &Clause,
    i: usize,
    first_flipped: bool,
    j: usize,
    second_flipped: bool,
) -> Result<Option<Made>, Memory>
    requires c { IsClause sig.now c.now }
    requires i { i < length c.now.lits }
    requires j { j < length c.now.lits }
    requires first { IsEligible c.now.lits i }
    ensures { IfOk result (λ found.
        IsBestAt sig.now (scope_of c.now) (FactorsEquationsAt c.now i first_flipped j second_flipped) found) }
{
    if i == j {
        return Ok(None);
    }
    let lits = c.lits.as_slice();
    let first = match sides_of(&lits[i], first_flipped) {
        Some(sides) => sides,
        None => return Ok(None),
    };
    let second = match sides_of(&lits[j], second_flipped) {
        Some(sides) => sides,
        None => return Ok(None),
    };
    let pairs = pair_of(alloc, first.left, second.left)?;
    let scope = Scope {
        sorts: scope_of_clause(alloc, c)?,
        rigid: 0,
    };
    match unify(alloc, sig, &scope, pairs.as_slice())? {
        Some(subst) => {
            let last = unequal_of(alloc, first.right, second.right)?;
            let sorts = scope.sorts.as_slice();
            Ok(Some(conclude(alloc, sorts, &subst, lits, i, last.as_slice())?))
        }
        None => Ok(None),
    }
}

// The denied equation alone.
fn unequal_of(alloc: Global, left: &Term, right: &Term) -> Result<List<Lit>, Memory>
    ensures { IfOk result (λ last. last ≡ unequal left.now right.now ∷ []) }
{
    let mut last = List::new(alloc);
    last.push(Lit {
        positive: false,
        atom: AtomOf::Eq(left.copy(alloc)?, right.copy(alloc)?),
    })?;
    Ok(last)
}
