//! Resolution at two literals.
ghost use Rattle.std.specs.Prelude.{◌≡◌, ◌<◌, length, false, true, IfOk};
ghost use Rattle.clause_rules.specs.Steps.{scope_of_both};
ghost use Rattle.clause_order.specs.Eligible.{IsEligible};
ghost use Rattle.superpose.specs.Drafts.{IsClause};
ghost use Rattle.superpose.specs.Inferences.{ResolvesAt};
ghost use Rattle.superpose.specs.Made.{IsBestAt};
ghost use Rattle.superpose.specs.code.Resolvable.{AreResolvable, NotResolvable};

use crate::agreeing::may_all_meet;
use crate::concluding::conclude;
use crate::made::Made;
use crate::moving::lit_moved;
use crate::pairing::pairs_of_lits;
use crate::reversing::push_reversed;
use clause_form::{AtomOf, Clause, Lit};
use clause_rules::kept_apart;
use fof_terms::{Signature, SortId};
use std::alloc::Global;
use tptp_base::{List, Memory};
use unify_terms::{Scope, unify};

/// The most general resolvent at the positive literal i of the first clause and the negative literal j of the second
/// one. None exactly where no substitution resolves them.
pub fn resolve_at(
    alloc: Global,
    sig: &Signature,
    c: &Clause,
    d: &Clause,
    i: usize,
    j: usize,
) -> Result<Option<Made>, Memory>
    requires c { IsClause sig.now c.now }
    requires d { IsClause sig.now d.now }
    requires i { i < length c.now.lits }
    requires j { j < length d.now.lits }
    requires first { IsEligible c.now.lits i }
    requires second { IsEligible d.now.lits j }
    ensures { IfOk result (λ found. IsBestAt sig.now (scope_of_both c.now d.now) (ResolvesAt c.now d.now i j) found) }
{
    let lits = c.lits.as_slice();
    let first = &lits[i];
    let second = &d.lits.as_slice()[j];
    if !may_resolve(first, second) {
        return Ok(None);
    }
    let by = c.sorts.len() as u32;
    let moved = lit_moved(alloc, second, by)?;
    let pairs = match pairs_of_lits(alloc, first, &moved)? {
        Some(pairs) => pairs,
        None => return Ok(None),
    };
    let scope = scope_of_two(alloc, c, d)?;
    match unify(alloc, sig, &scope, pairs.as_slice())? {
        Some(subst) => {
            let mut apart = kept_apart(alloc, sig, d, by)?;
            let _gone = apart.remove(j);
            let sorts = scope.sorts.as_slice();
            Ok(Some(conclude(alloc, sorts, &subst, lits, i, apart.as_slice())?))
        }
        None => Ok(None),
    }
}

// Whether the first is a positive and the second a negative literal of one predicate, and their symbols agree.
fn may_resolve(first: &Lit, second: &Lit) -> bool
    ensures never { result ≡ false → NotResolvable first.now second.now }
    ensures may { result ≡ true → AreResolvable first.now second.now }
{
    if !first.positive || second.positive {
        return false;
    }
    match &first.atom {
        AtomOf::Pred(symbol, args) => match &second.atom {
            AtomOf::Pred(other, others) => {
                symbol == other && may_all_meet(args.as_slice(), others.as_slice())
            }
            AtomOf::Eq(_, _) | AtomOf::True | AtomOf::False => false,
        },
        AtomOf::Eq(_, _) | AtomOf::True | AtomOf::False => false,
    }
}

/// The scope of two clauses that are kept apart.
pub fn scope_of_two(alloc: Global, c: &Clause, d: &Clause) -> Result<Scope, Memory>
    ensures { IfOk result (λ scope. (scope.sorts ≡ scope_of_both c.now d.now) × (scope.rigid ≡ 0)) }
{
    let first = c.sorts.as_slice();
    let second = d.sorts.as_slice();
    let mut sorts = Vec::with_capacity(alloc, first.len() + second.len())?;
    push_reversed(first, &mut sorts)?;
    push_reversed(second, &mut sorts)?;
    Ok(Scope {
        sorts: List::from_vec(sorts),
        rigid: 0,
    })
}
