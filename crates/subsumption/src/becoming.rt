//! Whether a literal becomes another, its sides exchanged or not.
ghost use Rattle.std.specs.Prelude.{◌≡◌, ◌↔◌, ℕ, IsTrue, IfOk, OnOk, Some, reverse, true};
ghost use Rattle.fof_terms.specs.Sorts.{one_sort, sort_of_term};
ghost use Rattle.clause_form.specs.Covers.{is_sorted_atom, scope_of};
ghost use Rattle.subsumption.specs.code.Bound.{IsOver};
ghost use Rattle.subsumption.specs.code.Matched.{Becomes, BothBecome, IsTable, IsTried};

use crate::bindings::Bindings;
use crate::matching::{match_term, match_terms};
use crate::task::Task;
use clause_form::{AtomOf, Lit};
use fof_terms::{Signature, SortId, Term};
use tptp_base::Memory;

/// Whether the literal, or that with its sides exchanged, becomes the other.
pub fn becomes<'a>(
    task: &Task<'a>,
    bindings: &mut Bindings<'a>,
    lit: &Lit,
    target: &'a Lit,
    exchanged: bool,
) -> Result<bool, Memory>
    requires table { IsTable task.now bindings.old }
    requires sorted { is_sorted_atom task.now.signature.now (scope_of task.now.member.now) lit.now.atom ≡ true }
    requires target { is_sorted_atom task.now.signature.now (scope_of task.now.clause.now) target.now.atom ≡ true }
    ensures over { OnOk result (IsOver bindings.old bindings.new) }
    ensures tried { IfOk result (λ answer.
        IsTried task.now bindings.old bindings.new (Becomes exchanged lit.now target.now) answer) }
{
    if lit.positive != target.positive {
        return Ok(false);
    }
    match &lit.atom {
        AtomOf::Pred(predicate, args) => match &target.atom {
            AtomOf::Pred(other, others) => {
                if predicate != other {
                    return Ok(false);
                }
                match_terms(bindings, args.as_slice(), others.as_slice())
            }
            _ => Ok(false),
        },
        AtomOf::Eq(left, right) => match &target.atom {
            AtomOf::Eq(first, second) => {
                if exchanged {
                    both_become(task, bindings, right, first, left, second)
                } else {
                    both_become(task, bindings, left, first, right, second)
                }
            }
            _ => Ok(false),
        },
        AtomOf::True => match &target.atom {
            AtomOf::True => Ok(true),
            _ => Ok(false),
        },
        AtomOf::False => match &target.atom {
            AtomOf::False => Ok(true),
            _ => Ok(false),
        },
    }
}

// Whether both terms, which have one sort, become the others, which have one too.
fn both_become<'a>(
    task: &Task<'a>,
    bindings: &mut Bindings<'a>,
    one: &Term,
    first: &'a Term,
    other: &Term,
    second: &'a Term,
) -> Result<bool, Memory>
    requires table { IsTable task.now bindings.old }
    requires sorted { one_sort (sort_of_term task.now.signature.now (scope_of task.now.member.now) one.now)
        (sort_of_term task.now.signature.now (scope_of task.now.member.now) other.now) ≡ true }
    requires targets { one_sort (sort_of_term task.now.signature.now (scope_of task.now.clause.now) first.now)
        (sort_of_term task.now.signature.now (scope_of task.now.clause.now) second.now) ≡ true }
    ensures over { OnOk result (IsOver bindings.old bindings.new) }
    ensures tried { IfOk result (λ answer. IsTried task.now bindings.old bindings.new
        (BothBecome one.now first.now other.now second.now) answer) }
{
    let sort = sort_by_head(task.signature, task.member.sorts.as_slice(), one);
    let wanted = sort_by_head(task.signature, task.clause.sorts.as_slice(), first);
    if !is_one_sort(sort, wanted) {
        return Ok(false);
    }
    if !match_term(bindings, one, first)? {
        return Ok(false);
    }
    match_term(bindings, other, second)
}

// The sort of a term that has one.
fn sort_by_head(signature: &Signature, sorts: &[SortId], term: &Term) -> Option<SortId>
    ensures { (r : ℕ) → sort_of_term signature.now (reverse sorts.now) term.now ≡ Some r → result ≡ Some r }
{
    match term {
        Term::Var(variable) => {
            let distance = *variable as usize;
            if distance < sorts.len() {
                Some(sorts[sorts.len() - 1 - distance])
            } else {
                None
            }
        }
        Term::App(function, _) => match signature.symbol(*function) {
            Some(symbol) => Some(symbol.result),
            None => None,
        },
    }
}

// Whether both sorts are there and are one.
fn is_one_sort(left: Option<SortId>, right: Option<SortId>) -> bool
    ensures { result ≡ one_sort left right }
{
    match right {
        Some(sort) => matches!(left, Some(other) if other == sort),
        None => false,
    }
}
