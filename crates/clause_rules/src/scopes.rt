//! Literals of several clauses over one list of variables: those of the line come first and stand for themselves.
ghost use Rattle.std.specs.Prelude.{◌≡◌, ◌++◌, ◌∷◌, [], reverse, IfOk};
ghost use Rattle.clause_form.specs.Covers.{scope_of};

use clause_form::{Clause, Lit, copy_lits};
use fof_terms::SortId;
use std::alloc::Global;
use tptp_base::{List, Memory};

/// The numbers, the last one first.
pub fn reversed<T: Copy>(alloc: Global, items: &[T]) -> Result<List<T>, Memory>
    ensures { IfOk result (λ list. list ≡ reverse items.now) }
{
    let mut list = List::new(alloc);
    let mut left = List::from_slice(alloc, items)?;
    while let Some(last) = left.pop() {
        list.push(last)?;
    }
    Ok(list)
}

/// The sorts of a clause's variables, that of variable 0 first.
pub fn scope_of_clause(alloc: Global, clause: &Clause) -> Result<List<SortId>, Memory>
    ensures { IfOk result (λ sorts. sorts ≡ scope_of clause.now) }
{
    reversed(alloc, clause.sorts.as_slice())
}

/// The literals and one more.
pub fn with_one(alloc: Global, lits: &[Lit], lit: &Lit) -> Result<List<Lit>, Memory>
    ensures { IfOk result (λ all. all ≡ lits.now ++ lit.now ∷ []) }
{
    let mut all = copy_lits(alloc, lits)?;
    all.push(lit.copy(alloc)?)?;
    Ok(all)
}
