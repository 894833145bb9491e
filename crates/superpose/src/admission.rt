//! Whether inferences take a clause.
ghost use Rattle.std.specs.Prelude.{◌≡◌, ◌<◌, ◌↔◌, IsTrue, length, true};
ghost use Rattle.std.specs.List.{All as Each};
ghost use Rattle.clause_form.specs.Covers.{AreSorted, is_sorted_atom, scope_of};
ghost use Rattle.fof_terms.specs.Scope.{scope_sorts};
ghost use Rattle.superpose.specs.Drafts.{IsClause, SortsExist};

use clause_form::{AtomOf, Clause, Lit};
use fof_terms::{Kind, Scope, Signature, SortId, have_sorts, sort_of};

/// The greatest number of variables of a clause.
const MAX_VARIABLES: usize = 1_000_000_000;

/// Whether the clause is well-sorted over its sorts, and these exist and are few enough.
pub fn is_clause(signature: &Signature, clause: &Clause) -> bool
    ensures { IsTrue result ↔ IsClause signature.now clause.now }
{
    if clause.sorts.len() > MAX_VARIABLES || !do_exist(signature, clause.sorts.as_slice()) {
        return false;
    }
    let scope = Scope::Outside(clause.sorts.as_slice());
    are_sorted(signature, clause.lits.as_slice(), &scope)
}

// Whether the sorts are those of the signature.
fn do_exist(signature: &Signature, sorts: &[SortId]) -> bool
    ensures { IsTrue result ↔ SortsExist signature.now sorts.now }
{
    let count = signature.sort_count();
    sorts.iter().all(|sort| *sort < count)
}

// Whether the literals are well-sorted.
fn are_sorted(signature: &Signature, lits: &[Lit], scope: &Scope<'_>) -> bool
    ensures { IsTrue result ↔ Each (λ l. is_sorted_atom signature.now (scope_sorts scope.now) l.atom ≡ true) lits.now }
{
    lits.iter()
        .all(|lit| is_sorted(signature, &lit.atom, scope))
}

// Whether the atom is well-sorted.
fn is_sorted(signature: &Signature, atom: &AtomOf, scope: &Scope<'_>) -> bool
    ensures { result ≡ is_sorted_atom signature.now (scope_sorts scope.now) atom.now }
{
    match atom {
        AtomOf::Pred(number, args) => match signature.symbol(*number) {
            Some(symbol) => match symbol.kind {
                Kind::Predicate => {
                    have_sorts(args.as_slice(), symbol.args.as_slice(), signature, scope)
                }
                Kind::Function => false,
            },
            None => false,
        },
        AtomOf::Eq(left, right) => {
            let sort = sort_of(left, signature, scope);
            sort.is_some() && sort == sort_of(right, signature, scope)
        }
        AtomOf::True | AtomOf::False => true,
    }
}
