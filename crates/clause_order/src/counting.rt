ghost use Rattle.std.specs.Prelude.{ℕ, ◌≡◌, ◌+◌, ◌↔◌, IsTrue, map, sum};
ghost use Rattle.clause_order.specs.Order.{HasVariablesOf, occurrences};
ghost use Rattle.clause_order.specs.Weights.{as_term, stopped};
ghost use Rattle.clause_order.specs.code.Next.{IsNext};

use clause_form::AtomOf;
use fof_terms::Term;

/// How often the variable occurs, up to the greatest value.
#[tactic(auto, using(crate::proofs::OccurrencesFacts::occurrences_equations))]
#[cycle(count)]
fn count(variable: u32, term: &Term) -> u64
    ensures { result ≡ stopped (occurrences variable term.now) }
{
    match term {
        Term::Var(other) => u64::from(*other == variable),
        Term::App(_, args) => count_all(variable, args.as_slice()),
    }
}

/// How often the variable occurs in the terms, up to the greatest value.
#[cycle(count)]
fn count_all(variable: u32, terms: &[Term]) -> u64
    ensures { result ≡ stopped (sum (map (occurrences variable) terms.now)) }
{
    let mut total: u64 = 0;
    for term in terms {
        total = total.saturating_add(count(variable, term));
    }
    total
}

/// How often the variable occurs in the atom, up to the greatest value.
#[tactic(auto, using(crate::proofs::OccurrencesFacts::occurrences_equations))]
fn count_in_atom(variable: u32, atom: &AtomOf) -> u64
    ensures { result ≡ stopped (occurrences variable (as_term atom.now)) }
{
    match atom {
        AtomOf::Pred(_, args) => count_all(variable, args.as_slice()),
        AtomOf::Eq(left, right) => count(variable, left).saturating_add(count(variable, right)),
        AtomOf::True | AtomOf::False => 0,
    }
}

/// The lesser of two variables, where there are any.
fn sooner(left: Option<u32>, right: Option<u32>) -> Option<u32>
    ensures { (c d : ℕ → ℕ) (from : ℕ) → IsNext c from left → IsNext d from right
        → IsNext (λ x. c x + d x) from result }
{
    match (left, right) {
        (Some(first), Some(second)) => Some(first.min(second)),
        (Some(only), None) | (None, Some(only)) => Some(only),
        (None, None) => None,
    }
}

/// The least variable of the term from this number on, if there is one.
#[cycle(next)]
fn next_variable(from: u64, term: &Term) -> Option<u32>
    ensures { IsNext (λ x. occurrences x term.now) from result }
{
    match term {
        Term::Var(variable) => {
            if u64::from(*variable) < from {
                return None;
            }
            Some(*variable)
        }
        Term::App(_, args) => next_in_all(from, args.as_slice()),
    }
}

/// The least variable of the terms from this number on, if there is one.
#[cycle(next)]
fn next_in_all(from: u64, terms: &[Term]) -> Option<u32>
    ensures { IsNext (λ x. sum (map (occurrences x) terms.now)) from result }
{
    let mut next = None;
    for term in terms {
        next = sooner(next, next_variable(from, term));
    }
    next
}

/// The least variable of the atom from this number on, if there is one.
fn next_in_atom(from: u64, atom: &AtomOf) -> Option<u32>
    ensures { IsNext (λ x. occurrences x (as_term atom.now)) from result }
{
    match atom {
        AtomOf::Pred(_, args) => next_in_all(from, args.as_slice()),
        AtomOf::Eq(left, right) => sooner(next_variable(from, left), next_variable(from, right)),
        AtomOf::True => None,
        AtomOf::False => None,
    }
}

/// Whether every variable occurs in the first term at least as often as in the second.
pub fn has_variables_of(more: &Term, fewer: &Term) -> bool
    ensures { IsTrue result ↔ HasVariablesOf more.now fewer.now }
{
    let mut from: u64 = 0;
    while let Some(variable) = next_variable(from, fewer) {
        if count(variable, more) < count(variable, fewer) {
            return false;
        }
        from = u64::from(variable) + 1;
    }
    true
}

/// Whether every variable occurs in the first atom at least as often as in the second.
pub fn atom_has_variables_of(more: &AtomOf, fewer: &AtomOf) -> bool
    ensures { IsTrue result ↔ HasVariablesOf (as_term more.now) (as_term fewer.now) }
{
    let mut from: u64 = 0;
    while let Some(variable) = next_in_atom(from, fewer) {
        if count_in_atom(variable, more) < count_in_atom(variable, fewer) {
            return false;
        }
        from = u64::from(variable) + 1;
    }
    true
}
