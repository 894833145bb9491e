ghost use Rattle.std.specs.Prelude.{◌≡◌, ◌↔◌, ◌+◌, ◌<◌, ◌≤◌, List, length, map, reverse, slice_get, IsTrue};
ghost use Rattle.std.specs.List.{list_all, All as Each};
ghost use Rattle.fof_terms.specs.Lift.{greatest};
ghost use Rattle.fof_terms.specs.Sorts.{is_sort, are_sorts, sort_of_term, is_sorted, binder_depth, IsScope, Sorted};
ghost use Rattle.fof_terms.specs.Scope.{scope_sorts};

use crate::form::{Form, SortId};
use crate::signature::{Kind, Signature};
use crate::term::Term;

/// The most variables outside of a formula.
pub const MAX_VARIABLES: usize = 2_147_483_647;

/// The most binders inside each other.
pub const MAX_BINDERS: u32 = 2_147_483_647;

/// The variables in reach: those outside of the formula, and those of the binders crossed.
#[derive(Clone, Copy)]
pub enum Scope<'a> {
    Outside(&'a [SortId]),
    Under(SortId, &'a Scope<'a>),
}

impl Scope<'_> {
    /// The sort of the variable that many binders away.
    #[tactic(auto, using(crate::proofs::ScopeFacts::scope_equations))]
    pub fn sort_at(&self, distance: u32) -> Option<SortId>
        ensures { result ≡ slice_get (scope_sorts self.now) distance }
    {
        match self {
            Scope::Outside(sorts) => from_end(sorts, distance),
            Scope::Under(sort, outer) => {
                if distance == 0 {
                    Some(*sort)
                } else {
                    outer.sort_at(distance - 1)
                }
            }
        }
    }
}

// The sort at that distance from the end.
fn from_end(sorts: &[SortId], distance: u32) -> Option<SortId>
    ensures { result ≡ slice_get (reverse sorts.now) distance }
{
    let distance = distance as usize;
    if distance < sorts.len() {
        Some(sorts[sorts.len() - 1 - distance])
    } else {
        None
    }
}

/// The sort of a term, if it is well-sorted.
#[tactic(auto, using(crate::proofs::SortsFacts::sort_equations))]
#[cycle(sort_of)]
pub fn sort_of(term: &Term, signature: &Signature, scope: &Scope<'_>) -> Option<SortId>
    ensures { result ≡ sort_of_term signature.now (scope_sorts scope.now) term.now }
{
    match term {
        Term::Var(distance) => scope.sort_at(*distance),
        Term::App(function, args) => match signature.symbol(*function) {
            Some(symbol) => match symbol.kind {
                Kind::Function => {
                    if have_sorts(args.as_slice(), symbol.args.as_slice(), signature, scope) {
                        Some(symbol.result)
                    } else {
                        None
                    }
                }
                Kind::Predicate => None,
            },
            None => None,
        },
    }
}

/// Whether the terms have these sorts.
#[tactic(auto, using(crate::proofs::SortsFacts::sort_equations))]
#[cycle(sort_of)]
pub fn have_sorts(
    terms: &[Term],
    sorts: &[SortId],
    signature: &Signature,
    scope: &Scope<'_>,
) -> bool
    ensures { result ≡ are_sorts (map (sort_of_term signature.now (scope_sorts scope.now)) terms.now) sorts.now }
{
    if terms.len() != sorts.len() {
        return false;
    }
    for i in 0..terms.len() {
        if !is_found(sort_of(&terms[i], signature, scope), sorts[i]) {
            return false;
        }
    }
    true
}

// Whether the answer is this sort.
fn is_found(found: Option<SortId>, sort: SortId) -> bool
    ensures { result ≡ is_sort found sort }
{
    match found {
        Some(other) => other == sort,
        None => false,
    }
}

/// Whether the symbols, the sorts and the variables of the formula fit.
#[tactic(auto, using(crate::proofs::SortsFacts::sort_equations))]
#[cycle(fits)]
fn fits(form: &Form, signature: &Signature, scope: &Scope<'_>) -> bool
    ensures { result ≡ is_sorted signature.now (scope_sorts scope.now) form.now }
{
    match form {
        Form::Atom(predicate, args) => match signature.symbol(*predicate) {
            Some(symbol) => match symbol.kind {
                Kind::Function => false,
                Kind::Predicate => have_sorts(
                    args.as_slice(),
                    symbol.args.as_slice(),
                    signature,
                    scope,
                ),
            },
            None => false,
        },
        Form::Eq(left, right) => match sort_of(right, signature, scope) {
            Some(sort) => is_found(sort_of(left, signature, scope), sort),
            None => false,
        },
        Form::Not(body) => fits(body.get(), signature, scope),
        Form::And(members) | Form::Or(members) => all_fit(members.as_slice(), signature, scope),
        Form::Imp(left, right) | Form::Iff(left, right) => {
            fits(left.get(), signature, scope) && fits(right.get(), signature, scope)
        }
        Form::All(sort, body) | Form::Ex(sort, body) => {
            *sort < signature.sort_count()
                && fits(body.get(), signature, &Scope::Under(*sort, &*scope))
        }
    }
}

#[tactic(auto, using(crate::proofs::SortsFacts::sort_equations))]
#[cycle(fits)]
fn all_fit(forms: &[Form], signature: &Signature, scope: &Scope<'_>) -> bool
    ensures { result ≡ list_all (is_sorted signature.now (scope_sorts scope.now)) forms.now }
{
    for form in forms {
        if !fits(form, signature, scope) {
            return false;
        }
    }
    true
}

/// Whether at most that many binders stand inside each other.
#[tactic(auto, using(crate::proofs::SortsFacts::binder_depth_equations))]
#[cycle(is_within)]
pub fn is_within(form: &Form, limit: u32) -> bool
    ensures { IsTrue result ↔ (binder_depth form.now ≤ limit) }
{
    match form {
        Form::Atom(_, _) | Form::Eq(_, _) => true,
        Form::Not(body) => is_within(body.get(), limit),
        Form::And(members) | Form::Or(members) => all_within(members.as_slice(), limit),
        Form::Imp(left, right) | Form::Iff(left, right) => {
            is_within(left.get(), limit) && is_within(right.get(), limit)
        }
        Form::All(_, body) | Form::Ex(_, body) => limit > 0 && is_within(body.get(), limit - 1),
    }
}

#[tactic(auto, using(crate::proofs::SortsFacts::binder_depth_equations))]
#[cycle(is_within)]
fn all_within(forms: &[Form], limit: u32) -> bool
    ensures { IsTrue result ↔ (greatest (map binder_depth forms.now) ≤ limit) }
{
    for form in forms {
        if !is_within(form, limit) {
            return false;
        }
    }
    true
}

/// Whether the formula is well-sorted over the variables of these sorts, the last of which is variable 0.
#[tactic(auto, using(crate::proofs::ScopeFacts::scope_equations, crate::proofs::Reversed::sorted_over, crate::proofs::Reversed::sorts_of_sorted, crate::proofs::Reversed::few_of_sorted))]
pub fn well_sorted(signature: &Signature, sorts: &[SortId], form: &Form) -> bool
    ensures { IsTrue result ↔ Sorted signature.now (reverse sorts.now) form.now }
{
    sorts.len() <= MAX_VARIABLES
        && is_within(form, MAX_BINDERS)
        && all_exist(sorts, signature)
        && fits(form, signature, &Scope::Outside(sorts))
}

/// The same over a scope, whose sorts are there and not too many.
pub fn well_sorted_in(form: &Form, signature: &Signature, scope: &Scope<'_>) -> bool
    requires { IsScope signature.now (scope_sorts scope.now) }
    ensures { IsTrue result ↔ Sorted signature.now (scope_sorts scope.now) form.now }
{
    is_within(form, MAX_BINDERS) && fits(form, signature, scope)
}

fn all_exist(sorts: &[SortId], signature: &Signature) -> bool
    ensures { IsTrue result ↔ Each (λ s. s < length signature.now.sorts) sorts.now }
{
    let count = signature.sort_count();
    sorts.iter().all(|sort| *sort < count)
}
