ghost use Rattle.std.specs.Prelude.{ℕ, ◌≡◌, ◌≢◌, ◌≤◌, ◌↔◌, length, get_or, slice_get, None, IsTrue, IfOk, IfSome};
ghost use Rattle.std.specs.Option.{option_map};
ghost use Rattle.fof_terms.specs.Sorts.{sort_of_term};
ghost use Rattle.fof_terms.specs.declared.term.Term.{Var};
ghost use Rattle.unify_terms.specs.code.Binding.{IsResolved, AreBound, Same, Equated};
ghost use Rattle.unify_terms.specs.code.Binding.{StandsIn, StandsInOne, StandsBelow};

use crate::classes::is_one_sort;
use crate::scope::Scope;
use fof_terms::{Signature, SortId, SymId, Term};
use std::alloc::Global;
use tptp_base::Memory;

/// How many steps are taken to find a variable in the term that it is to be bound to.
const LOOKS: u32 = 4_000;

/// How it ended to make terms equal by binding variables.
#[derive(Clone, Copy)]
pub enum Equating {
    /// They are equal wherever variables have the values of what they are bound to.
    Equal,
    /// They are equal nowhere.
    Clash,
    /// That takes too many steps, or binds a variable that may not be bound.
    Unknown,
}

/// So many variables, none of which is bound.
pub fn none_bound<'a>(alloc: Global, count: usize) -> Result<Vec<Option<&'a Term>>, Memory>
    ensures { IfOk result (λ bound. (length bound.items ≡ count) × ((k : ℕ) → get_or bound.items k None ≡ None)) }
{
    let mut bound = Vec::with_capacity(alloc, count)?;
    for _ in 0..count {
        bound.push(None)?;
    }
    Ok(bound)
}

/// What the variable is bound to.
pub fn bound_to<'a>(bound: &[Option<&'a Term>], variable: u32) -> Option<&'a Term>
    ensures { result ≡ get_or bound.now variable None }
{
    let at = variable as usize;
    if at < bound.len() { bound[at] } else { None }
}

// What the term is bound to, if it is a variable.
fn next<'a>(term: &Term, bound: &[Option<&'a Term>]) -> Option<&'a Term>
    ensures { IfSome result (λ next. IsResolved bound.now term.now next.now) }
{
    match term {
        Term::Var(variable) => bound_to(bound, *variable),
        Term::App(_, _) => None,
    }
}

/// The term, or what it is bound to if it is a variable, and so on.
pub fn resolved<'a>(term: &'a Term, bound: &[Option<&'a Term>]) -> &'a Term
    ensures { IsResolved bound.now term.now result.now }
{
    let mut last = term;
    for _ in 0..bound.len() {
        match next(last, bound) {
            Some(next) => last = next,
            None => return last,
        }
    }
    last
}

// The sort of the variable.
fn sort_of_variable(variable: u32, scope: &Scope) -> Option<SortId>
    ensures { result ≡ slice_get scope.now.sorts variable }
{
    scope.sorts.get(variable as usize).copied()
}

// The sort of what the function gives.
fn result_of(function: SymId, signature: &Signature) -> Option<SortId>
    ensures { result ≡ option_map (λ s. s.result) (slice_get signature.now.symbols function) }
{
    match signature.symbol(function) {
        Some(symbol) => Some(symbol.result),
        None => None,
    }
}

// Whether the variable is bound to nothing.
fn is_free(bound: &[Option<&Term>], variable: u32) -> bool
    ensures { IsTrue result ↔ (get_or bound.now variable None ≡ None) }
{
    match bound_to(bound, variable) {
        Some(_) => false,
        None => true,
    }
}

// The sort of the term, which has one.
fn sort_of_head(term: &Term, signature: &Signature, scope: &Scope) -> Option<SortId>
    requires { sort_of_term signature.now scope.now.sorts term.now ≢ None }
    ensures { result ≡ sort_of_term signature.now scope.now.sorts term.now }
{
    match term {
        Term::Var(variable) => sort_of_variable(*variable, scope),
        Term::App(function, _) => result_of(*function, signature),
    }
}

// Whether the variable stands in the term, or in what a variable in it is bound to, as far as so many steps tell.
#[cycle(stands_in)]
fn stands_in(term: &Term, variable: u32, bound: &[Option<&Term>], steps: &mut u32) -> bool
    ensures fewer { steps.new ≤ steps.old }
    ensures stands { IsTrue result → StandsIn bound.now variable term.now }
{
    if *steps == 0 {
        return false;
    }
    *steps -= 1;
    match term {
        Term::Var(other) => {
            if *other == variable {
                return true;
            }
            match bound_to(bound, *other) {
                Some(next) => stands_in(next, variable, bound, steps),
                None => false,
            }
        }
        Term::App(_, args) => stands_in_one(args.as_slice(), variable, bound, steps),
    }
}

// The same of one of the terms.
#[cycle(stands_in)]
fn stands_in_one(terms: &[Term], variable: u32, bound: &[Option<&Term>], steps: &mut u32) -> bool
    ensures fewer { steps.new ≤ steps.old }
    ensures stands { IsTrue result → StandsInOne bound.now variable terms.now }
{
    for term in terms {
        if stands_in(term, variable, bound, steps) {
            return true;
        }
    }
    false
}

// The same of an argument of the term: then no value of the variable is that of the term.
fn stands_below(variable: u32, term: &Term, bound: &[Option<&Term>]) -> bool
    ensures { IsTrue result → StandsBelow bound.now variable term.now }
{
    match term {
        Term::Var(_) => false,
        Term::App(_, args) => {
            let mut steps = LOOKS;
            stands_in_one(args.as_slice(), variable, bound, &mut steps)
        }
    }
}

/// Binds the variable to the term, where it may be replaced and both have one sort.
pub fn bind<'a>(
    variable: u32,
    term: &'a Term,
    signature: &Signature,
    scope: &Scope,
    bound: &mut Vec<Option<&'a Term>>,
) -> Equating
    requires term { sort_of_term signature.now scope.now.sorts term.now ≢ None }
    requires bound { AreBound signature.now scope.now.sorts scope.now.rigid bound.old.items }
    ensures { Equated signature.now scope.now.sorts scope.now.rigid bound.old.items bound.new.items
        (Same (Var variable) term.now) result }
{
    let at = variable as usize;
    if variable < scope.rigid || at >= bound.len() || !is_free(bound.as_slice(), variable) {
        return Equating::Unknown;
    }
    if stands_below(variable, term, bound.as_slice()) {
        return Equating::Clash;
    }
    let sort = sort_of_head(term, signature, scope);
    if !is_one_sort(sort, sort_of_variable(variable, scope)) {
        return Equating::Unknown;
    }
    bound[at] = Some(term);
    Equating::Equal
}
