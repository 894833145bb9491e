//! New numbers for the variables of a scope: those that were noted keep numbers of their own, and each other one shares
//! that of a variable of its sort.
ghost use Rattle.std.specs.Prelude.{◌≡◌, ◌<◌, ◌≤◌, ◌^◌, length, slice_get, Some, IfOk, MatchOption};
ghost use Rattle.std.specs.List.{All as Each};
ghost use Rattle.superpose.specs.code.Named.{AreNamed, IsNameOf, HasSortAt, IsMissing, sorts_at};

use fof_terms::{SortId, Term};
use std::alloc::Global;
use tptp_base::{List, Memory};
use unify_terms::Subst;

/// For each variable of the scope the variable with its new number. The list says which variable each new number means;
/// one is added for each sort that none of the list has.
pub fn names_of(alloc: Global, scope: &[SortId], kept: &mut List<u32>) -> Result<Subst, Memory>
    requires few { length scope.now ≤ 2 ^ 32 }
    requires within { Each (λ k. k < length scope.now) kept.old }
    ensures { IfOk result (λ names. AreNamed scope.now kept.old kept.new (length scope.now) names) }
{
    let mut images = List::new(alloc);
    for at in 0..scope.len() {
        let name = name_of(scope, at, kept)?;
        images.push(Term::Var(name))?;
    }
    Ok(Subst { images })
}

// The new number of one variable.
fn name_of(scope: &[SortId], at: usize, kept: &mut List<u32>) -> Result<u32, Memory>
    requires few { length scope.now ≤ 2 ^ 32 }
    requires at { at < length scope.now }
    requires within { Each (λ k. k < length scope.now) kept.old }
    ensures { IfOk result (λ name. IsNameOf scope.now kept.old kept.new at name) }
{
    let variable = at as u32;
    if let Some(place) = place_of(kept.as_slice(), variable) {
        return number(place);
    }
    if let Some(place) = place_of_sort(scope, kept.as_slice(), scope[at]) {
        return number(place);
    }
    let place = number(kept.len())?;
    kept.push(variable)?;
    Ok(place)
}

/// Where the number first stands in the list.
pub fn place_of(list: &[u32], wanted: u32) -> Option<usize>
    ensures { MatchOption result (IsMissing list.now wanted) (λ place. slice_get list.now place ≡ Some wanted) }
{
    for at in 0..list.len() {
        if list[at] == wanted {
            return Some(at);
        }
    }
    None
}

// Where the first variable of this sort stands in the list.
fn place_of_sort(scope: &[SortId], kept: &[u32], sort: SortId) -> Option<usize>
    requires within { Each (λ k. k < length scope.now) kept.now }
    ensures { MatchOption result (Unit {0}) (λ place. HasSortAt scope.now kept.now sort place) }
{
    for at in 0..kept.len() {
        if scope[kept[at] as usize] == sort {
            return Some(at);
        }
    }
    None
}

/// The sorts of the variables of the list.
pub fn sorts_of(alloc: Global, scope: &[SortId], kept: &[u32]) -> Result<List<SortId>, Memory>
    requires within { Each (λ k. k < length scope.now) kept.now }
    ensures { IfOk result (λ sorts. sorts ≡ sorts_at scope.now kept.now) }
{
    let mut sorts = List::new(alloc);
    for at in 0..kept.len() {
        sorts.push(scope[kept[at] as usize])?;
    }
    Ok(sorts)
}

/// The place as a number of 32 bits. One that is too great for these is answered by want of memory.
pub fn number(place: usize) -> Result<u32, Memory>
    ensures { IfOk result (λ found. found ≡ place) }
{
    match u32::try_from(place) {
        Ok(found) => Ok(found),
        Err(_) => Err(Memory),
    }
}
