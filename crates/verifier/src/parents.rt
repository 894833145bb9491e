// The parents of a line, with their numbers in the theory.
ghost use Rattle.std.specs.Prelude.{◌≡◌, [], slice_get, IfOk};
ghost use Rattle.verifier.specs.Lines;
ghost use Rattle.verifier.specs.code.Numbered;
ghost use Rattle.clause_form.specs.Paths.{forms_of};

use clause_form::Parent;
use fof_terms::Form;
use proof_check::Theory;
use sqlite_items::at;
use std::alloc::Global;
use tptp_base::{List, Memory};
use tstp_graph::Ref;

/// The formulas of a theory with their numbers.
pub fn given_parents(alloc: Global, theory: &Theory) -> Result<List<Parent>, Memory>
    ensures { IfOk result (λ given. given ≡ Lines.given_from 0 theory.now.formulas) }
{
    let mut given = List::new(alloc);
    for number in 0..theory.len() {
        let Some(form) = theory.formula(number) else {
            unreachable!()
        };
        given.push(numbered(alloc, number, form)?)?;
    }
    Ok(given)
}

/// All the parents, if each of them is given or accepted.
pub fn parents_of(
    alloc: Global,
    given: &[Parent],
    forms: &[Form],
    numbers: &[Option<u64>],
    refs: &[Ref],
) -> Result<Option<List<Parent>>, Memory>
    ensures { IfOk result (λ parents. parents ≡ Lines.parents_of (forms_of given.now) forms.now numbers.now refs.now) }
{
    let mut parents = List::new(alloc);
    for parent in refs {
        match parent_of(alloc, given, forms, numbers, *parent)? {
            Some(parent) => parents.push(parent)?,
            None => return Ok(None),
        }
    }
    Ok(Some(parents))
}

// A parent with its number, if it is given or accepted.
fn parent_of(
    alloc: Global,
    given: &[Parent],
    forms: &[Form],
    numbers: &[Option<u64>],
    parent: Ref,
) -> Result<Option<Parent>, Memory>
    ensures { IfOk result (λ found. found ≡ Lines.parent_of (forms_of given.now) forms.now numbers.now parent) }
{
    match parent {
        Ref::Given(place) => given_parent(alloc, given, place),
        Ref::Line(place) => accepted_parent(alloc, forms, numbers, place),
    }
}

// The given formula of this number.
fn given_parent(alloc: Global, given: &[Parent], place: u32) -> Result<Option<Parent>, Memory>
    ensures { IfOk result (λ found. found ≡ Lines.parent_of (forms_of given.now) [] [] (Ref.Given place)) }
{
    match at(given, place as usize) {
        Some(parent) => Ok(Some(numbered(alloc, u64::from(place), &parent.form)?)),
        None => Ok(None),
    }
}

// The formula of the line at this place, if the line is accepted.
fn accepted_parent(
    alloc: Global,
    forms: &[Form],
    numbers: &[Option<u64>],
    place: u32,
) -> Result<Option<Parent>, Memory>
    ensures { IfOk result (λ found. found ≡ Lines.parent_of [] forms.now numbers.now (Ref.Line place)) }
{
    match number_at(numbers, place as usize) {
        Some(number) => match at(forms, place as usize) {
            Some(form) => Ok(Some(numbered(alloc, number, form)?)),
            None => Ok(None),
        },
        None => Ok(None),
    }
}

/// The number of the line at this place, if there is one.
pub fn number_at(numbers: &[Option<u64>], place: usize) -> Option<u64>
    ensures { result ≡ Numbered.joined (slice_get numbers.now place) }
{
    match at(numbers, place) {
        Some(number) => *number,
        None => None,
    }
}

// A copy of the formula, with its number.
fn numbered(alloc: Global, number: u64, form: &Form) -> Result<Parent, Memory>
    ensures { IfOk result (λ parent. parent ≡ Lines.numbered number form.now) }
{
    let form = form.copy(alloc)?;
    Ok(Parent { number, form })
}
