//! What clauses give.
ghost use Rattle.std.specs.Prelude.{◌<◌, length, IfOk};
ghost use Rattle.clause_learning.specs.Valuations.{HasAtoms};
ghost use Rattle.clause_learning.specs.code.Trails.{clauses_of, IsTrail};
ghost use Rattle.clause_learning.specs.code.States.{IsFoundAt, IsPropagated};

use crate::clauses::Clauses;
use crate::examining::{Finding, examine};
use crate::literal::Literal;
use crate::trail::Trail;
use crate::watches::Watches;
use std::alloc::AllocError;

/// Concludes what clauses give. Answers the number of a clause that is false, if one is found.
pub fn propagate(
    clauses: &Clauses,
    trail: &mut Trail,
    watches: &mut Watches,
) -> Result<Option<usize>, AllocError>
    requires within { HasAtoms (length trail.old.values) (clauses_of clauses.now) }
    requires trail { IsTrail (clauses_of clauses.now) trail.old }
    ensures { IfOk result (λ found. IsPropagated (clauses_of clauses.now) trail.old trail.new found) }
{
    if let Some(number) = prepare(clauses, trail, watches)? {
        return Ok(Some(number));
    }
    follow(clauses, trail, watches)
}

// Where no clause is watched yet, watches each and concludes what it gives by itself. Answers the number of a clause
// that is false, if one is found.
fn prepare(
    clauses: &Clauses,
    trail: &mut Trail,
    watches: &mut Watches,
) -> Result<Option<usize>, AllocError>
    requires within { HasAtoms (length trail.old.values) (clauses_of clauses.now) }
    requires trail { IsTrail (clauses_of clauses.now) trail.old }
    ensures { IfOk result (λ found. IsPropagated (clauses_of clauses.now) trail.old trail.new found) }
{
    if !watches.is_empty() {
        return Ok(None);
    }
    watch_all(clauses, trail, watches)?;
    sweep(clauses, trail)
}

// Watches each clause.
fn watch_all(clauses: &Clauses, trail: &Trail, watches: &mut Watches) -> Result<(), AllocError> {
    for clause in clauses.inputs.as_slice() {
        watches.give(clause.as_slice(), trail)?;
    }
    Ok(())
}

// Concludes what clauses give, from the literals of the trail that were not looked at. Answers the number of a clause
// that is false, if one is found.
fn follow(
    clauses: &Clauses,
    trail: &mut Trail,
    watches: &mut Watches,
) -> Result<Option<usize>, AllocError>
    requires within { HasAtoms (length trail.old.values) (clauses_of clauses.now) }
    requires trail { IsTrail (clauses_of clauses.now) trail.old }
    ensures { IfOk result (λ found. IsPropagated (clauses_of clauses.now) trail.old trail.new found) }
{
    let atoms = trail.values.len();
    for _at in 0..atoms {
        let Some(literal) = watches.next(trail) else {
            return Ok(None);
        };
        if let Some(number) = visit(clauses, trail, watches, literal.opposite())? {
            return Ok(Some(number));
        }
    }
    Ok(None)
}

// Concludes what the clauses give that are found by this literal, which is false.
fn visit(
    clauses: &Clauses,
    trail: &mut Trail,
    watches: &mut Watches,
    literal: Literal,
) -> Result<Option<usize>, AllocError>
    requires within { HasAtoms (length trail.old.values) (clauses_of clauses.now) }
    requires trail { IsTrail (clauses_of clauses.now) trail.old }
    ensures { IfOk result (λ found. IsPropagated (clauses_of clauses.now) trail.old trail.new found) }
{
    let mut found = None;
    let mut link = watches.take(literal);
    let many = clauses.len();
    for _at in 0..many {
        let Some(watch) = link else {
            return Ok(found);
        };
        link = watches.after(watch);
        if watches.must_examine(clauses, trail, watch) && found.is_none() {
            found = conclude(clauses, trail, watch.clause)?;
        }
    }
    Ok(found)
}

// Concludes what the clause of this number gives. Answers the number where the clause is false.
fn conclude(
    clauses: &Clauses,
    trail: &mut Trail,
    number: usize,
) -> Result<Option<usize>, AllocError>
    requires within { HasAtoms (length trail.old.values) (clauses_of clauses.now) }
    requires trail { IsTrail (clauses_of clauses.now) trail.old }
    ensures { IfOk result (λ found. IsPropagated (clauses_of clauses.now) trail.old trail.new found) }
{
    if number >= clauses.len() {
        return Ok(None);
    }
    match finding_of(clauses, number, trail) {
        Finding::Broken => Ok(Some(number)),
        Finding::Unit(literal) => {
            trail.push(literal, Some(number))?;
            Ok(None)
        }
        Finding::Loose => Ok(None),
    }
}

// Concludes what each clause gives by itself. Answers the number of a clause that is false, if one is found.
fn sweep(clauses: &Clauses, trail: &mut Trail) -> Result<Option<usize>, AllocError>
    requires within { HasAtoms (length trail.old.values) (clauses_of clauses.now) }
    requires trail { IsTrail (clauses_of clauses.now) trail.old }
    ensures { IfOk result (λ found. IsPropagated (clauses_of clauses.now) trail.old trail.new found) }
{
    let many = clauses.len();
    for number in 0..many {
        match finding_of(clauses, number, trail) {
            Finding::Broken => return Ok(Some(number)),
            Finding::Unit(literal) => trail.push(literal, Some(number))?,
            Finding::Loose => {}
        }
    }
    Ok(None)
}

// How the clause of this number stands.
fn finding_of(clauses: &Clauses, number: usize, trail: &Trail) -> Finding
    requires { number < length (clauses_of clauses.now) }
    ensures { IsFoundAt (clauses_of clauses.now) trail.now.values number result }
{
    match clauses.get(number) {
        Some(clause) => examine(clause.as_slice(), trail),
        None => unreachable!(),
    }
}
