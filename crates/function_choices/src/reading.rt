// What a line tells of the arguments of a function that stands for an existential variable.
ghost use Rattle.std.specs.Prelude.{◌≡◌, ◌++◌, IfOk, OnOk, find};
ghost use Rattle.function_choices.specs.Alike.{atoms_alike};
ghost use Rattle.function_choices.specs.Matched.{matches as matches_of};
ghost use Rattle.function_choices.specs.Reading.{atoms_matched, told as told_in, told_by as told_by_one};
ghost use Rattle.function_choices.specs.Told.{tells as tells_in};

use crate::alike::{alike_atom, alike_both};
use crate::atoms::Placed;
use crate::matched::{Matched, match_term, match_terms};
use crate::told::{either, tells};
use clause_form::AtomOf;
use fof_terms::{SymId, Term};
use std::alloc::Global;
use tptp_base::{List, Memory};

// What the line's atoms tell of each argument, by the first of the patterns by which it is told.
pub(crate) fn told(
    alloc: Global,
    function: SymId,
    patterns: &[Placed],
    atoms: &[Placed],
) -> Result<List<Option<u32>>, Memory>
    ensures { IfOk result (λ told. told ≡ told_in function patterns.now atoms.now) }
{
    let mut told = List::new(alloc);
    for pattern in patterns {
        let more = told_by(alloc, function, pattern, atoms)?;
        let next = either(alloc, told.as_slice(), more.as_slice())?;
        told = next;
    }
    Ok(told)
}

// What the first of the line's atoms tells that is alike to the pattern.
fn told_by(
    alloc: Global,
    function: SymId,
    pattern: &Placed,
    atoms: &[Placed],
) -> Result<List<Option<u32>>, Memory>
    ensures { IfOk result (λ told. told ≡ told_by_one function atoms.now pattern.now) }
{
    for placed in atoms {
        if alike_atom(&pattern.atom, function, pattern.depth, &placed.atom) {
            return told_at(alloc, function, pattern, placed);
        }
    }
    Ok(List::new(alloc))
}

// What this atom tells, which is alike.
fn told_at(
    alloc: Global,
    function: SymId,
    pattern: &Placed,
    placed: &Placed,
) -> Result<List<Option<u32>>, Memory>
    ensures { IfOk result (λ told. told ≡ tells_in pattern.now.depth
        (atoms_matched function pattern.now.depth pattern.now.atom placed.now.atom)) }
{
    let mut matched = List::new(alloc);
    let variable = pattern.depth;
    match_atoms(
        alloc,
        &pattern.atom,
        function,
        variable,
        &placed.atom,
        &mut matched,
    )?;
    tells(alloc, variable, matched.as_slice())
}

// Adds each variable of the pattern with the term in its place in the atom, which is alike.
fn match_atoms(
    alloc: Global,
    pattern: &AtomOf,
    function: SymId,
    variable: u32,
    atom: &AtomOf,
    matched: &mut List<Matched>,
) -> Result<(), Memory>
    ensures { OnOk result (matched.new ≡ matched.old ++ atoms_matched function variable pattern.now atom.now) }
{
    match (pattern, atom) {
        (AtomOf::Pred(_, patterns), AtomOf::Pred(_, terms)) => {
            match_terms(alloc, patterns.as_slice(), terms.as_slice(), matched)
        }
        (AtomOf::Eq(first, second), AtomOf::Eq(left, right)) => {
            if alike_both(first, second, function, variable, left, right) {
                match_both(alloc, first, second, left, right, matched)
            } else {
                match_both(alloc, first, second, right, left, matched)
            }
        }
        _ => Ok(()),
    }
}

// The same of two terms and their partners.
fn match_both(
    alloc: Global,
    first: &Term,
    second: &Term,
    left: &Term,
    right: &Term,
    matched: &mut List<Matched>,
) -> Result<(), Memory>
    ensures { OnOk result (matched.new ≡ matched.old ++ (matches_of first.now left.now ++ matches_of second.now right.now)) }
{
    match_term(alloc, first, left, matched)?;
    match_term(alloc, second, right, matched)
}
