//! The path that choices take through a normal form, and the clause that it reaches.
ghost use Rattle.std.specs.Prelude.{◌≡◌, ◌≤◌, ◌+◌, ◌^◌, ◌++◌, ◌∷◌, [], length, map, sum, IfOk};
ghost use Rattle.clause_form.specs.ClauseView.{view_of};
ghost use Rattle.clause_form.specs.Paths.{plain};
ghost use Rattle.clause_form.specs.Sizes.{norm_size_of};
ghost use Rattle.substitution_search.specs.CoverSearch.{near, down, opening, take_leaf as leaf_taken};
ghost use Rattle.substitution_search.specs.CoverSearch.{take_pick as pick_taken, take_each as each_taken};
ghost use Rattle.substitution_search.specs.code.Taken.{state_of};
ghost use Rattle.substitution_search.specs.Taken.{IsTaken};

use crate::naming::{lit_named, lits_named};
use crate::opening::plain_lit;
use clause_form::{Clause, Lit, Path};
use clause_rules::reversed;
use fof_terms::{Form, SortId};
use std::alloc::Global;
use tptp_base::{Boxed, List, Memory};

/// How far the taking of a path has come: the choices to come, the next one last, and the sorts and literals that were
/// reached.
#[derive(Drop)]
pub struct Taking {
    pub choices: List<usize>,
    pub sorts: List<SortId>,
    pub lits: List<Lit>,
}

/// A path, and the clause that it reaches.
#[derive(Drop)]
pub struct Reached {
    pub path: Path,
    pub clause: Clause,
}

/// The path that the choices take through the formula, and the clause that it reaches.
pub fn reached_by(alloc: Global, form: &Form, choices: &[usize]) -> Result<Reached, Memory>
    requires small { norm_size_of form.now ≤ 2 ^ 32 }
    ensures { IfOk result (λ made. IsTaken form.now choices.now made) }
{
    let mut taking = Taking {
        choices: reversed(alloc, choices)?,
        sorts: List::new(alloc),
        lits: List::new(alloc),
    };
    let mut names = List::new(alloc);
    let path = take(form, alloc, &mut names, &mut taking)?;
    let Taking {
        choices: _,
        sorts,
        lits,
    } = taking;
    let order = numbers_below(alloc, sorts.len())?;
    let lits = lits_named(alloc, lits.as_slice(), order.as_slice())?;
    Ok(Reached {
        path,
        clause: Clause { sorts, lits },
    })
}

// The numbers below this one, in order.
fn numbers_below(alloc: Global, count: usize) -> Result<List<u32>, Memory>
    requires few { count ≤ 2 ^ 32 }
    ensures { IfOk result (λ numbers. near numbers ≡ down 0 count) }
{
    let mut numbers = List::new(alloc);
    for i in 0..count {
        numbers.push(i as u32)?;
    }
    Ok(numbers)
}

// The path that the choices take through a formula whose free variables have these names.
#[tactic(auto, using(crate::proofs::CoverSearchFacts::opening_equations))]
#[cycle(take)]
fn take(
    form: &Form,
    alloc: Global,
    names: &mut List<u32>,
    taking: &mut Taking,
) -> Result<Path, Memory>
    requires small { length taking.old.sorts + norm_size_of form.now ≤ 2 ^ 32 }
    ensures { IfOk result (λ path. (path ≡ ((opening [] form.now).take (near names.old) (state_of taking.old)).path)
        × (state_of taking.new ≡ ((opening [] form.now).take (near names.old) (state_of taking.old)).rest)
        × (names.new ≡ names.old)) }
{
    match form {
        Form::And(members) => take_pick(members.as_slice(), alloc, names, taking),
        Form::Or(members) => {
            let paths = take_each(members.as_slice(), alloc, names, taking)?;
            Ok(Path::Each(paths))
        }
        Form::All(sort, body) => {
            names.push(taking.sorts.len() as u32)?;
            taking.sorts.push(*sort)?;
            let path = take(body.get(), alloc, names, taking)?;
            names.pop();
            Ok(Path::Under(Boxed::new(alloc, path)?))
        }
        Form::Atom(_, _)
        | Form::Eq(_, _)
        | Form::Not(_)
        | Form::Imp(_, _)
        | Form::Iff(_, _)
        | Form::Ex(_, _) => take_leaf(alloc, form, names.as_slice(), taking),
    }
}

// The path to the member that the next choice names.
#[cycle(take)]
fn take_pick(
    members: &[Form],
    alloc: Global,
    names: &mut List<u32>,
    taking: &mut Taking,
) -> Result<Path, Memory>
    requires small { length taking.old.sorts + sum (map norm_size_of members.now) ≤ 2 ^ 32 }
    ensures { IfOk result (λ path. (path
        ≡ (pick_taken (map (opening []) members.now) (near names.old) (state_of taking.old)
        (state_of taking.old).choices).path)
        × (state_of taking.new
        ≡ (pick_taken (map (opening []) members.now) (near names.old) (state_of taking.old)
        (state_of taking.old).choices).rest) × (names.new ≡ names.old)) }
{
    match taking.choices.pop() {
        Some(choice) => {
            if choice >= members.len() {
                return Ok(Path::Leaf);
            }
            let path = take(&members[choice], alloc, names, taking)?;
            Ok(Path::Pick(choice as u32, Boxed::new(alloc, path)?))
        }
        None => Ok(Path::Leaf),
    }
}

// The paths through all members.
#[cycle(take)]
fn take_each(
    members: &[Form],
    alloc: Global,
    names: &mut List<u32>,
    taking: &mut Taking,
) -> Result<List<Path>, Memory>
    requires small { length taking.old.sorts + sum (map norm_size_of members.now) ≤ 2 ^ 32 }
    ensures { IfOk result (λ paths. (paths
        ≡ (each_taken (map (opening []) members.now) (near names.old) (state_of taking.old)).paths)
        × (state_of taking.new
        ≡ (each_taken (map (opening []) members.now) (near names.old) (state_of taking.old)).rest)
        × (names.new ≡ names.old)) }
{
    let mut paths = List::new(alloc);
    for member in members {
        paths.push(take(member, alloc, names, taking)?)?;
    }
    Ok(paths)
}

// A literal is reached.
fn take_leaf(alloc: Global, form: &Form, names: &[u32], taking: &mut Taking) -> Result<Path, Memory>
    ensures { IfOk result (λ path. (path
        ≡ (leaf_taken (plain (view_of form.now).lit) (near names.now) (state_of taking.old)).path)
        × (state_of taking.new
        ≡ (leaf_taken (plain (view_of form.now).lit) (near names.now) (state_of taking.old)).rest)) }
{
    taking.choices.pop();
    if let Some(lit) = plain_lit(alloc, form)? {
        taking.lits.push(lit_named(alloc, &lit, names)?)?;
    }
    Ok(Path::Leaf)
}
