// The paths through a normal form without existential quantifiers.
ghost use Rattle.std.specs.Prelude.{◌≡◌, ◌<◌, ◌^◌, ◌++◌, ◌∷◌, [], IfOk, OnOk, length, map, sum};
ghost use Rattle.clause_form.specs.Sizes.{norm_size_of};
ghost use Rattle.clause_form.specs.declared.path.Path.{Leaf, Pick, Each, Under};
ghost use Rattle.step_clauses.specs.Ways.{AreAllPaths};
ghost use Rattle.step_clauses.specs.code.Chosen.{ways as ways_of, paths_in, picks};

use crate::choosing::{choose, copy_path, copy_paths};
use clause_form::Path;
use fof_terms::Form;
use std::alloc::Global;
use tptp_base::{Boxed, List, Memory};

/// The paths of the formula, in lexicographic order of their choices: each reaches the formula's clause at its place.
#[tactic(auto, using(crate::proofs::WaysFacts::paths_are_all))]
pub fn paths_of(alloc: Global, form: &Form) -> Result<List<Path>, Memory>
    requires { norm_size_of form.now < 2 ^ 32 }
    ensures { IfOk result (AreAllPaths form.now) }
{
    paths(alloc, form)
}

#[cycle(paths)]
#[tactic(auto, using(crate::proofs::ChosenFacts::ways_equations))]
fn paths(alloc: Global, form: &Form) -> Result<List<Path>, Memory>
    requires { norm_size_of form.now < 2 ^ 32 }
    ensures { IfOk result (λ made. made ≡ paths_in form.now) }
{
    match form {
        Form::Atom(_, _) | Form::Eq(_, _) => lone(alloc),
        Form::Not(body) => {
            if is_atomic(body.get()) {
                lone(alloc)
            } else {
                Ok(List::new(alloc))
            }
        }
        Form::And(members) => {
            let lists = paths_of_each(alloc, members.as_slice())?;
            all_picks(alloc, lists.as_slice())
        }
        Form::Or(members) => {
            let lists = paths_of_each(alloc, members.as_slice())?;
            let chosen = choose(alloc, lists.as_slice())?;
            each_of_all(alloc, chosen.as_slice())
        }
        Form::All(_, body) => {
            let inner = paths(alloc, body.get())?;
            under_all(alloc, inner.as_slice())
        }
        Form::Imp(_, _) | Form::Iff(_, _) | Form::Ex(_, _) => Ok(List::new(alloc)),
    }
}

// The paths of each of the formulas.
#[cycle(paths)]
#[tactic(auto, using(crate::proofs::ChosenFacts::ways_equations))]
fn paths_of_each(alloc: Global, forms: &[Form]) -> Result<List<List<Path>>, Memory>
    requires { sum (map norm_size_of forms.now) < 2 ^ 32 }
    ensures { IfOk result (λ lists. lists ≡ map paths_in forms.now) }
{
    let mut lists = List::new(alloc);
    for form in forms {
        lists.push(paths(alloc, form)?)?;
    }
    Ok(lists)
}

// Whether it is an atom or an equation.
#[tactic(auto, using(crate::proofs::ChosenFacts::ways_equations))]
fn is_atomic(form: &Form) -> bool
    ensures { result ≡ (ways_of form.now).atomic }
{
    match form {
        Form::Atom(_, _) | Form::Eq(_, _) => true,
        Form::Not(_) | Form::And(_) | Form::Or(_) | Form::Imp(_, _) | Form::Iff(_, _) => false,
        Form::All(_, _) | Form::Ex(_, _) => false,
    }
}

// The path of a literal.
fn lone(alloc: Global) -> Result<List<Path>, Memory>
    ensures { IfOk result (λ made. made ≡ Leaf ∷ []) }
{
    let mut made = List::new(alloc);
    made.push(Path::Leaf)?;
    Ok(made)
}

// The paths of a conjunction whose members have these.
fn all_picks(alloc: Global, lists: &[List<Path>]) -> Result<List<Path>, Memory>
    requires { length lists.now < 2 ^ 32 }
    ensures { IfOk result (λ made. made ≡ picks 0 lists.now) }
{
    let mut made = List::new(alloc);
    for number in 0..lists.len() {
        push_picks(alloc, number as u32, lists[number].as_slice(), &mut made)?;
    }
    Ok(made)
}

// Adds the paths by the member of that number.
fn push_picks(
    alloc: Global,
    number: u32,
    paths: &[Path],
    made: &mut List<Path>,
) -> Result<(), Memory>
    ensures { OnOk result (made.new ≡ made.old ++ map (Pick number) paths.now) }
{
    for path in paths {
        let rest = Boxed::new(alloc, copy_path(alloc, path)?)?;
        made.push(Path::Pick(number, rest))?;
    }
    Ok(())
}

// The paths of a disjunction by these choices.
fn each_of_all(alloc: Global, chosen: &[List<Path>]) -> Result<List<Path>, Memory>
    ensures { IfOk result (λ made. made ≡ map Each chosen.now) }
{
    let mut made = List::new(alloc);
    for choice in chosen {
        made.push(Path::Each(copy_paths(alloc, choice.as_slice())?))?;
    }
    Ok(made)
}

// The paths under a universal quantifier.
fn under_all(alloc: Global, paths: &[Path]) -> Result<List<Path>, Memory>
    ensures { IfOk result (λ made. made ≡ map Under paths.now) }
{
    let mut made = List::new(alloc);
    for path in paths {
        let rest = Boxed::new(alloc, copy_path(alloc, path)?)?;
        made.push(Path::Under(rest))?;
    }
    Ok(made)
}
