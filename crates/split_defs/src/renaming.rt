//! New numbers for the variables of a formula.
ghost use Rattle.std.specs.Prelude.{◌≡◌, ◌+◌, ◌<◌, ◌^◌, map, length, true, IfOk};
ghost use Rattle.std.specs.List.{list_all};
ghost use Rattle.fof_terms.specs.Lift.{greatest};
ghost use Rattle.fof_terms.specs.Sorts.{binder_depth};
ghost use Rattle.fof_terms.specs.declared.term.Term.{Var};
ghost use Rattle.split_defs.specs.code.Renaming.{renamed, renamed_term, speaks, speaks_in_term};

use fof_terms::{Form, Term};
use indexmap::IndexSet;
use std::alloc::Global;
use tptp_base::{Boxed, List, Memory};

// The new number of a variable that is one of these or is bound.
#[tactic(auto, using(crate::proofs::RenamingFacts::renamed_equations, crate::proofs::RenamingFacts::speaks_equations))]
fn new_number(names: &IndexSet<u32>, distance: u32, depth: u32) -> u32
    requires among { speaks_in_term names.now.keys depth (Var distance) ≡ true }
    requires room { length names.now.keys + depth < 2 ^ 32 }
    ensures { renamed_term names.now.keys depth (Var distance) ≡ Var result }
{
    if distance < depth {
        return distance;
    }
    match names.get_index_of(&(distance - depth)) {
        Some(place) => (names.len() - 1 - place) as u32 + depth,
        None => distance,
    }
}

/// The term over the arguments that these variables are, the last of which is number 0, so many binders within.
#[tactic(auto, using(crate::proofs::RenamingFacts::renamed_equations, crate::proofs::RenamingFacts::speaks_equations))]
#[cycle(rename_term)]
pub fn rename_term(
    alloc: Global,
    names: &IndexSet<u32>,
    term: &Term,
    depth: u32,
) -> Result<Term, Memory>
    requires among { speaks_in_term names.now.keys depth term.now ≡ true }
    requires room { length names.now.keys + depth < 2 ^ 32 }
    ensures { IfOk result (λ made. made ≡ renamed_term names.now.keys depth term.now) }
{
    match term {
        Term::Var(distance) => Ok(Term::Var(new_number(names, *distance, depth))),
        Term::App(symbol, args) => Ok(Term::App(
            *symbol,
            rename_terms(alloc, names, args.as_slice(), depth)?,
        )),
    }
}

#[tactic(auto, using(crate::proofs::RenamingFacts::renamed_equations, crate::proofs::RenamingFacts::speaks_equations))]
#[cycle(rename_term)]
fn rename_terms(
    alloc: Global,
    names: &IndexSet<u32>,
    terms: &[Term],
    depth: u32,
) -> Result<List<Term>, Memory>
    requires among { list_all (speaks_in_term names.now.keys depth) terms.now ≡ true }
    requires room { length names.now.keys + depth < 2 ^ 32 }
    ensures { IfOk result (λ made. made ≡ map (renamed_term names.now.keys depth) terms.now) }
{
    let mut made = List::new(alloc);
    for term in terms {
        made.push(rename_term(alloc, names, term, depth)?)?;
    }
    Ok(made)
}

/// The formula over the arguments that these variables are, the last of which is number 0, so many binders within.
#[tactic(auto, using(crate::proofs::RenamingFacts::renamed_equations, crate::proofs::RenamingFacts::speaks_equations))]
#[cycle(rename)]
pub fn rename(alloc: Global, names: &IndexSet<u32>, form: &Form, depth: u32) -> Result<Form, Memory>
    requires among { speaks names.now.keys depth form.now ≡ true }
    requires room { length names.now.keys + depth + binder_depth form.now < 2 ^ 32 }
    ensures { IfOk result (λ made. made ≡ renamed names.now.keys depth form.now) }
{
    match form {
        Form::Atom(symbol, args) => Ok(Form::Atom(
            *symbol,
            rename_terms(alloc, names, args.as_slice(), depth)?,
        )),
        Form::Eq(left, right) => Ok(Form::Eq(
            rename_term(alloc, names, left, depth)?,
            rename_term(alloc, names, right, depth)?,
        )),
        Form::Not(body) => Ok(Form::Not(rename_box(alloc, names, body.get(), depth)?)),
        Form::And(members) => Ok(Form::And(rename_all(alloc, names, members.as_slice(), depth)?)),
        Form::Or(members) => Ok(Form::Or(rename_all(alloc, names, members.as_slice(), depth)?)),
        Form::Imp(left, right) => Ok(Form::Imp(
            rename_box(alloc, names, left.get(), depth)?,
            rename_box(alloc, names, right.get(), depth)?,
        )),
        Form::Iff(left, right) => Ok(Form::Iff(
            rename_box(alloc, names, left.get(), depth)?,
            rename_box(alloc, names, right.get(), depth)?,
        )),
        Form::All(sort, body) => Ok(Form::All(
            *sort,
            rename_box(alloc, names, body.get(), depth + 1)?,
        )),
        Form::Ex(sort, body) => Ok(Form::Ex(
            *sort,
            rename_box(alloc, names, body.get(), depth + 1)?,
        )),
    }
}

#[tactic(auto, using(crate::proofs::RenamingFacts::renamed_equations))]
#[cycle(rename)]
fn rename_box(
    alloc: Global,
    names: &IndexSet<u32>,
    form: &Form,
    depth: u32,
) -> Result<Boxed<Form>, Memory>
    requires among { speaks names.now.keys depth form.now ≡ true }
    requires room { length names.now.keys + depth + binder_depth form.now < 2 ^ 32 }
    ensures { IfOk result (λ made. made ≡ renamed names.now.keys depth form.now) }
{
    Ok(Boxed::new(alloc, rename(alloc, names, form, depth)?)?)
}

#[tactic(auto, using(crate::proofs::RenamingFacts::renamed_equations))]
#[cycle(rename)]
fn rename_all(
    alloc: Global,
    names: &IndexSet<u32>,
    forms: &[Form],
    depth: u32,
) -> Result<List<Form>, Memory>
    requires among { list_all (speaks names.now.keys depth) forms.now ≡ true }
    requires room { length names.now.keys + depth + greatest (map binder_depth forms.now) < 2 ^ 32 }
    ensures { IfOk result (λ made. made ≡ map (renamed names.now.keys depth) forms.now) }
{
    let mut made = List::new(alloc);
    for form in forms {
        made.push(rename(alloc, names, form, depth)?)?;
    }
    Ok(made)
}
