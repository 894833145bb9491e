// Formulas over the arguments of a function.
ghost use Rattle.std.specs.Prelude.{◌≡◌, ◌+◌, ◌<◌, ◌≤◌, ◌^◌, IfOk, length, map};
ghost use Rattle.fof_terms.specs.Lift.{greatest};
ghost use Rattle.fof_terms.specs.Sorts.{binder_depth};
ghost use Rattle.skolem_fresh.specs.Renamed.{place_of as place_in, renamed_term, renamed};

use fof_terms::{Form, Term};
use std::alloc::Global;
use tptp_base::{Boxed, List, Memory};

// The number of the variable among the arguments, the last of which is variable 0.
pub(crate) fn place_of(variables: &[u32], variable: u32) -> u32
    requires { length variables.now < 2 ^ 32 }
    ensures value { result ≡ place_in variables.now variable }
    ensures within { result ≤ length variables.now }
{
    for i in 0..variables.len() {
        if variables[i] == variable {
            return (variables.len() - 1 - i) as u32;
        }
    }
    0
}

#[cycle(rename_term)]
#[tactic(auto, using(crate::proofs::RenamedFacts::renamed_equations))]
fn rename_term(alloc: Global, variables: &[u32], term: &Term, depth: u32) -> Result<Term, Memory>
    requires { depth + length variables.now < 2 ^ 32 }
    ensures { IfOk result (λ made. made ≡ renamed_term variables.now depth term.now) }
{
    match term {
        Term::Var(distance) if *distance < depth => Ok(Term::Var(*distance)),
        Term::Var(distance) => Ok(Term::Var(place_of(variables, *distance - depth) + depth)),
        Term::App(symbol, args) => Ok(Term::App(
            *symbol,
            rename_terms(alloc, variables, args.as_slice(), depth)?,
        )),
    }
}

#[cycle(rename_term)]
#[tactic(auto, using(crate::proofs::RenamedFacts::renamed_equations))]
fn rename_terms(
    alloc: Global,
    variables: &[u32],
    terms: &[Term],
    depth: u32,
) -> Result<List<Term>, Memory>
    requires { depth + length variables.now < 2 ^ 32 }
    ensures { IfOk result (λ made. made ≡ map (renamed_term variables.now depth) terms.now) }
{
    let mut made = List::new(alloc);
    for term in terms {
        made.push(rename_term(alloc, variables, term, depth)?)?;
    }
    Ok(made)
}

/// The formula, under so many quantifiers, over the arguments of a function in place of the variables that it is
/// applied to.
#[cycle(rename)]
#[tactic(auto, using(crate::proofs::RenamedFacts::renamed_equations))]
pub fn rename(alloc: Global, variables: &[u32], form: &Form, depth: u32) -> Result<Form, Memory>
    requires { depth + binder_depth form.now + length variables.now < 2 ^ 32 }
    ensures { IfOk result (λ made. made ≡ renamed variables.now depth form.now) }
{
    match form {
        Form::Atom(symbol, args) => Ok(Form::Atom(
            *symbol,
            rename_terms(alloc, variables, args.as_slice(), depth)?,
        )),
        Form::Eq(left, right) => Ok(Form::Eq(
            rename_term(alloc, variables, left, depth)?,
            rename_term(alloc, variables, right, depth)?,
        )),
        Form::Not(body) => Ok(Form::Not(rename_box(alloc, variables, body.get(), depth)?)),
        Form::And(members) => Ok(Form::And(rename_all(
            alloc,
            variables,
            members.as_slice(),
            depth,
        )?)),
        Form::Or(members) => Ok(Form::Or(rename_all(alloc, variables, members.as_slice(), depth)?)),
        Form::Imp(left, right) => Ok(Form::Imp(
            rename_box(alloc, variables, left.get(), depth)?,
            rename_box(alloc, variables, right.get(), depth)?,
        )),
        Form::Iff(left, right) => Ok(Form::Iff(
            rename_box(alloc, variables, left.get(), depth)?,
            rename_box(alloc, variables, right.get(), depth)?,
        )),
        Form::All(sort, body) => Ok(Form::All(
            *sort,
            rename_box(alloc, variables, body.get(), depth + 1)?,
        )),
        Form::Ex(sort, body) => Ok(Form::Ex(
            *sort,
            rename_box(alloc, variables, body.get(), depth + 1)?,
        )),
    }
}

#[cycle(rename)]
#[tactic(auto, using(crate::proofs::RenamedFacts::renamed_equations))]
fn rename_box(
    alloc: Global,
    variables: &[u32],
    form: &Form,
    depth: u32,
) -> Result<Boxed<Form>, Memory>
    requires { depth + binder_depth form.now + length variables.now < 2 ^ 32 }
    ensures { IfOk result (λ made. made ≡ renamed variables.now depth form.now) }
{
    Ok(Boxed::new(alloc, rename(alloc, variables, form, depth)?)?)
}

#[cycle(rename)]
#[tactic(auto, using(crate::proofs::RenamedFacts::renamed_equations))]
fn rename_all(
    alloc: Global,
    variables: &[u32],
    forms: &[Form],
    depth: u32,
) -> Result<List<Form>, Memory>
    requires { depth + greatest (map binder_depth forms.now) + length variables.now < 2 ^ 32 }
    ensures { IfOk result (λ made. made ≡ map (renamed variables.now depth) forms.now) }
{
    let mut made = List::new(alloc);
    for form in forms {
        made.push(rename(alloc, variables, form, depth)?)?;
    }
    Ok(made)
}
