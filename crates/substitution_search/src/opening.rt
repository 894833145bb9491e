//! The goal that a path through a normal form reaches a clause all of whose literals are covered.
ghost use Rattle.std.specs.Prelude.{◌≡◌, ◌≤◌, ◌+◌, ◌^◌, ◌++◌, ◌∷◌, [], length, map, IfOk};
ghost use Rattle.clause_form.specs.ClauseView.{view_of};
ghost use Rattle.clause_form.specs.Paths.{plain};
ghost use Rattle.substitution_search.specs.CoverSearch.{near, opening, goals_from, goal_of_lit, sorts_of_all};
ghost use Rattle.substitution_search.specs.CoverSearch.{opened_all};

use crate::naming::lit_named;
use crate::ways::covered;
use clause_form::{AtomOf, Lit, as_lit};
use fof_terms::{Form, SortId};
use std::alloc::Global;
use tptp_base::{List, Memory};
use unify_terms::Goal;

/// The goal of the formula, whose free variables have these names. The universal quantifiers that a path may go through
/// are numbered in order, and their sorts are added to the others.
#[tactic(auto, using(crate::proofs::CoverSearchFacts::opening_equations))]
#[cycle(open)]
pub fn open(
    form: &Form,
    alloc: Global,
    line: &[Lit],
    names: &mut List<u32>,
    sorts: &mut List<SortId>,
) -> Result<Goal, Memory>
    requires few { length sorts.old + length (opening line.now form.now).sorts ≤ 2 ^ 32 }
    ensures { IfOk result (λ goal. (goal ≡ (opening line.now form.now).goal (length sorts.old) (near names.old))
        × (sorts.new ≡ sorts.old ++ (opening line.now form.now).sorts) × (names.new ≡ names.old)) }
{
    match form {
        Form::And(members) => Ok(Goal::Any(open_all(
            members.as_slice(),
            alloc,
            line,
            names,
            sorts,
        )?)),
        Form::Or(members) => Ok(Goal::All(open_all(
            members.as_slice(),
            alloc,
            line,
            names,
            sorts,
        )?)),
        Form::All(sort, body) => {
            names.push(sorts.len() as u32)?;
            sorts.push(*sort)?;
            let goal = open(body.get(), alloc, line, names, sorts)?;
            names.pop();
            Ok(goal)
        }
        Form::Atom(_, _)
        | Form::Eq(_, _)
        | Form::Not(_)
        | Form::Imp(_, _)
        | Form::Iff(_, _)
        | Form::Ex(_, _) => open_leaf(alloc, form, line, names.as_slice()),
    }
}

// The goals of several formulas.
#[cycle(open)]
fn open_all(
    forms: &[Form],
    alloc: Global,
    line: &[Lit],
    names: &mut List<u32>,
    sorts: &mut List<SortId>,
) -> Result<List<Goal>, Memory>
    requires few { length sorts.old + length (sorts_of_all (map (opening line.now) forms.now)) ≤ 2 ^ 32 }
    ensures { IfOk result (λ goals. (goals
        ≡ goals_from (map (opening line.now) forms.now) (length sorts.old) (near names.old))
        × (sorts.new ≡ sorts.old ++ sorts_of_all (map (opening line.now) forms.now)) × (names.new ≡ names.old)) }
{
    let mut goals = List::new(alloc);
    for form in forms {
        goals.push(open(form, alloc, line, names, sorts)?)?;
    }
    Ok(goals)
}

// The goal that the literal that a formula is be covered; one that is never met where it is none, or truth or
// falsehood.
fn open_leaf(alloc: Global, form: &Form, line: &[Lit], names: &[u32]) -> Result<Goal, Memory>
    ensures { IfOk result (λ goal. goal ≡ goal_of_lit line.now (near names.now) (plain (view_of form.now).lit)) }
{
    match plain_lit(alloc, form)? {
        Some(lit) => covered(alloc, &lit_named(alloc, &lit, names)?, line),
        None => Ok(Goal::Any(List::new(alloc))),
    }
}

/// The literal that the formula is, other than truth and falsehood.
pub fn plain_lit(alloc: Global, form: &Form) -> Result<Option<Lit>, Memory>
    ensures { IfOk result (λ lit. lit ≡ plain (view_of form.now).lit) }
{
    match as_lit(alloc, form)? {
        Some(lit) => match &lit.atom {
            AtomOf::Pred(_, _) | AtomOf::Eq(_, _) => Ok(Some(lit)),
            AtomOf::True | AtomOf::False => Ok(None),
        },
        None => Ok(None),
    }
}
