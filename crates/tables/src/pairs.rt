// Pairs and goals, read from formulas.
use fof_terms::Form;
use std::alloc::Global;
use std::slice;
use tptp_base::{Boxed, List};
use unify_terms::{Goal, Pair, Scope};

/// The formula inside the quantifiers, and their variables, the innermost first.
#[derive(Drop)]
pub struct Problem<'a> {
    pub scope: Scope,
    pub body: &'a Form,
}

/// The formula inside the quantifiers. The variables that `?` binds are rigid.
pub fn opened(alloc: Global, form: &Form) -> Option<Problem<'_>> {
    let mut scope = Scope {
        sorts: List::new(alloc),
        rigid: 0,
    };
    let body = inside(form, &mut scope)?;
    Some(Problem { scope, body })
}

fn inside<'a>(form: &'a Form, scope: &mut Scope) -> Option<&'a Form> {
    match form {
        Form::All(sort, body) => {
            let found = inside(body.get(), scope)?;
            scope.sorts.push(*sort).ok()?;
            Some(found)
        }
        Form::Ex(sort, body) => {
            let found = inside(body.get(), scope)?;
            scope.sorts.push(*sort).ok()?;
            scope.rigid = scope.rigid.saturating_add(1);
            Some(found)
        }
        _ => Some(form),
    }
}

/// The members of a conjunction, or the formula itself.
pub fn members_of(form: &Form) -> &[Form] {
    match form {
        Form::And(members) => members.as_slice(),
        _ => slice::from_ref(form),
    }
}

/// The sides of an equation, or of each equation of a conjunction.
pub fn pairs_of(alloc: Global, form: &Form) -> Option<List<Pair>> {
    let mut pairs = List::new(alloc);
    for member in members_of(form) {
        pairs.push(pair_of(alloc, member)?).ok()?;
    }
    Some(pairs)
}

fn pair_of(alloc: Global, form: &Form) -> Option<Pair> {
    match form {
        Form::Eq(left, right) => Some(Pair {
            left: left.copy(alloc).ok()?,
            right: right.copy(alloc).ok()?,
        }),
        _ => None,
    }
}

/// The goal of a call: of `solve` that of the formula, and else the equality of the sides of all equations.
pub fn goal_for(alloc: Global, call: &str, form: &Form) -> Option<Boxed<Goal>> {
    match call {
        "solve" => Boxed::new(alloc, goal_of(form, alloc)?).ok(),
        _ => Boxed::new(alloc, Goal::Same(pairs_of(alloc, form)?)).ok(),
    }
}

// The goal of a formula: all of a conjunction, one of a disjunction, the equality of an equation's sides.
#[cycle(goal_of)]
fn goal_of(form: &Form, alloc: Global) -> Option<Goal> {
    match form {
        Form::And(members) => Some(Goal::All(goals_of(members.as_slice(), alloc)?)),
        Form::Or(members) => Some(Goal::Any(goals_of(members.as_slice(), alloc)?)),
        _ => Some(Goal::Same(pairs_of(alloc, form)?)),
    }
}

#[cycle(goal_of)]
fn goals_of(forms: &[Form], alloc: Global) -> Option<List<Goal>> {
    let mut goals = List::new(alloc);
    for form in forms {
        goals.push(goal_of(form, alloc)?).ok()?;
    }
    Some(goals)
}
