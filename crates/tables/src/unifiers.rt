// Unifiers, and solutions of goals.
use crate::pairs::{Problem, goal_for, opened, pairs_of};
use clause_form::Parent;
use fof_terms::{Form, Signature, Term, equal_term};
use std::alloc::{AllocError, Global};
use tptp_base::Memory;
use unify_terms::{
    Goal, Pair, Scope, Solution, Subst, apply, are_sorted, is_sorted_goal, solve, unify,
};

/// The answer of a call on a formula that is quantified outside and has equations inside. Its variables that `!` binds
/// may be replaced; those that `?` binds, further inside, stand for themselves. Where all equations have a unifier, it
/// is
///
/// - of `unify` the kind of each variable's image, the innermost first
/// - of `agree` whether the unifier makes the sides of another formula's equations equal
///
/// and else `none`.
pub fn unified(alloc: Global, signature: &Signature, forms: &[Parent]) -> Option<String> {
    let (first, others) = forms.split_first()?;
    let problem = opened(alloc, &first.form)?;
    match unifier(alloc, signature, &problem)? {
        Some(subst) => told(alloc, &subst, others),
        None => String::from_str(alloc, "none").ok(),
    }
}

fn unifier(alloc: Global, signature: &Signature, problem: &Problem<'_>) -> Option<Option<Subst>> {
    let pairs = pairs_of(alloc, problem.body)?;
    unifier_of(alloc, signature, &problem.scope, pairs.as_slice())
}

fn unifier_of(
    alloc: Global,
    signature: &Signature,
    scope: &Scope,
    pairs: &[Pair],
) -> Option<Option<Subst>> {
    if scope.sorts.len() > 1000 {
        return None;
    }
    match are_sorted(alloc, signature, scope, pairs) {
        Ok(true) => unify(alloc, signature, scope, pairs).ok(),
        _ => None,
    }
}

fn told(alloc: Global, subst: &Subst, others: &[Parent]) -> Option<String> {
    match others.first() {
        Some(other) => agreed(alloc, subst, &other.form),
        None => kinds(alloc, subst.images.as_slice()).ok(),
    }
}

// The kind of each image.
fn kinds(alloc: Global, images: &[Term]) -> Result<String, AllocError> {
    let mut out = String::new(alloc);
    for image in images {
        out.push_str(kind(image))?;
    }
    out.pop();
    Ok(out)
}

fn kind(term: &Term) -> &'static str {
    match term {
        Term::Var(_) => "variable ",
        Term::App(_, _) => "term ",
    }
}

// Whether the unifier makes the sides of all equations equal.
fn agreed(alloc: Global, subst: &Subst, form: &Form) -> Option<String> {
    let problem = opened(alloc, form)?;
    let pairs = pairs_of(alloc, problem.body)?;
    do_agree(alloc, subst, pairs.as_slice())
        .ok()?
        .to_string(alloc)
        .ok()
}

fn do_agree(alloc: Global, subst: &Subst, pairs: &[Pair]) -> Result<bool, Memory> {
    let mut is_same = true;
    for pair in pairs {
        is_same = agree(alloc, subst, pair)? && is_same;
    }
    Ok(is_same)
}

fn agree(alloc: Global, subst: &Subst, pair: &Pair) -> Result<bool, Memory> {
    let left = apply(alloc, subst, &pair.left)?;
    let right = apply(alloc, subst, &pair.right)?;
    Ok(equal_term(&left, &right))
}

/// The answer of the call `circle`: those of `unify` and of `solve` for all equations at once.
pub fn in_circle(alloc: Global, signature: &Signature, forms: &[Parent]) -> Option<String> {
    let mut out = unified(alloc, signature, forms)?;
    let solved = solved(alloc, signature, "circle", &forms.first()?.form)?;
    write!(out, " {solved}").ok()?;
    Some(out)
}

/// The answer of the call `solve`: the choices under which the goal of a formula is met.
pub fn solved(alloc: Global, signature: &Signature, call: &str, form: &Form) -> Option<String> {
    let problem = opened(alloc, form)?;
    let goal = goal_for(alloc, call, problem.body)?;
    solved_in(alloc, signature, &problem.scope, goal.get())
}

fn solved_in(alloc: Global, signature: &Signature, scope: &Scope, goal: &Goal) -> Option<String> {
    if scope.sorts.len() > 1000 {
        return None;
    }
    match is_sorted_goal(alloc, signature, scope, goal) {
        Ok(true) => choices(alloc, solve(alloc, signature, scope, goal)),
        _ => None,
    }
}

fn choices(alloc: Global, answer: Result<Option<Solution>, Memory>) -> Option<String> {
    match answer.ok()? {
        Some(solution) => met(alloc, solution.choices.as_slice()).ok(),
        None => String::from_str(alloc, "no").ok(),
    }
}

fn met(alloc: Global, choices: &[usize]) -> Result<String, AllocError> {
    let mut out = String::from_str(alloc, "met")?;
    for choice in choices {
        write!(out, " {choice}")?;
    }
    Ok(out)
}

/// A text by which variable k is g(variable k + 1, variable k + 1) for each k below `count`, and the last one is
/// f(variable 0). The function f is number 0, and g is number 1.
pub fn circle(alloc: Global, count: u32) -> Result<String, AllocError> {
    let mut text = String::from_str(alloc, "log ! 0 ")?;
    for _ in 0..count {
        text.push_str("! 0 ")?;
    }
    push_equations(&mut text, count)?;
    Ok(text)
}

fn push_equations(text: &mut String, count: u32) -> Result<(), AllocError> {
    write!(text, "& {} = v {count} f 0 1 v 0", count.saturating_add(1))?;
    for variable in 0..count {
        let next = variable.saturating_add(1);
        write!(text, " = v {variable} f 1 2 v {next} v {next}")?;
    }
    Ok(())
}
