// The calls of tables.
use crate::clauses::clause_of;
use crate::line::Line;
use crate::scene::Scene;
use crate::wanted::wanted;
use crate::{clauses, forms, kits, saturating, searches, steps, texts, unifiers};
use clause_form::Parent;
use fof_terms::{Form, Signature};
use std::alloc::Global;

/// The answer that is wanted of a call and the one that is found, as texts.
#[derive(Drop)]
pub struct Answer {
    pub wanted: String,
    pub found: String,
}

/// What is wanted of the line's call, and what is found. None where there is no such call, or it cannot be made of the
/// line's parts.
pub fn call(alloc: Global, line: &Line<'_>) -> Option<Answer> {
    match texts::found(alloc, line) {
        Some(found) => Some(Answer {
            wanted: line.wanted.to_string(alloc).ok()?,
            found,
        }),
        None => of_scene(alloc, line),
    }
}

fn of_scene(alloc: Global, line: &Line<'_>) -> Option<Answer> {
    let mut scene = Scene::of(alloc, line)?;
    let found = of_forms(alloc, line, &scene.signature, scene.forms.as_slice())?;
    Some(Answer {
        wanted: wanted(alloc, &mut scene, line)?,
        found,
    })
}

fn of_forms(
    alloc: Global,
    line: &Line<'_>,
    signature: &Signature,
    forms: &[Parent],
) -> Option<String> {
    match line.call {
        "step" => steps::found(alloc, signature, forms),
        "input" | "functions" => clauses::found(alloc, signature, line.call, forms),
        "room" => clauses::room(alloc, line.first.parse().ok()?, forms),
        "unify" | "agree" => unifiers::unified(alloc, signature, forms),
        "circle" => unifiers::in_circle(alloc, signature, forms),
        _ => of_form(alloc, line, signature, forms),
    }
}

fn of_form(
    alloc: Global,
    line: &Line<'_>,
    signature: &Signature,
    forms: &[Parent],
) -> Option<String> {
    match forms {
        [only] => of_one(alloc, line, signature, &only.form),
        [one, other] => of_two(alloc, line.call, signature, (&one.form, &other.form)),
        _ => None,
    }
}

fn of_one(alloc: Global, line: &Line<'_>, signature: &Signature, form: &Form) -> Option<String> {
    let call = line.call;
    match call {
        "solve" => unifiers::solved(alloc, signature, call, form),
        "forth" | "back" | "path" => kits::found(alloc, line, form),
        "order" | "sides" | "clash" => searches::of_sides(call, form)?.to_string(alloc).ok(),
        "literals" | "weighs" | "trivial" | "eligible" => of_clause(alloc, call, form),
        _ => match line.first.parse().ok() {
            Some(number) => of_number(alloc, call, signature, (number, form)),
            None => forms::found(alloc, call, form),
        },
    }
}

// The answer of a call on a number and a formula.
fn of_number(
    alloc: Global,
    call: &str,
    signature: &Signature,
    (number, form): (u32, &Form),
) -> Option<String> {
    match call {
        "search" | "members" | "blindly" => {
            saturating::found(alloc, signature, call, (number, form))
        }
        "atoms" | "choices" | "conjunction" => {
            clauses::of_copies(alloc, signature, call, (form, number))
        }
        _ => None,
    }
}

fn of_clause(alloc: Global, call: &str, form: &Form) -> Option<String> {
    let clause = clause_of(alloc, form)?;
    searches::of_clause(alloc, call, &clause)
}

fn of_two(
    alloc: Global,
    call: &str,
    signature: &Signature,
    (one, other): (&Form, &Form),
) -> Option<String> {
    let one = clause_of(alloc, one)?;
    let other = clause_of(alloc, other)?;
    searches::of_clauses(alloc, signature, call, (&one, &other))
}
