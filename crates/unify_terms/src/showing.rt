ghost use Rattle.std.specs.Prelude.{◌≤◌, ◌<◌, ◌^◌, length, IfOk, IfSome};
ghost use Rattle.fof_terms.specs.declared.term.Term.{Var};
ghost use Rattle.unify_terms.specs.code.Shown.{IsShown, AllShown, AreShown};

use crate::binding::bound_to;
use fof_terms::Term;
use std::alloc::Global;
use tptp_base::{List, Memory};

// The term with its variables replaced by what they are bound to, so many deep; None where they are bound deeper, as
// in a circle, and where that takes too many steps.
#[cycle(shown)]
fn shown(
    term: &Term,
    alloc: Global,
    bound: &[Option<&Term>],
    depth: usize,
    steps: &mut u32,
) -> Result<Option<Term>, Memory>
    ensures fewer { steps.new ≤ steps.old }
    ensures shown { IfOk result (λ answer. IfSome answer (IsShown bound.now depth term.now)) }
{
    if *steps == 0 {
        return Ok(None);
    }
    *steps -= 1;
    match term {
        Term::Var(variable) => match bound_to(bound, *variable) {
            Some(term) => {
                if depth == 0 {
                    return Ok(None);
                }
                shown(term, alloc, bound, depth - 1, steps)
            }
            None => Ok(Some(Term::Var(*variable))),
        },
        Term::App(function, args) => {
            match all_shown(args.as_slice(), alloc, bound, depth, steps)? {
                Some(args) => Ok(Some(Term::App(*function, args))),
                None => Ok(None),
            }
        }
    }
}

// The same of terms.
#[cycle(shown)]
fn all_shown(
    terms: &[Term],
    alloc: Global,
    bound: &[Option<&Term>],
    depth: usize,
    steps: &mut u32,
) -> Result<Option<List<Term>>, Memory>
    ensures fewer { steps.new ≤ steps.old }
    ensures shown { IfOk result (λ answer. IfSome answer (AllShown bound.now depth terms.now)) }
{
    let mut made = Vec::with_capacity(alloc, terms.len())?;
    for term in terms {
        match shown(term, alloc, bound, depth, steps)? {
            Some(image) => made.push(image)?,
            None => return Ok(None),
        }
    }
    Ok(Some(List::from_vec(made)))
}

// The image of a variable.
fn image_of(
    variable: usize,
    alloc: Global,
    bound: &[Option<&Term>],
    steps: &mut u32,
) -> Result<Option<Term>, Memory>
    requires few { length bound.now ≤ 2 ^ 32 }
    requires within { variable < length bound.now }
    ensures { IfOk result (λ answer. IfSome answer (IsShown bound.now (length bound.now) (Var variable))) }
{
    let name = variable as u32;
    match bound_to(bound, name) {
        Some(term) => shown(term, alloc, bound, bound.len() - 1, steps),
        None => Ok(Some(Term::Var(name))),
    }
}

/// The images of all variables, that of variable 0 first; None where they are bound in a circle, and where that takes
/// more than so many steps.
pub fn images_shown(
    alloc: Global,
    bound: &[Option<&Term>],
    steps: &mut u32,
) -> Result<Option<List<Term>>, Memory>
    requires { length bound.now ≤ 2 ^ 32 }
    ensures { IfOk result (λ answer. IfSome answer (AreShown bound.now (length bound.now))) }
{
    let mut images = Vec::with_capacity(alloc, bound.len())?;
    for variable in 0..bound.len() {
        match image_of(variable, alloc, bound, steps)? {
            Some(image) => images.push(image)?,
            None => return Ok(None),
        }
    }
    Ok(Some(List::from_vec(images)))
}
