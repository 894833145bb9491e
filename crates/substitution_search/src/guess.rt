//! A guess at the literal of the line that each literal of a clause becomes. It promises nothing: a search tells
//! whether the line covers the clause so.
use clause_form::{AtomOf, Lit};
use fof_terms::{Term, equal_term};
use std::alloc::Global;
use tptp_base::{List, Memory};

/// What the variables from `rigid` on have become so far, and which of them became something, in order.
#[derive(Drop)]
pub struct Guess<'a> {
    rigid: u32,
    images: Vec<Option<&'a Term>>,
    order: List<usize>,
}

/// A guess in which no variable of so many has become anything.
pub fn no_guess<'a>(alloc: Global, variables: usize, rigid: u32) -> Result<Guess<'a>, Memory> {
    let mut images = Vec::new(alloc);
    for _ in 0..variables {
        images.push(None)?;
    }
    Ok(Guess {
        rigid,
        images,
        order: List::new(alloc),
    })
}

/// The number of the first of the targets that the literal may become, as the variables stand. They become what that
/// takes.
pub fn first_target<'a>(
    guess: &mut Guess<'a>,
    lit: &'a Lit,
    targets: &'a [Lit],
) -> Result<Option<usize>, Memory> {
    for at in 0..targets.len() {
        let target = &targets[at];
        if lit.positive == target.positive && becomes(guess, &lit.atom, &target.atom)? {
            return Ok(Some(at));
        }
    }
    Ok(None)
}

// Whether the atom becomes the other, up to the sides of an equation.
fn becomes<'a>(
    guess: &mut Guess<'a>,
    atom: &'a AtomOf,
    target: &'a AtomOf,
) -> Result<bool, Memory> {
    match (atom, target) {
        (AtomOf::Pred(symbol, args), AtomOf::Pred(other, others)) => {
            if symbol != other {
                return Ok(false);
            }
            all_become(guess, args.as_slice(), others.as_slice())
        }
        (AtomOf::Eq(left, right), AtomOf::Eq(first, second)) => {
            if both_become(guess, left, first, right, second)? {
                return Ok(true);
            }
            both_become(guess, right, first, left, second)
        }
        _ => Ok(false),
    }
}

// Whether the terms become the others; if not, the variables stand as before.
fn all_become<'a>(
    guess: &mut Guess<'a>,
    terms: &'a [Term],
    others: &'a [Term],
) -> Result<bool, Memory> {
    let before = guess.order.len();
    if match_terms(terms, others, guess)? {
        return Ok(true);
    }
    forget(guess, before);
    Ok(false)
}

// Whether both terms become the others; if not, the variables stand as before.
fn both_become<'a>(
    guess: &mut Guess<'a>,
    term: &'a Term,
    other: &'a Term,
    second: &'a Term,
    fourth: &'a Term,
) -> Result<bool, Memory> {
    let before = guess.order.len();
    if match_term(term, other, guess)? && match_term(second, fourth, guess)? {
        return Ok(true);
    }
    forget(guess, before);
    Ok(false)
}

// Lets the variables that came after so many have become nothing.
fn forget(guess: &mut Guess<'_>, count: usize) {
    for _ in count..guess.order.len() {
        if let Some(variable) = guess.order.pop() {
            if variable < guess.images.len() {
                guess.images[variable] = None;
            }
        }
    }
}

// Whether the term becomes the other.
#[cycle(match_term)]
fn match_term<'a>(term: &'a Term, other: &'a Term, guess: &mut Guess<'a>) -> Result<bool, Memory> {
    match term {
        Term::Var(variable) => let_become(guess, *variable, other),
        Term::App(function, args) => match other {
            Term::Var(_) => Ok(false),
            Term::App(symbol, others) => {
                if function != symbol {
                    return Ok(false);
                }
                match_terms(args.as_slice(), others.as_slice(), guess)
            }
        },
    }
}

// Whether the terms become the others at their places.
#[cycle(match_term)]
fn match_terms<'a>(
    terms: &'a [Term],
    others: &'a [Term],
    guess: &mut Guess<'a>,
) -> Result<bool, Memory> {
    if terms.len() != others.len() {
        return Ok(false);
    }
    for at in 0..terms.len() {
        if !match_term(&terms[at], &others[at], guess)? {
            return Ok(false);
        }
    }
    Ok(true)
}

// Whether the variable is the term, or has become it, or becomes it now.
fn let_become<'a>(guess: &mut Guess<'a>, variable: u32, term: &'a Term) -> Result<bool, Memory> {
    let at = variable as usize;
    if variable < guess.rigid || at >= guess.images.len() {
        return Ok(matches!(term, Term::Var(same) if *same == variable));
    }
    match guess.images[at] {
        Some(image) => Ok(equal_term(image, term)),
        None => {
            guess.images[at] = Some(term);
            guess.order.push(at)?;
            Ok(true)
        }
    }
}
