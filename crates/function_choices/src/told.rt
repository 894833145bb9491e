// What a match tells of a function's arguments.
ghost use Rattle.std.specs.Prelude.{◌≡◌, IfOk, map, slice_get, take};
ghost use Rattle.std.specs.Option.{option_flatten, option_or};
ghost use Rattle.function_choices.specs.Matched.{args_of};
ghost use Rattle.function_choices.specs.Told.{either as either_of, is_same_variable as same_variable, tells as tells_in, universal as universal_in};

use crate::matched::Matched;
use fof_terms::Term;
use std::alloc::Global;
use tptp_base::{List, Memory};

/// The most arguments of a function that are looked at, since no more universal quantifiers stand around it.
const MAX_ARGUMENTS: usize = 100;

// Which universal variable each argument is of the term that is matched with this variable, where the match tells it.
pub(crate) fn tells(
    alloc: Global,
    variable: u32,
    matched: &[Matched],
) -> Result<List<Option<u32>>, Memory>
    ensures { IfOk result (λ told. told ≡ tells_in variable matched.now) }
{
    for one in matched {
        if one.variable == variable {
            return arguments_told(alloc, variable, matched, &one.term);
        }
    }
    Ok(List::new(alloc))
}

// The same of the arguments of this term.
#[tactic(auto, using(crate::proofs::MatchedFacts::matched_equations))]
fn arguments_told(
    alloc: Global,
    variable: u32,
    matched: &[Matched],
    term: &Term,
) -> Result<List<Option<u32>>, Memory>
    ensures { IfOk result (λ told. told ≡ map (universal_in variable matched.now) (take 100 (args_of term.now))) }
{
    match term {
        Term::Var(_) => Ok(List::new(alloc)),
        Term::App(_, args) => {
            each_told(alloc, variable, matched, first_arguments(args.as_slice()))
        }
    }
}

// The first of the arguments.
fn first_arguments(args: &[Term]) -> &[Term]
    ensures { result.now ≡ take 100 args.now }
{
    if args.len() > MAX_ARGUMENTS {
        &args[..MAX_ARGUMENTS]
    } else {
        args
    }
}

fn each_told(
    alloc: Global,
    variable: u32,
    matched: &[Matched],
    args: &[Term],
) -> Result<List<Option<u32>>, Memory>
    ensures { IfOk result (λ told. told ≡ map (universal_in variable matched.now) args.now) }
{
    let mut told = List::new(alloc);
    for arg in args {
        told.push(universal(variable, matched, arg))?;
    }
    Ok(told)
}

// The first universal variable in the place of which the argument stands, which is a variable.
fn universal(variable: u32, matched: &[Matched], arg: &Term) -> Option<u32>
    ensures { result ≡ universal_in variable matched.now arg.now }
{
    for one in matched {
        if one.variable > variable && is_same_variable(&one.term, arg) {
            return Some(one.variable - variable - 1);
        }
    }
    None
}

// Whether both are the same variable.
#[tactic(auto, using(crate::proofs::MatchedFacts::matched_equations))]
fn is_same_variable(term: &Term, other: &Term) -> bool
    ensures { result ≡ same_variable term.now other.now }
{
    match (term, other) {
        (Term::Var(left), Term::Var(right)) => left == right,
        _ => false,
    }
}

// Of each argument what the first tells, and else the second.
pub(crate) fn either(
    alloc: Global,
    first: &[Option<u32>],
    second: &[Option<u32>],
) -> Result<List<Option<u32>>, Memory>
    ensures { IfOk result (λ made. made ≡ either_of first.now second.now) }
{
    let mut made = List::new(alloc);
    for place in 0..first.len().max(second.len()) {
        made.push(first_told(told_of(first, place), told_of(second, place)))?;
    }
    Ok(made)
}

// The first, if it is told, and else the second.
fn first_told(first: Option<u32>, second: Option<u32>) -> Option<u32>
    ensures { result ≡ option_or first second }
{
    match first {
        Some(_) => first,
        None => second,
    }
}

// What is told of the argument at that place.
fn told_of(told: &[Option<u32>], place: usize) -> Option<u32>
    ensures { result ≡ option_flatten (slice_get told.now place) }
{
    if place < told.len() {
        told[place]
    } else {
        None
    }
}
