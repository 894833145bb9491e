// Variables in the order that is told of some of them.
ghost use Rattle.std.specs.Prelude.{◌≡◌, ◌&&◌, not, filter, IfOk};
ghost use Rattle.std.specs.List.{list_all};
ghost use Rattle.fof_terms.specs.Standing.{is_listed};
ghost use Rattle.function_choices.specs.Order.{all_different, as_told as as_told_of, filled as filled_with, is_that as is_one, is_told as is_told_in, may_be_arguments as may_be, ordered as ordered_by};

use std::alloc::Global;
use tptp_base::{List, Memory};

// The variables as they are told, if so they may be arguments, and else as they stand.
pub(crate) fn ordered(
    alloc: Global,
    needed: &[u32],
    told: &[Option<u32>],
    variables: &[u32],
) -> Result<List<u32>, Memory>
    ensures { IfOk result (λ made. made ≡ ordered_by needed.now told.now variables.now) }
{
    let made = as_told(alloc, told, variables)?;
    if may_be_arguments(needed, made.as_slice()) {
        return Ok(made);
    }
    let same = List::from_slice(alloc, variables)?;
    Ok(same)
}

// These variables, each that is told in its place, and the others as they stand in the places that are left.
fn as_told(alloc: Global, told: &[Option<u32>], variables: &[u32]) -> Result<List<u32>, Memory>
    ensures { IfOk result (λ made. made ≡ as_told_of told.now variables.now) }
{
    let rest = not_told(alloc, told, variables)?;
    filled(alloc, told, rest.as_slice())
}

// Those of the variables that are told of no argument.
fn not_told(alloc: Global, told: &[Option<u32>], variables: &[u32]) -> Result<List<u32>, Memory>
    ensures { IfOk result (λ rest. rest ≡ filter (λ k. not (is_told_in told.now k)) variables.now) }
{
    let mut rest = List::new(alloc);
    for variable in variables {
        if !is_told(told, *variable) {
            rest.push(*variable)?;
        }
    }
    Ok(rest)
}

// Whether the variable is told of some argument.
fn is_told(told: &[Option<u32>], variable: u32) -> bool
    ensures { result ≡ is_told_in told.now variable }
{
    for one in told {
        if is_that(variable, *one) {
            return true;
        }
    }
    false
}

// Whether it is told, and that variable.
fn is_that(variable: u32, one: Option<u32>) -> bool
    ensures { result ≡ is_one variable one }
{
    match one {
        Some(other) => other == variable,
        None => false,
    }
}

// What is told of each argument, where nothing is told the next of the rest, and then what is left of the rest.
fn filled(alloc: Global, told: &[Option<u32>], rest: &[u32]) -> Result<List<u32>, Memory>
    ensures { IfOk result (λ made. made ≡ filled_with told.now rest.now) }
{
    let mut made = List::new(alloc);
    let mut used = 0;
    for one in told {
        if let Some(variable) = one {
            made.push(*variable)?;
        } else if used < rest.len() {
            made.push(rest[used])?;
            used += 1;
        }
    }
    let left = List::from_slice(alloc, &rest[used..])?;
    made.append(left)?;
    Ok(made)
}

// Whether the variables are different, and all that are needed are among them.
fn may_be_arguments(needed: &[u32], variables: &[u32]) -> bool
    ensures { result ≡ may_be needed.now variables.now }
{
    are_different(variables) && are_all_among(needed, variables)
}

fn are_different(variables: &[u32]) -> bool
    ensures { result ≡ all_different variables.now }
{
    for at in 0..variables.len() {
        if is_among(&variables[at + 1..], variables[at]) {
            return false;
        }
    }
    true
}

fn are_all_among(needed: &[u32], variables: &[u32]) -> bool
    ensures { result ≡ list_all (is_listed variables.now) needed.now }
{
    for variable in needed {
        if !is_among(variables, *variable) {
            return false;
        }
    }
    true
}

// Whether the number is one of these.
pub(crate) fn is_among(numbers: &[u32], number: u32) -> bool
    ensures { result ≡ is_listed numbers.now number }
{
    for other in numbers {
        if *other == number {
            return true;
        }
    }
    false
}
