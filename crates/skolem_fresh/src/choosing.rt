// Whether functions may choose for a formula.
ghost use Rattle.std.specs.Prelude.{◌≡◌, ◌↔◌, ◌<◌, ◌^◌, IsTrue, IfOk, nat_eq};
ghost use Rattle.std.specs.List.{AllByRecursion as Each, IsDistinct};
ghost use Rattle.fof_terms.specs.Sorts.{binder_depth};
ghost use Rattle.skolem_fresh.specs.code.Choosing.{IsFree, MayChooseIfFit};
ghost use Rattle.skolem_fresh.specs.Uses.{functions_of as functions_in};

use crate::just::Use;
use crate::only::{is_among, only_has};
use fof_terms::{Form, SymId, occurs};
use proof_check::Theory;
use std::alloc::Global;
use tptp_base::{List, Memory};

// Whether no number is in the list twice.
pub(crate) fn are_distinct(numbers: &[u32]) -> bool
    ensures { IsTrue result ↔ IsDistinct nat_eq numbers.now }
{
    for i in 0..numbers.len() {
        if is_among(&numbers[..i], numbers[i]) {
            return false;
        }
    }
    true
}

// Whether the lists are equal.
fn are_same(left: &[u32], right: &[u32]) -> bool
    ensures { IsTrue result ↔ (left.now ≡ right.now) }
{
    if left.len() != right.len() {
        return false;
    }
    for i in 0..left.len() {
        if left[i] != right[i] {
            return false;
        }
    }
    true
}

// Whether the function has these variables and is new to the theory and to the formula.
fn is_free(theory: &Theory, form: &Form, variables: &[u32], function: &Use) -> bool
    ensures { IsTrue result ↔ IsFree theory.now form.now variables.now function.now }
{
    if !are_same(function.variables.as_slice(), variables) {
        return false;
    }
    if theory.uses(function.function) {
        return false;
    }
    !occurs(function.function, form)
}

// The same of each of the functions.
fn are_free(theory: &Theory, form: &Form, variables: &[u32], uses: &[Use]) -> bool
    ensures { IsTrue result ↔ Each (IsFree theory.now form.now variables.now) uses.now }
{
    for function in uses {
        if !is_free(theory, form, variables, function) {
            return false;
        }
    }
    true
}

// The numbers of the functions.
pub(crate) fn functions_of(alloc: Global, uses: &[Use]) -> Result<List<SymId>, Memory>
    ensures { IfOk result (λ functions. functions ≡ functions_in uses.now) }
{
    let mut functions = List::new(alloc);
    for function in uses {
        functions.push(function.function)?;
    }
    Ok(functions)
}

// Whether functions that fit may choose for the formula.
pub(crate) fn may_choose(
    alloc: Global,
    theory: &Theory,
    form: &Form,
    uses: &[Use],
) -> Result<bool, Memory>
    requires { binder_depth form.now < 2 ^ 32 }
    ensures { IfOk result (λ answer. IsTrue answer ↔ MayChooseIfFit theory.now form.now uses.now) }
{
    let functions = functions_of(alloc, uses)?;
    if !are_distinct(functions.as_slice()) {
        return Ok(false);
    }
    if uses.is_empty() {
        return Ok(true);
    }
    let variables = uses[0].variables.as_slice();
    if !are_free(theory, form, variables, uses) {
        return Ok(false);
    }
    if !are_distinct(variables) {
        return Ok(false);
    }
    Ok(only_has(variables, form, 0))
}
