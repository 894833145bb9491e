// Quantifiers and their variables.
ghost use Rattle.std.specs.Prelude.{◌≡◌, ◌+◌, ◌≤◌, length, take, drop, IfOk, OnOk};
ghost use Rattle.sort_check.specs.code.Outcomes.{Answers};
ghost use Rattle.sort_check.specs.Outcomes.{each};
ghost use Rattle.sort_check.specs.Denotation as spec;
ghost use Rattle.sort_check.specs.code.Denotation as spec_code;

use crate::fault::Stop;
use crate::room::with_room;
use crate::scope::{Lent, Scope, Variable};
use crate::symbols::named_sort;
use fof_terms::{Form, Signature, SortId};
use std::alloc::Global;
use tptp_base::{BoundVar, Boxed, List, Memory, Quant};

/// The variables of a quantifier, counted, with their sorts.
pub fn bound_variables<'a>(
    alloc: Global,
    signature: &Signature,
    scope: &mut Scope<'_>,
    variables: &'a [BoundVar],
) -> Result<List<Variable<'a>>, Stop>
    ensures value { Answers
        (each (λ place. spec.bound_variable) 0 variables.now (spec_code.state signature.now scope.old)) result
        (spec_code.state signature.now scope.new) }
    ensures scope { OnOk result (scope.new ≡ record scope.old { bound = scope.new.bound }) }
    ensures count { IfOk result (λ found. scope.new.bound ≡ scope.old.bound + length found) }
{
    let mut found = with_room(alloc, variables.len())?;
    for variable in variables {
        found.push(bound_variable(signature, scope, variable)?)?;
    }
    Ok(found)
}

// A bound variable: first the count, then its sort.
fn bound_variable<'a>(
    signature: &Signature,
    scope: &mut Scope<'_>,
    variable: &'a BoundVar,
) -> Result<Variable<'a>, Stop>
    ensures value { Answers (spec.bound_variable variable.now (spec_code.state signature.now scope.old)) result
        (spec_code.state signature.now scope.new) }
    ensures scope { OnOk result (scope.new ≡ record scope.old { bound = scope.old.bound + 1 }) }
{
    scope.count()?;
    let sort = variable_sort(signature, variable)?;
    let name = Lent::new(variable.name.as_slice());
    Ok(Variable { name, sort })
}

// The sort of a bound variable: an untyped one is an individual.
fn variable_sort(signature: &Signature, variable: &BoundVar) -> Result<SortId, Stop>
    ensures { Answers (spec.variable_sort variable.now.sort signature.now) result signature.now }
{
    match &variable.sort {
        Some(name) => named_sort(signature, name),
        None => Ok(0),
    }
}

/// The formula under quantifiers for the variables within the first so many, which go out of scope.
pub fn close_to(
    alloc: Global,
    quant: Quant,
    scope: &mut Scope<'_>,
    outer: usize,
    body: Form,
) -> Result<Form, Memory>
    requires { outer ≤ length scope.old.variables }
    ensures value { IfOk result (λ form. form ≡ spec.closed quant (drop outer scope.old.variables) body) }
    ensures scope { OnOk result (scope.new ≡ record scope.old { variables = take outer scope.old.variables }) }
{
    let mut form = body;
    'binders: while scope.len() > outer {
        if let Some(variable) = scope.close() {
            form = quantified(alloc, quant, variable.sort, form)?;
        }
    }
    Ok(form)
}

// A formula under a quantifier.
fn quantified(alloc: Global, quant: Quant, sort: SortId, body: Form) -> Result<Form, Memory>
    ensures { IfOk result (λ form. form ≡ spec.quantified quant sort body) }
{
    let body = Boxed::new(alloc, body)?;
    match quant {
        Quant::All => Ok(Form::All(sort, body)),
        Quant::Ex => Ok(Form::Ex(sort, body)),
    }
}
