// Clauses of formulas and of steps.
ghost use Rattle.std.specs.Prelude.{length};
ghost use Rattle.clause_form.specs.Paths.{forms_of};
ghost use Rattle.clause_rules.specs.Steps.{IsReady, AreReady};
ghost use Rattle.step_clauses.specs.Room.{HasRoom};

use crate::scene::push_copy;
use crate::shown::{logged, or_none, push_bytes};
use clause_form::{Clause, FormFault, Parent, as_clause, close, norm};
use clause_rules::{are_ready, is_ready};
use fof_terms::{Form, Signature, SortId};
use std::alloc::{AllocError, Global};
use step_clauses::{Clausal, Skolem, has_room, search_input};
use tptp_base::{List, Memory};

/// The answer of a call on the step to the last formula from the others:
///
/// - `input`: the conjunction of its clauses, closed. Their new symbols are in turn those that are new in what is
/// wanted
/// - `functions`: its new functions, with the numbers of their arguments' sorts and of that of the result
/// - otherwise that it is not wide
///
/// or `wide`.
pub fn found(alloc: Global, signature: &Signature, call: &str, forms: &[Parent]) -> Option<String> {
    match input_of(alloc, signature, forms)? {
        Ok(made) => told(alloc, call, &made),
        Err(FormFault::Wide) => String::from_str(alloc, "wide").ok(),
        Err(FormFault::Memory) => None,
    }
}

fn told(alloc: Global, call: &str, made: &Clausal) -> Option<String> {
    match call {
        "input" => conjunction(alloc, made.clauses.as_slice()),
        "functions" => functions(alloc, made.skolems.as_slice()).ok(),
        _ => String::from_str(alloc, "not wide").ok(),
    }
}

// The clauses of the step to the last formula from the others. None where a formula is not closed and well-sorted, or
// there is no room.
fn input_of(
    alloc: Global,
    signature: &Signature,
    forms: &[Parent],
) -> Option<Result<Clausal, FormFault>> {
    let (line, parents) = forms.split_last()?;
    if !is_ready(signature, &line.form) || !are_ready(signature, parents) {
        return None;
    }
    let symbols = u64::from(signature.symbol_count());
    match has_room(alloc, symbols, parents, &line.form) {
        Ok(true) => Some(input(alloc, signature, parents, &line.form)),
        _ => None,
    }
}

fn input(
    alloc: Global,
    signature: &Signature,
    parents: &[Parent],
    line: &Form,
) -> Result<Clausal, FormFault>
    requires line { IsReady signature.now line.now }
    requires parents { AreReady signature.now parents.now }
    requires room { HasRoom (length signature.now.symbols) (forms_of parents.now) line.now }
{
    search_input(alloc, parents, line, signature.symbol_count())
}

// The closed clause, or the conjunction of the closed clauses.
fn conjunction(alloc: Global, clauses: &[Clause]) -> Option<String> {
    match clauses {
        [only] => logged(alloc, close(alloc, only).ok()),
        _ => logged(alloc, joined(alloc, clauses).ok()),
    }
}

// The conjunction of the closed clauses.
fn joined(alloc: Global, clauses: &[Clause]) -> Result<Form, Memory> {
    Ok(Form::And(closed(alloc, clauses)?))
}

fn closed(alloc: Global, clauses: &[Clause]) -> Result<List<Form>, Memory> {
    let mut closed = List::new(alloc);
    for clause in clauses {
        closed.push(close(alloc, clause)?)?;
    }
    Ok(closed)
}

// The functions with their sorts.
fn functions(alloc: Global, skolems: &[Skolem]) -> Result<String, AllocError> {
    let mut out = String::new(alloc);
    for skolem in skolems {
        push_function(&mut out, skolem)?;
    }
    or_none(out)
}

fn push_function(out: &mut String, skolem: &Skolem) -> Result<(), AllocError> {
    push_bytes(out, skolem.symbol.name.as_slice())?;
    push_sorts(out, skolem.symbol.args.as_slice())?;
    write!(out, ">{} ", skolem.symbol.result)
}

fn push_sorts(out: &mut String, sorts: &[SortId]) -> Result<(), AllocError> {
    for sort in sorts {
        write!(out, ":{sort}")?;
    }
    Ok(())
}

/// The answer of the call `room`: whether so many symbols leave room for the step to the last formula from the others.
pub fn room(alloc: Global, symbols: u64, forms: &[Parent]) -> Option<String> {
    let (line, parents) = forms.split_last()?;
    has_room(alloc, symbols, parents, &line.form)
        .ok()?
        .to_string(alloc)
        .ok()
}

/// The answer of a call on so many copies of a formula:
///
/// - `atoms`, `choices`: whether the step from their conjunction, or from their disjunction, to the formula is wide
/// - `conjunction`: whether the conjunction has a normal form
pub fn of_copies(
    alloc: Global,
    signature: &Signature,
    call: &str,
    (form, count): (&Form, u32),
) -> Option<String> {
    let forms = from_copies(alloc, call, (form, count)).ok()?;
    match call {
        "conjunction" => kind_of_norm(alloc, &forms.get(0)?.form),
        _ => found(alloc, signature, call, forms.as_slice()),
    }
}

// The step from so many copies of a formula, in a conjunction or a disjunction, to the formula.
fn from_copies(
    alloc: Global,
    call: &str,
    (form, count): (&Form, u32),
) -> Result<List<Parent>, Memory> {
    let mut forms = List::new(alloc);
    let members = copies(alloc, form, count)?;
    let joined = if call == "choices" {
        Form::Or(members)
    } else {
        Form::And(members)
    };
    forms.push(Parent {
        number: 0,
        form: joined,
    })?;
    push_copy(alloc, &mut forms, form)?;
    Ok(forms)
}

fn copies(alloc: Global, form: &Form, count: u32) -> Result<List<Form>, Memory> {
    let mut members = List::new(alloc);
    for _ in 0..count {
        members.push(form.copy(alloc)?)?;
    }
    Ok(members)
}

fn kind_of_norm(alloc: Global, form: &Form) -> Option<String> {
    match norm(alloc, form).err() {
        None => String::from_str(alloc, "a normal form").ok(),
        Some(FormFault::Wide) => String::from_str(alloc, "wide").ok(),
        Some(FormFault::Memory) => None,
    }
}

/// The clauses that formulas are. None where one is none.
pub fn clauses_of(alloc: Global, forms: &[Form]) -> Option<List<Clause>> {
    let mut clauses = List::new(alloc);
    for form in forms {
        clauses.push(clause_of(alloc, form)?).ok()?;
    }
    Some(clauses)
}

/// The clause that a formula is. None where it is none.
pub fn clause_of(alloc: Global, form: &Form) -> Option<Clause> {
    as_clause(alloc, form).ok()?
}
