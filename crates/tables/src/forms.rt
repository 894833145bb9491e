// What is made of a formula, and what is told of it.
use crate::shown::{logged, push_numbers};
use clause_form::{as_clause, clause_count, close, norm, norm_size, strip};
use fof_terms::{Form, Term, occurs, symbols_of, weight};
use std::alloc::Global;
use tptp_base::{List, Memory};

/// What a call makes of a formula, as logs have it, or tells of it:
///
/// - `norm`: its normal form
/// - `strip`: the formula without existential quantifiers
/// - `copy`: its copy
/// - `clause`: the clause that it is, closed again, or `none`
/// - `symbols`: the numbers of its symbols, from the left, each as often as it occurs
/// - `size`, `clauses`: the size of its normal form, and the number of its clauses
/// - `weight`: how many symbols and variables the right side has of an equation
pub fn found(alloc: Global, call: &str, form: &Form) -> Option<String> {
    match call {
        "norm" => logged(alloc, norm(alloc, form).ok()),
        "strip" => logged(alloc, strip(alloc, form).ok()),
        "copy" => logged(alloc, form.copy(alloc).ok()),
        "clause" => closed_again(alloc, form),
        "symbols" => symbols(alloc, form).ok(),
        _ => number(call, form)?.to_string(alloc).ok(),
    }
}

fn closed_again(alloc: Global, form: &Form) -> Option<String> {
    match as_clause(alloc, form).ok()? {
        Some(clause) => logged(alloc, close(alloc, &clause).ok()),
        None => String::from_str(alloc, "none").ok(),
    }
}

fn number(call: &str, form: &Form) -> Option<u128> {
    match call {
        "size" => Some(norm_size(form)),
        "clauses" => Some(clause_count(form)),
        "weight" => Some(u128::from(weight(sides_of(form)?.right))),
        _ => None,
    }
}

/// The sides of an equation.
#[derive(Clone, Copy)]
pub struct Sides<'a> {
    pub left: &'a Term,
    pub right: &'a Term,
}

/// The sides of the equation that stands inside quantifiers.
pub fn sides_of(form: &Form) -> Option<Sides<'_>> {
    match form {
        Form::Eq(left, right) => Some(Sides { left, right }),
        Form::All(_, body) | Form::Ex(_, body) => sides_of(body.get()),
        _ => None,
    }
}

// The symbols of a formula in turn, and behind them those of the numbers up to 9 that occur.
fn symbols(alloc: Global, form: &Form) -> Result<String, Memory> {
    let mut out = String::new(alloc);
    push_symbols(alloc, &mut out, form)?;
    push_occurring(&mut out, form)?;
    Ok(out)
}

fn push_symbols(alloc: Global, out: &mut String, form: &Form) -> Result<(), Memory> {
    let mut symbols = List::new(alloc);
    symbols_of(form, &mut symbols)?;
    Ok(push_numbers(out, symbols.as_slice())?)
}

fn push_occurring(out: &mut String, form: &Form) -> Result<(), Memory> {
    out.push_str("occur")?;
    for symbol in 0..10u32 {
        if occurs(symbol, form) {
            write!(out, " {symbol}")?;
        }
    }
    Ok(())
}
