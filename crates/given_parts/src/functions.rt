// The functions of a derivation.
ghost use Rattle.std.specs.Prelude.{◌≡◌, ◌+◌, ◌++◌, [], if◌then◌else◌, length, IfOk, OnOk};
ghost use Rattle.given_parts.specs.Functions.{function_of as named_function, functions_from, used_existentials};

use crate::part::Part;
use derivation_items::numbered;
use fof_terms::{Kind, Symbol};
use std::alloc::Global;
use step_clauses::Existential;
use tptp_base::{List, Memory};

/// A function in place of each existential quantifier of the parts that are used, in order. Its name is the prefix and
/// its place among them, from 1.
pub fn functions_of(
    alloc: Global,
    parts: &[Part],
    used: &[bool],
    prefix: &[u8],
) -> Result<List<Symbol>, Memory>
    requires { length used.now ≡ length parts.now }
    ensures { IfOk result (λ functions.
        functions ≡ functions_from prefix.now 1 (used_existentials used.now parts.now)) }
{
    let mut functions = List::new(alloc);
    for at in 0..parts.len() {
        push_if(alloc, used[at], &parts[at], prefix, &mut functions)?;
    }
    Ok(functions)
}

// Adds the functions of the part, if it is used.
fn push_if(
    alloc: Global,
    is_used: bool,
    part: &Part,
    prefix: &[u8],
    functions: &mut List<Symbol>,
) -> Result<(), Memory>
    ensures { OnOk result (functions.new ≡ functions.old
        ++ functions_from prefix.now (length functions.old + 1) (if is_used then part.now.existentials else [])) }
{
    if !is_used {
        return Ok(());
    }
    push_functions(alloc, part.existentials.as_slice(), prefix, functions)
}

// Adds a function for each of the existential quantifiers.
fn push_functions(
    alloc: Global,
    existentials: &[Existential],
    prefix: &[u8],
    functions: &mut List<Symbol>,
) -> Result<(), Memory>
    ensures { OnOk result (functions.new ≡ functions.old
        ++ functions_from prefix.now (length functions.old + 1) existentials.now) }
{
    for existential in existentials {
        let place = next_place(functions);
        functions.push(function_of(alloc, prefix, place, existential)?)?;
    }
    Ok(())
}

// The place behind these functions, from 1.
fn next_place(functions: &List<Symbol>) -> u64
    ensures { result ≡ length functions.now + 1 }
{
    functions.as_slice().len() as u64 + 1
}

// The function of that place.
fn function_of(
    alloc: Global,
    prefix: &[u8],
    place: u64,
    existential: &Existential,
) -> Result<Symbol, Memory>
    ensures { IfOk result (λ symbol. symbol ≡ named_function prefix.now place existential.now) }
{
    let name = numbered(alloc, prefix, place)?;
    let args = List::from_slice(alloc, existential.around.as_slice())?;
    Ok(Symbol {
        name,
        kind: Kind::Function,
        args,
        result: existential.sort,
    })
}
