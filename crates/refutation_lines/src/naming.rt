// Names of lines.
ghost use Rattle.std.specs.Prelude.{◌≡◌, IfOk, get_or, map, slice_get};
ghost use Rattle.refutation_lines.specs.Names.{clause_name, has_functions as has_functions_of, has_some as has_some_of};
ghost use Rattle.refutation_lines.specs.Names.{opened_name as name_of_opened};
ghost use Rattle.refutation_lines.specs.Places.{in_order};

use crate::placing::number_at;
use derivation_items::numbered;
use given_parts::Part;
use std::alloc::Global;
use step_clauses::Existential;
use tptp_base::{List, Memory, Text};

/// The name of the line of which the clauses of the part are.
pub(crate) fn opened_name(alloc: Global, parts: &[Part], number: usize) -> Result<Text, Memory>
    ensures { IfOk result (λ name. name ≡ name_of_opened parts.now number) }
{
    if has_functions(parts, number) {
        return Ok(numbered(alloc, b"s", number as u64)?);
    }
    Ok(numbered(alloc, b"f", number as u64)?)
}

// Whether the part has existential quantifiers.
fn has_functions(parts: &[Part], number: usize) -> bool
    ensures { result ≡ has_functions_of (slice_get parts.now number) }
{
    match parts.get(number) {
        Some(part) => has_some(part.existentials.as_slice()),
        None => false,
    }
}

/// Whether there is one.
pub(crate) fn has_some(existentials: &[Existential]) -> bool
    ensures { result ≡ has_some_of existentials.now }
{
    0 < existentials.len()
}

/// The names of the parents of what is inferred from two members, the earlier one first, and one alone.
pub(crate) fn parent_names(
    alloc: Global,
    places: &[usize],
    first: u32,
    second: u32,
) -> Result<List<Text>, Memory>
    ensures { IfOk result (λ names.
        names ≡ map clause_name (in_order (get_or places.now first 0) (get_or places.now second 0))) }
{
    let first = number_at(places, first as usize);
    let second = number_at(places, second as usize);
    let parents = ordered(alloc, first, second)?;
    Ok(clause_names(alloc, parents.as_slice())?)
}

// The two places, the earlier one first, or one alone.
#[tactic(auto, using(crate::proofs::PlaceFacts::orders))]
fn ordered(alloc: Global, first: usize, second: usize) -> Result<List<usize>, Memory>
    ensures { IfOk result (λ places. places ≡ in_order first second) }
{
    if first == second {
        return Ok(List::from_slice(alloc, &[first])?);
    }
    if first < second {
        return Ok(List::from_slice(alloc, &[first, second])?);
    }
    Ok(List::from_slice(alloc, &[second, first])?)
}

// The names of the clauses at these places.
fn clause_names(alloc: Global, places: &[usize]) -> Result<List<Text>, Memory>
    ensures { IfOk result (λ names. names ≡ map clause_name places.now) }
{
    let mut names = List::new(alloc);
    for place in places {
        names.push(numbered(alloc, b"c", *place as u64)?)?;
    }
    Ok(names)
}
