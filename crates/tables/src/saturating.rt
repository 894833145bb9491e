// Searches for the empty clause.
ghost use Rattle.std.specs.Prelude.{◌≤◌};
ghost use Rattle.std.specs.List.{All as Each};
ghost use Rattle.clause_order.specs.Weights.{clause_weight};
ghost use Rattle.superpose.specs.Drafts.{IsClause};

use crate::clauses::clauses_of;
use crate::pairs::members_of;
use clause_form::Clause;
use clause_index::BlindIndex;
use fof_terms::{Form, Signature};
use saturation::{Outcome, Superposition, are_searchable, search, search_by};
use std::alloc::Global;
use tptp_base::{Boxed, Memory};

/// The answer of a search under a limit over a clause, or over each clause of a conjunction:
///
/// - `search`: how it ends
/// - `members`: the same, and how many members there are then
/// - `blindly`: the same of a search over indexes that tell nothing
pub fn found(
    alloc: Global,
    signature: &Signature,
    call: &str,
    (limit, form): (u32, &Form),
) -> Option<String> {
    let inputs = clauses_of(alloc, members_of(form))?;
    ended(alloc, signature, call, limit, inputs.as_slice())
}

fn ended(
    alloc: Global,
    signature: &Signature,
    call: &str,
    limit: u32,
    inputs: &[Clause],
) -> Option<String> {
    if !are_searchable(signature, inputs) {
        return None;
    }
    let outcome = outcome(alloc, signature, call, limit, inputs).ok()?;
    end(alloc, outcome.get(), call != "search").ok()
}

fn outcome(
    alloc: Global,
    signature: &Signature,
    call: &str,
    limit: u32,
    inputs: &[Clause],
) -> Result<Boxed<Outcome>, Memory>
    requires clauses { Each (IsClause signature.now) inputs.now }
    requires light { Each (λ c. clause_weight c ≤ 100000000) inputs.now }
{
    match call {
        "blindly" => boxed(alloc, blindly(alloc, signature, inputs, limit)),
        _ => boxed(alloc, search(alloc, signature, inputs, limit)),
    }
}

// A box is dropped by a call, and an outcome variant by variant.
fn boxed(alloc: Global, outcome: Result<Outcome, Memory>) -> Result<Boxed<Outcome>, Memory> {
    Ok(Boxed::new(alloc, outcome?)?)
}

fn blindly(
    alloc: Global,
    signature: &Signature,
    inputs: &[Clause],
    limit: u32,
) -> Result<Outcome, Memory>
    requires clauses { Each (IsClause signature.now) inputs.now }
    requires light { Each (λ c. clause_weight c ≤ 100000000) inputs.now }
{
    let mut literals = BlindIndex::new();
    let mut terms = BlindIndex::new();
    search_by(
        alloc,
        &Superposition,
        signature,
        inputs,
        limit,
        &mut literals,
        &mut terms,
    )
}

// The word of the end and, if they are wanted, the number of members.
fn end(alloc: Global, outcome: &Outcome, numbered: bool) -> Result<String, Memory> {
    let (word, members) = match outcome {
        Outcome::Refuted(members, _) => ("refuted", members),
        Outcome::Dry(members) => ("dry", members),
        Outcome::Full(members) => ("full", members),
        Outcome::Heavy(members) => ("heavy", members),
    };
    if !numbered {
        return Ok(String::from_str(alloc, word)?);
    }
    Ok(format!(in alloc; "{word} {}", members.len())?)
}
