// Which part a clause is of.
ghost use Rattle.std.specs.Prelude.{◌≡◌, ◌++◌, IfOk, OnOk, replicate};
ghost use Rattle.clause_form.specs.Sizes.{clause_count_of};
ghost use Rattle.given_parts.specs.Owners.{owners_from};

use crate::part::Part;
use clause_form::clause_count;
use fof_terms::Form;
use std::alloc::Global;
use tptp_base::{List, Memory};

/// For each clause of the parts, in order, the number of its part.
pub fn owners_of(alloc: Global, parts: &[Part]) -> Result<List<usize>, Memory>
    ensures { IfOk result (λ owners. owners ≡ owners_from 0 parts.now) }
{
    let mut owners = List::new(alloc);
    for number in 0..parts.len() {
        push_owner(number, &parts[number], &mut owners)?;
    }
    Ok(owners)
}

// Adds the number for each clause of the part.
fn push_owner(number: usize, part: &Part, owners: &mut List<usize>) -> Result<(), Memory>
    ensures { OnOk result (owners.new ≡ owners.old ++ replicate (clause_count_of part.now.norm) number) }
{
    let count = clauses_of(&part.norm)?;
    for _ in 0..count {
        owners.push(number)?;
    }
    Ok(())
}

// How many clauses the normal form has.
#[tactic(auto, using(crate::proofs::PartFacts::exact_count))]
fn clauses_of(norm: &Form) -> Result<usize, Memory>
    ensures { IfOk result (λ count. count ≡ clause_count_of norm.now) }
{
    match usize::try_from(clause_count(norm)) {
        Ok(count) => Ok(count),
        // No memory holds so many clauses.
        Err(_) => Err(Memory),
    }
}
