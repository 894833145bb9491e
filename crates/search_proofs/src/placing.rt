//! Facts that are proved one by one, and the numbers of their formulas.
ghost use Rattle.std.specs.Prelude.{◌≡◌, ◌+◌, ◌++◌, ◌∷◌, ◌<◌, ◌^◌, [], length, reverse, IfOk};
ghost use Rattle.search_proofs.specs.Placed.{numbers_from, there};

use kernel::Proof;
use std::alloc::Global;
use tptp_base::{List, Memory};

/// Adds those proofs that are there, in order, the formula of the first of all being that of number `start`. Answers,
/// for each place, the number of the formula that stands next.
pub fn place_all(
    alloc: Global,
    start: u64,
    made: List<Option<Proof>>,
    proofs: &mut List<Proof>,
) -> Result<List<u64>, Memory>
    ensures numbers { IfOk result (λ numbers. numbers ≡ numbers_from (start + length proofs.old) made) }
    ensures proofs { IfOk result (λ _. proofs.new ≡ proofs.old ++ there made) }
{
    let mut left = reversed(alloc, made)?;
    let mut numbers = List::new(alloc);
    while let Some(next) = left.pop() {
        numbers.push(further(start, proofs.len())?)?;
        put(next, proofs)?;
    }
    Ok(numbers)
}

// Adds the proof, if there is one.
fn put(next: Option<Proof>, proofs: &mut List<Proof>) -> Result<(), Memory>
    ensures { IfOk result (λ _. proofs.new ≡ proofs.old ++ there (next ∷ [])) }
{
    if let Some(proof) = next {
        proofs.push(proof)?;
    }
    Ok(())
}

// The list, the last member first.
fn reversed(alloc: Global, made: List<Option<Proof>>) -> Result<List<Option<Proof>>, Memory>
    ensures { IfOk result (λ list. list ≡ reverse made) }
{
    let mut list = List::new(alloc);
    let mut left = made;
    while let Some(last) = left.pop() {
        list.push(last)?;
    }
    Ok(list)
}

/// The number that is so much greater. One that the type of numbers has not is answered by want of memory, since no
/// memory has so many formulas.
pub fn further(number: u64, by: usize) -> Result<u64, Memory>
    ensures sum { IfOk result (λ sum. sum ≡ number + by) }
    ensures fits { IfOk result (λ _. number + by < 2 ^ 64) }
{
    match number.checked_add(by as u64) {
        Some(sum) => Ok(sum),
        None => Err(Memory),
    }
}
