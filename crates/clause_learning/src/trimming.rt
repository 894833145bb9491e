//! A refutation without the clauses that it does not need.
ghost use Rattle.std.specs.Prelude.{◌≡◌, true, map, length, IfOk, IfSome};
ghost use Rattle.clause_learning.specs.Literals.{complement};
ghost use Rattle.clause_learning.specs.Refutations.{IsLog, IsRefutation};
ghost use Rattle.clause_learning.specs.Valuations.{entry_of};
ghost use Rattle.clause_learning.specs.code.Trims.{GoesOn, IsNumber, IsRenumbered, KeepsOne};

use crate::clauses::{Clauses, Learned};
use crate::literal::Literal;
use sqlite_items::{Items as List, at};
use std::alloc::{AllocError, Global};

/// What is kept of a log, and for each clause of this its number among the kept ones, if it has one.
#[derive(Drop)]
pub struct Trimmed {
    pub log: List<Learned>,
    pub numbers: List<Option<u64>>,
}

/// The log without the clauses that its last one does not need. The others keep their order.
pub fn trim(alloc: Global, clauses: Clauses) -> Result<List<Learned>, AllocError>
    requires { IsRefutation complement clauses.inputs (map entry_of clauses.log) }
    ensures { IfOk result (λ log. IsRefutation complement clauses.inputs (map entry_of log)) }
{
    let Clauses { inputs, log } = clauses;
    let needed = needed_of(alloc, inputs.len(), log.as_slice())?;
    match kept(alloc, inputs.as_slice(), log.as_slice(), needed.as_slice())? {
        Some(fewer) => Ok(fewer),
        None => Ok(log),
    }
}

// Which clauses of the log the last one needs, behind that many given ones.
fn needed_of(alloc: Global, given: usize, log: &[Learned]) -> Result<List<bool>, AllocError> {
    let mut needed = List::new(alloc);
    for (place, _learned) in log.iter().enumerate() {
        needed.push(log.get(place.saturating_add(1)).is_none())?;
    }
    for (back, learned) in log.iter().rev().enumerate() {
        let place = log.len().saturating_sub(back).saturating_sub(1);
        if is_needed(needed.as_slice(), place) {
            need_all(given, learned.from.as_slice(), &mut needed);
        }
    }
    Ok(needed)
}

// Whether the clause at this place of the log is needed.
fn is_needed(needed: &[bool], place: usize) -> bool {
    match needed.get(place) {
        Some(is) => *is,
        None => false,
    }
}

// The clauses of these numbers are needed.
fn need_all(given: usize, from: &[u64], needed: &mut List<bool>) {
    for number in from {
        let place = (*number as usize).saturating_sub(given);
        if *number as usize >= given && place < needed.len() {
            needed.set(place, true);
        }
    }
}

// The clauses of the log that are needed, if they need no others and the last has no literal.
fn kept(
    alloc: Global,
    inputs: &[List<Literal>],
    log: &[Learned],
    needed: &[bool],
) -> Result<Option<List<Learned>>, AllocError>
    requires { IsLog complement inputs.now (map entry_of log.now) }
    ensures { IfOk result (λ fewer. IfSome fewer (λ log. IsRefutation complement inputs.now (map entry_of log))) }
{
    let mut trimmed = Trimmed {
        log: List::new(alloc),
        numbers: List::new(alloc),
    };
    for (place, learned) in log.iter().enumerate() {
        if !trimmed.next(alloc, inputs, learned, is_needed(needed, place))? {
            return Ok(None);
        }
    }
    let Trimmed { log, numbers: _ } = trimmed;
    ended(inputs, log)
}

impl Trimmed {
    // Keeps the next clause if it is needed. Whether it is not, or those that it is made from are kept.
    fn next(
        &mut self,
        alloc: Global,
        inputs: &[List<Literal>],
        learned: &Learned,
        is_needed: bool,
    ) -> Result<bool, AllocError>
        ensures { IfOk result (λ is. is ≡ true → GoesOn (length inputs.now) self.old learned.now self.new) }
    {
        if is_needed {
            return self.keep(alloc, inputs, learned);
        }
        self.numbers.push(None)?;
        Ok(true)
    }

    // Keeps the next clause. Whether those that it is made from are kept.
    fn keep(
        &mut self,
        alloc: Global,
        inputs: &[List<Literal>],
        learned: &Learned,
    ) -> Result<bool, AllocError>
        ensures { IfOk result (λ is. is ≡ true → KeepsOne (length inputs.now) self.old learned.now self.new) }
    {
        let numbers = self.numbers.as_slice();
        let Some(from) = renumber(alloc, inputs.len(), numbers, learned.from.as_slice())? else {
            return Ok(false);
        };
        let number = inputs.len() + self.log.as_slice().len();
        self.numbers.push(Some(number as u64))?;
        self.log.push(Learned {
            lits: List::from_slice(alloc, learned.lits.as_slice())?,
            from,
        })?;
        Ok(true)
    }
}

// The new numbers of the clauses of these, if they are given or kept.
fn renumber(
    alloc: Global,
    given: usize,
    numbers: &[Option<u64>],
    from: &[u64],
) -> Result<Option<List<u64>>, AllocError>
    ensures { IfOk result (λ renumbered. IfSome renumbered (IsRenumbered given numbers.now from.now)) }
{
    let mut renumbered = List::new(alloc);
    for number in from {
        let Some(next) = number_of(given, numbers, *number) else {
            return Ok(None);
        };
        renumbered.push(next)?;
    }
    Ok(Some(renumbered))
}

// The new number of the clause of this one, if it is given or kept.
fn number_of(given: usize, numbers: &[Option<u64>], number: u64) -> Option<u64>
    ensures { IfSome result (IsNumber given numbers.now number) }
{
    let old = number as usize;
    if old < given {
        return Some(number);
    }
    match at(numbers, old - given) {
        Some(next) => *next,
        None => None,
    }
}

// The log, if its last clause has no literal.
fn ended(inputs: &[List<Literal>], log: List<Learned>) -> Result<Option<List<Learned>>, AllocError>
    requires { IsLog complement inputs.now (map entry_of log) }
    ensures { IfOk result (λ fewer. IfSome fewer (λ log. IsRefutation complement inputs.now (map entry_of log))) }
{
    let mut log = log;
    let Some(last) = log.pop() else {
        return Ok(None);
    };
    if !last.lits.is_empty() {
        return Ok(None);
    }
    log.push(last)?;
    Ok(Some(log))
}
