// Room for the new symbols of a step.
ghost use Rattle.std.specs.Prelude.{◌≡◌, ◌^◌, ◌-◌, ◌↔◌, IfOk, IsTrue, map, min, sum};
ghost use Rattle.clause_form.specs.Norm.{signed};
ghost use Rattle.clause_form.specs.Paths.{forms_of};
ghost use Rattle.step_clauses.specs.Existentials.{ex_count};
ghost use Rattle.step_clauses.specs.Inputs.{step_forms};
ghost use Rattle.step_clauses.specs.Room.{HasRoom, wanted as wanted_by};
ghost use Rattle.step_clauses.specs.code.Counts.{small_size};

use crate::existentials::existentials_of;
use clause_form::{MAX_NORM_SIZE, Parent, norm_signed, norm_size};
use fof_terms::{Form, MAX_SYMBOLS};
use std::alloc::Global;
use tptp_base::Memory;

/// Whether a signature of so many symbols has room for one more for each existential quantifier in the normal forms of
/// the parents and of the negation of the line. Normal forms are made only where the sum of the norm sizes leaves it
/// open.
pub fn has_room(
    alloc: Global,
    symbols: u64,
    parents: &[Parent],
    line: &Form,
) -> Result<bool, Memory>
    ensures { IfOk result (λ room. IsTrue room ↔ HasRoom symbols (forms_of parents.now) line.now) }
{
    let most = MAX_SYMBOLS as u64;
    if symbols.saturating_add(sizes(parents, line)) <= most {
        return Ok(true);
    }
    Ok(symbols.saturating_add(wanted_of_all(alloc, parents, line)?) <= most)
}

// The norm sizes of the formulas that have a normal form, up to the greatest value.
fn sizes(parents: &[Parent], line: &Form) -> u64
    ensures { result ≡ min (sum (map small_size (step_forms (forms_of parents.now) line.now))) (2 ^ 64 - 1) }
{
    sizes_of_parents(parents).saturating_add(size(line))
}

// The same of the parents.
fn sizes_of_parents(parents: &[Parent]) -> u64
    ensures { result ≡ min (sum (map (λ p. small_size p.form) parents.now)) (2 ^ 64 - 1) }
{
    let mut total: u64 = 0;
    for parent in parents {
        total = total.saturating_add(size(&parent.form));
    }
    total
}

// The formula's norm size, or 0 where it has no normal form.
fn size(form: &Form) -> u64
    ensures { result ≡ small_size form.now }
{
    let size = norm_size(form);
    if size > MAX_NORM_SIZE {
        return 0;
    }
    size as u64
}

// How many symbols all the formulas may bring in, up to the greatest value.
fn wanted_of_all(alloc: Global, parents: &[Parent], line: &Form) -> Result<u64, Memory>
    ensures { IfOk result (λ total.
        total ≡ min (sum (map wanted_by (step_forms (forms_of parents.now) line.now))) (2 ^ 64 - 1)) }
{
    let total = wanted_of_parents(alloc, parents)?;
    Ok(total.saturating_add(wanted(alloc, line, false)?))
}

// The same of the parents.
fn wanted_of_parents(alloc: Global, parents: &[Parent]) -> Result<u64, Memory>
    ensures { IfOk result (λ total. total ≡ min (sum (map (λ p. wanted_by p.form) parents.now)) (2 ^ 64 - 1)) }
{
    let mut total: u64 = 0;
    for parent in parents {
        total = total.saturating_add(wanted(alloc, &parent.form, true)?);
    }
    Ok(total)
}

/// How many symbols the formula, or under minus its negation, may bring in: one for each existential quantifier of its
/// normal form, where it has one.
pub fn wanted(alloc: Global, form: &Form, positive: bool) -> Result<u64, Memory>
    ensures { IfOk result (λ count. count ≡ wanted_by (signed positive form.now)) }
{
    if norm_size(form) > MAX_NORM_SIZE {
        return Ok(0);
    }
    let norm = norm_signed(alloc, form, positive)?;
    count_existentials(alloc, &norm)
}

// How many existential quantifiers the closed formula has.
fn count_existentials(alloc: Global, form: &Form) -> Result<u64, Memory>
    ensures { IfOk result (λ count. count ≡ ex_count form.now) }
{
    let found = existentials_of(alloc, form)?;
    Ok(found.len() as u64)
}
