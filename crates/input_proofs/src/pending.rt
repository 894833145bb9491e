// Proofs that an opened formula, or a member of it, implies clauses of it, as long as the formula has no number.
ghost use Rattle.std.specs.Prelude.{◌≡◌, ◌≤◌, ◌+◌, ◌++◌, List as Listed, Option as Maybe, IfOk, OnOk, length, map};
ghost use Rattle.std.specs.Prelude.{Some, None, reverse};
ghost use Rattle.std.specs.List.{list_any};
ghost use Rattle.std.specs.Option.{option_map};
ghost use Rattle.clause_form.specs.Clauses.{clauses_in};
ghost use Rattle.clause_form.specs.Paths.{reached};
ghost use Rattle.clause_form.specs.Sizes.{norm_size_of};
ghost use Rattle.clause_form.specs.declared.clause.Clause.{Clause as Disjunction};
ghost use Rattle.input_proofs.specs.Wanted.{IsWanted, AreWanted};
ghost use Rattle.input_proofs.specs.code.Pending.{IsPending, cited, part_of};
ghost use Rattle.input_proofs.specs.declared.pending.Pending.{Pending as Implication};
ghost use Rattle.norm_proofs.specs.Placed.{SortedSomewhere};

use clause_form::Path;
use derive_kit::{Part, and_e, imp_e};
use fof_terms::Form;
use kernel::Proof;
use norm_proofs::path_proof;
use std::alloc::Global;
use step_clauses::paths_of;
use tptp_base::{Boxed, List, Memory};

/// A proof that an opened formula implies a clause, or that a member of the formula does. So of a long conjunction no more
/// is written for each clause than its own member.
#[derive(Drop)]
pub(crate) struct Pending {
    /// The number of the formula among those that are opened, counted from 0.
    pub(crate) fact: usize,
    /// The number of the member, if it is that which implies the clause.
    pub(crate) member: Option<u32>,
    pub(crate) implication: Part,
}

/// Adds, for each clause of the formula that is wanted, a proof that the formula implies it. The formula is that of the
/// fact of this number.
pub(crate) fn push_pending(
    alloc: Global,
    form: &Form,
    fact: usize,
    wanted: &[bool],
    pending: &mut List<Option<Pending>>,
) -> Result<(), Memory>
    requires small { norm_size_of form.now ≤ 100000 }
    requires sorted { SortedSomewhere form.now }
    requires each { length wanted.now ≡ length (clauses_in form.now) }
    ensures { OnOk result ((added : Listed (Maybe Implication)) × (pending.new ≡ pending.old ++ added)
        × AreWanted (IsPending fact form.now) wanted.now (clauses_in form.now) added) }
{
    let paths = paths_of(alloc, form)?;
    let paths = paths.as_slice();
    for at in 0..paths.len() {
        pending.push(pending_of(alloc, form, fact, wanted[at], &paths[at])?)?;
    }
    Ok(())
}

// The same of the clause that a path reaches, if it is wanted.
fn pending_of(
    alloc: Global,
    form: &Form,
    fact: usize,
    wanted: bool,
    path: &Path,
) -> Result<Option<Pending>, Memory>
    requires small { norm_size_of form.now ≤ 100000 }
    requires sorted { SortedSomewhere form.now }
    requires fits { (c : Disjunction) × (reached path.now form.now ≡ Some c) }
    ensures { IfOk result (λ made. (c : Disjunction) → reached path.now form.now ≡ Some c
        → IsWanted (IsPending fact form.now) wanted c made) }
{
    if !wanted {
        return Ok(None);
    }
    Ok(Some(implied(alloc, form, fact, path)?))
}

// That the formula, or the member of it that the path picks, implies the clause that the path reaches.
fn implied(alloc: Global, form: &Form, fact: usize, path: &Path) -> Result<Pending, Memory>
    requires small { norm_size_of form.now ≤ 100000 }
    requires sorted { SortedSomewhere form.now }
    requires fits { (c : Disjunction) × (reached path.now form.now ≡ Some c) }
    ensures { IfOk result (λ made. (c : Disjunction) → reached path.now form.now ≡ Some c
        → IsPending fact form.now c made) }
{
    if let Form::And(members) = form {
        if let Path::Pick(number, rest) = path {
            let members = members.as_slice();
            let place = *number as usize;
            return Ok(Pending {
                fact,
                member: Some(*number),
                implication: path_proof(alloc, &members[place], rest.get())?,
            });
        }
    }
    Ok(Pending {
        fact,
        member: None,
        implication: path_proof(alloc, form, path)?,
    })
}

/// Adds that no clause is wanted.
pub(crate) fn leave_out(wanted: &[bool], pending: &mut List<Option<Pending>>) -> Result<(), Memory>
    ensures { OnOk result (pending.new ≡ pending.old ++ map (λ _. None) wanted.now) }
{
    for _mark in wanted {
        pending.push(None)?;
    }
    Ok(())
}

/// Whether a clause is wanted.
pub(crate) fn is_some_wanted(wanted: &[bool]) -> bool
    ensures { result ≡ list_any (λ w. w) wanted.now }
{
    for one in wanted {
        if *one {
            return true;
        }
    }
    false
}

/// The clauses, by the formulas that stand from this number on.
pub(crate) fn cite_all(
    alloc: Global,
    first: u64,
    pending: List<Option<Pending>>,
) -> Result<List<Option<Proof>>, Memory>
    ensures { IfOk result (λ proofs. proofs ≡ map (option_map (cited first)) pending) }
{
    let mut left = reversed(alloc, pending)?;
    let mut proofs = List::new(alloc);
    while let Some(next) = left.pop() {
        proofs.push(cite(alloc, first, next)?)?;
    }
    Ok(proofs)
}

// The list, the last member first.
fn reversed(alloc: Global, pending: List<Option<Pending>>) -> Result<List<Option<Pending>>, Memory>
    ensures { IfOk result (λ list. list ≡ reverse pending) }
{
    let mut list = List::new(alloc);
    let mut left = pending;
    while let Some(last) = left.pop() {
        list.push(last)?;
    }
    Ok(list)
}

// The clause, if it is wanted, by its formula or a member of that.
fn cite(alloc: Global, first: u64, pending: Option<Pending>) -> Result<Option<Proof>, Memory>
    ensures { IfOk result (λ proof. proof ≡ option_map (cited first) pending) }
{
    let Some(
        Pending {
            fact,
            member,
            implication,
        },
    ) = pending
    else {
        return Ok(None);
    };
    let number = further(first, fact)?;
    let form = Boxed::new(alloc, Proof::Line(number))?;
    let own = part_by(alloc, member, form)?;
    let clause = imp_e(alloc, implication, own)?;
    Ok(Some(clause.into_inner()))
}

// The member of that number of what the part shows, or the whole.
fn part_by(alloc: Global, member: Option<u32>, whole: Part) -> Result<Part, Memory>
    ensures { IfOk result (λ part. part ≡ part_of member whole) }
{
    match member {
        Some(number) => and_e(alloc, number, whole),
        None => Ok(whole),
    }
}

/// The number that is so much greater.
pub(crate) fn further(number: u64, by: usize) -> Result<u64, Memory>
    ensures { IfOk result (λ sum. sum ≡ number + by) }
{
    match number.checked_add(by as u64) {
        Some(sum) => Ok(sum),
        // A limit of the type of numbers, which no memory reaches.
        None => Err(Memory),
    }
}
