// The clauses of a step.
ghost use Rattle.std.specs.Prelude.{◌≡◌, ◌<◌, ◌^◌, ◌-◌, IfOk, OnOk, IsErrOf, map, min, sum, true, false};
ghost use Rattle.std.specs.List.{list_any, All as Each};
ghost use Rattle.fof_terms.specs.Sorts.{binder_depth};
ghost use Rattle.clause_form.specs.Norm.{norm_of};
ghost use Rattle.clause_form.specs.Paths.{forms_of};
ghost use Rattle.clause_form.specs.Sizes.{clause_count_of};
ghost use Rattle.step_clauses.specs.Inputs.{step_forms, search_input as input_of_step, search_symbols};
ghost use Rattle.step_clauses.specs.Room.{AreBelow, HasRoom};
ghost use Rattle.step_clauses.specs.Wide.{is_large, is_heavy, is_wide};
ghost use Rattle.step_clauses.specs.code.InTurn.{AreClausable, IsInput, clauses_in_turn, symbols_in_turn};

use crate::clausal::{Clausal, push_clausal};
use clause_form::{Clause, FormFault, MAX_NORM_SIZE, Parent, clause_count, norm_signed, norm_size};
use clause_order::clause_weight_of;
use fof_terms::{Form, SymId};
use std::alloc::Global;
use tptp_base::{List, Memory};

/// The most clauses of a step that is not wide.
pub const MAX_CLAUSES: u128 = 10_000;

/// The greatest weight of a clause of a step that is not wide.
pub const MAX_WEIGHT: u64 = 100_000_000;

/// The clauses of the parents, in order, and then of the negation of the line, with the new functions of which they
/// speak, numbered from `next` on. Wide exactly where a norm size is over 100,000, or there are more than 10,000
/// clauses, or one weighs more than 100,000,000, unless memory is wanted first. The norm sizes and then the numbers of
/// clauses are asked before any clause is made.
pub fn search_input(
    alloc: Global,
    parents: &[Parent],
    line: &Form,
    next: SymId,
) -> Result<Clausal, FormFault>
    requires below { AreBelow next parents.now line.now }
    requires room { HasRoom next (forms_of parents.now) line.now }
    ensures clauses { IfOk result (λ made. made.clauses ≡ input_of_step next (forms_of parents.now) line.now) }
    ensures skolems { IfOk result (λ made. made.skolems ≡ search_symbols next (forms_of parents.now) line.now) }
    ensures narrow { OnOk result (is_wide next (forms_of parents.now) line.now ≡ false) }
    ensures wide { IsErrOf result FormFault.Wide → is_wide next (forms_of parents.now) line.now ≡ true }
{
    if has_large(parents, line) {
        return Err(FormFault::Wide);
    }
    match input_of_norms(alloc, parents, line, next) {
        Ok(Some(made)) => Ok(made),
        Ok(None) => Err(FormFault::Wide),
        Err(_) => Err(FormFault::Memory),
    }
}

// Whether a formula of the step has no normal form.
fn has_large(parents: &[Parent], line: &Form) -> bool
    ensures { result ≡ list_any is_large (step_forms (forms_of parents.now) line.now) }
{
    if has_large_parent(parents) {
        return true;
    }
    is_large_form(line)
}

// Whether a parent has no normal form.
fn has_large_parent(parents: &[Parent]) -> bool
    ensures { result ≡ list_any (λ p. is_large p.form) parents.now }
{
    for parent in parents {
        if is_large_form(&parent.form) {
            return true;
        }
    }
    false
}

/// Whether the formula has no normal form.
#[tactic(auto, using(crate::proofs::InputFacts::large_test))]
pub(crate) fn is_large_form(form: &Form) -> bool
    ensures { result ≡ is_large form.now }
{
    norm_size(form) > MAX_NORM_SIZE
}

// The clauses of the step, each formula of which has a normal form. None exactly where the case is wide.
fn input_of_norms(
    alloc: Global,
    parents: &[Parent],
    line: &Form,
    next: SymId,
) -> Result<Option<Clausal>, Memory>
    requires below { AreBelow next parents.now line.now }
    requires room { HasRoom next (forms_of parents.now) line.now }
    requires small { list_any is_large (step_forms (forms_of parents.now) line.now) ≡ false }
    ensures { IfOk result (IsInput next (forms_of parents.now) line.now) }
{
    let norms = norms_of(alloc, parents, line)?;
    if count_clauses(norms.as_slice()) > MAX_CLAUSES {
        return Ok(None);
    }
    let made = clausal_of_norms(alloc, norms.as_slice(), next)?;
    if has_heavy(made.clauses.as_slice()) {
        return Ok(None);
    }
    Ok(Some(made))
}

// The normal forms of the parents and of the negation of the line.
fn norms_of(alloc: Global, parents: &[Parent], line: &Form) -> Result<List<Form>, Memory>
    requires parents { Each (λ p. binder_depth p.form < 2 ^ 32) parents.now }
    requires line { binder_depth line.now < 2 ^ 32 }
    ensures { IfOk result (λ norms. norms ≡ map (norm_of true) (step_forms (forms_of parents.now) line.now)) }
{
    let mut norms = norms_of_parents(alloc, parents)?;
    norms.push(norm_signed(alloc, line, false)?)?;
    Ok(norms)
}

// The normal forms of the parents.
fn norms_of_parents(alloc: Global, parents: &[Parent]) -> Result<List<Form>, Memory>
    requires { Each (λ p. binder_depth p.form < 2 ^ 32) parents.now }
    ensures { IfOk result (λ norms. norms ≡ map (λ p. norm_of true p.form) parents.now) }
{
    let mut norms = List::new(alloc);
    for parent in parents {
        norms.push(norm_signed(alloc, &parent.form, true)?)?;
    }
    Ok(norms)
}

// How many clauses normal forms have, up to the greatest value.
fn count_clauses(norms: &[Form]) -> u128
    ensures { result ≡ min (sum (map clause_count_of norms.now)) (2 ^ 128 - 1) }
{
    let mut total: u128 = 0;
    for norm in norms {
        total = total.saturating_add(clause_count(norm));
    }
    total
}

// The clauses of normal forms, and their functions, numbered from `next` on.
fn clausal_of_norms(alloc: Global, norms: &[Form], next: SymId) -> Result<Clausal, Memory>
    requires { AreClausable next norms.now }
    ensures clauses { IfOk result (λ made. made.clauses ≡ clauses_in_turn next norms.now) }
    ensures skolems { IfOk result (λ made. made.skolems ≡ symbols_in_turn next norms.now) }
{
    let mut made = Clausal {
        skolems: List::new(alloc),
        clauses: List::new(alloc),
    };
    for norm in norms {
        let number = next + made.skolems.len() as u32;
        push_clausal(alloc, norm, number, &mut made)?;
    }
    Ok(made)
}

// Whether a clause is too heavy.
fn has_heavy(clauses: &[Clause]) -> bool
    ensures { result ≡ list_any is_heavy clauses.now }
{
    for clause in clauses {
        if clause_weight_of(clause) > MAX_WEIGHT {
            return true;
        }
    }
    false
}
