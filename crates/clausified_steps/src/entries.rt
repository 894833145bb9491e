//! Entries that derive a line by a parent's normal form with functions in place of its existential variables.
ghost use Rattle.std.specs.Prelude.{◌≡◌, ◌<◌, ◌∷◌, ◌++◌, [], IfOk, IfSome, IsTrue, OnOk, length, true};
ghost use Rattle.std.specs.List.{AllByRecursion as Each};
ghost use Rattle.clause_rules.specs.Steps.{AreReady, IsReady};
ghost use Rattle.clausified_steps.specs.Clausified.{IsClausifiedBy, stated};
ghost use Rattle.clausified_steps.specs.code.Forms.{IsAmong, IsFormBy, IsGuessed};
ghost use Rattle.derive_kit.specs.Derived.{AreOfTheory};
ghost use Rattle.fof_terms.specs.Occurs.{occurs_in};
ghost use Rattle.skolem_fresh.specs.declared.just.Use.{Use as Used};

use clause_form::{Parent, norm_signed};
use clause_rules::is_ready;
use fof_terms::{Form, occurs};
use kernel::Entry;
use norm_parts::line_by_parts;
use proof_check::Theory;
use skolem_fresh::{SkolemJust, Use, skolem_step};
use skolem_proofs::{Skolemized, skolem_entries, skolem_proof};
use std::alloc::Global;
use tptp_base::{Boxed, List, Memory};

/// Entries that derive the line, if the guess is the parent of that number, counted from 0, with new functions in place
/// of its existential variables, and the line follows part by part from it and from the parents.
pub fn clausified_by(
    alloc: Global,
    theory: &Theory,
    parents: &[Parent],
    number: usize,
    line: &Form,
    guess: &Form,
) -> Result<Option<List<Entry>>, Memory>
    requires number { number < length parents.now }
    requires parents { AreOfTheory theory.now parents.now }
    requires ready { AreReady theory.now.vocabulary parents.now }
    requires line { IsReady theory.now.vocabulary line.now }
    ensures { IfOk result (λ answer. IfSome answer (IsClausifiedBy theory.now parents.now line.now)) }
{
    let parent = &parents[number];
    derived_by(alloc, theory, parents, parent, line, guess)
}

// Entries that derive the line, if the guess is this parent with new functions in place of its existential variables,
// and the line follows part by part from it and from the parents.
fn derived_by(
    alloc: Global,
    theory: &Theory,
    parents: &[Parent],
    parent: &Parent,
    line: &Form,
    guess: &Form,
) -> Result<Option<List<Entry>>, Memory>
    requires parents { AreOfTheory theory.now parents.now }
    requires ready { AreReady theory.now.vocabulary parents.now }
    requires line { IsReady theory.now.vocabulary line.now }
    requires there { IsAmong parents.now parent.now }
    ensures { IfOk result (λ answer. IfSome answer (IsClausifiedBy theory.now parents.now line.now)) }
{
    let Some(uses) = functions_of(alloc, theory, parent, guess)? else {
        return Ok(None);
    };
    if !all_occur(&uses, line) {
        return Ok(None);
    }
    let form = form_by(alloc, theory, parent, guess, uses.as_slice())?;
    by_form(alloc, theory, parents, parent, line, uses, form.get())
}

// The functions with which the guess is the parent, if it is that with new functions in place of its existential
// variables.
fn functions_of(
    alloc: Global,
    theory: &Theory,
    parent: &Parent,
    guess: &Form,
) -> Result<Option<List<Use>>, Memory>
    requires { IsReady theory.now.vocabulary parent.now.form }
    ensures { IfOk result (λ found. IfSome found (IsGuessed theory.now parent.now.form guess.now)) }
{
    if !is_ready(theory.signature(), guess) {
        return Ok(None);
    }
    let own = alone(alloc, parent)?;
    let Some(just) = skolem_step(alloc, theory, own.as_slice(), guess)? else {
        return Ok(None);
    };
    let SkolemJust::Skolem {
        parent: _place,
        uses,
    } = just
    else {
        return Ok(None);
    };
    Ok(Some(uses))
}

// The parent alone.
fn alone(alloc: Global, parent: &Parent) -> Result<List<Parent>, Memory>
    ensures { IfOk result (λ own. own ≡ parent.now ∷ []) }
{
    let mut own = List::new(alloc);
    own.push(copy_parent(alloc, parent)?)?;
    Ok(own)
}

fn copy_parent(alloc: Global, parent: &Parent) -> Result<Parent, Memory>
    ensures { IfOk result (λ copy. copy ≡ parent.now) }
{
    Ok(Parent {
        number: parent.number,
        form: parent.form.copy(alloc)?,
    })
}

// Whether each of the functions occurs in the line.
fn all_occur(uses: &List<Use>, line: &Form) -> bool
    ensures { IsTrue result → Each (λ (u : Used). occurs_in u.function line.now ≡ true) uses.now }
{
    let listed = uses.as_slice();
    for function in listed {
        if !occurs(function.function, line) {
            return false;
        }
    }
    true
}

// The parent's normal form with these functions, which has the normal form of the guess.
fn form_by(
    alloc: Global,
    theory: &Theory,
    parent: &Parent,
    guess: &Form,
    uses: &[Use],
) -> Result<Boxed<Form>, Memory>
    requires ready { IsReady theory.now.vocabulary parent.now.form }
    requires guessed { IsGuessed theory.now parent.now.form guess.now uses.now }
    ensures { IfOk result (IsFormBy theory.now parent.now.form uses.now) }
{
    let norm = norm_signed(alloc, &parent.form, true)?;
    let made = skolem_proof(alloc, &norm, uses, theory.len())?;
    let Skolemized {
        form,
        choices: _,
        proof: _,
    } = made;
    let boxed = Boxed::new(alloc, form)?;
    Ok(boxed)
}

// Entries that derive the line, if it follows part by part from the formula and the parents.
fn by_form(
    alloc: Global,
    theory: &Theory,
    parents: &[Parent],
    parent: &Parent,
    line: &Form,
    uses: List<Use>,
    form: &Form,
) -> Result<Option<List<Entry>>, Memory>
    requires parents { AreOfTheory theory.now parents.now }
    requires ready { AreReady theory.now.vocabulary parents.now }
    requires line { IsReady theory.now.vocabulary line.now }
    requires there { IsAmong parents.now parent.now }
    requires form { IsFormBy theory.now parent.now.form uses form.now }
    requires occur { Each (λ (u : Used). occurs_in u.function line.now ≡ true) uses }
    ensures { IfOk result (λ answer. IfSome answer (IsClausifiedBy theory.now parents.now line.now)) }
{
    let all = with_form(alloc, theory, &uses, form, parents)?;
    let Some(proof) = line_by_parts(alloc, theory.signature(), all.as_slice(), line)? else {
        return Ok(None);
    };
    let own = alone(alloc, parent)?;
    let just = SkolemJust::Skolem { parent: 0, uses };
    let mut entries = skolem_entries(alloc, theory, &just, own.as_slice(), form)?;
    entries.push(Entry::Lemma(proof.into_inner()))?;
    Ok(Some(entries))
}

// The formula as a parent, and the parents.
fn with_form(
    alloc: Global,
    theory: &Theory,
    uses: &List<Use>,
    form: &Form,
    parents: &[Parent],
) -> Result<List<Parent>, Memory>
    ensures { IfOk result (λ all. all ≡ stated theory.now uses.now form.now ∷ parents.now) }
{
    let mut all = List::new(alloc);
    all.push(as_parent(alloc, theory, uses, form)?)?;
    add_parents(alloc, parents, &mut all)?;
    Ok(all)
}

// The formula as a parent, behind the formulas of the theory and one for each of the functions.
fn as_parent(
    alloc: Global,
    theory: &Theory,
    uses: &List<Use>,
    form: &Form,
) -> Result<Parent, Memory>
    ensures { IfOk result (λ own. own ≡ stated theory.now uses.now form.now) }
{
    let functions = uses.len() as u64;
    let Some(number) = theory.len().checked_add(functions) else {
        // A limit of the type of numbers, which no memory reaches.
        return Err(Memory);
    };
    let form = form.copy(alloc)?;
    Ok(Parent { number, form })
}

// Adds the parents.
fn add_parents(alloc: Global, parents: &[Parent], all: &mut List<Parent>) -> Result<(), Memory>
    ensures { OnOk result (all.new ≡ all.old ++ parents.now) }
{
    for parent in parents {
        all.push(copy_parent(alloc, parent)?)?;
    }
    Ok(())
}
