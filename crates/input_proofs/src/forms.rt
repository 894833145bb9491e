// The formulas of a step, one by one, with functions in place of their existential variables.
ghost use Rattle.std.specs.Prelude.{◌≡◌, ◌≤◌, ◌+◌, ◌<◌, ◌^◌, [], IfOk, OnOk, drop, length, take};
ghost use Rattle.clause_form.specs.Clauses.{clauses_in};
ghost use Rattle.clause_form.specs.Sizes.{norm_size_of, clause_count_of};
ghost use Rattle.fof_terms.specs.Vocabulary.{Vocabulary};
ghost use Rattle.fof_terms.specs.declared.form.Form.{Form as Formula};
ghost use Rattle.input_proofs.specs.code.Passed.{IsAdded, IsLinked, MayPass, Passes, number_in};
ghost use Rattle.norm_proofs.specs.Placed.{SortedSomewhere};
ghost use Rattle.skolem_fresh.specs.Choosing.{IsWithin};
ghost use Rattle.skolem_fresh.specs.SkolemRule.{IsSkolemized};
ghost use Rattle.skolem_proofs.specs.Choosing.{IsWitnessedBy};
ghost use Rattle.step_clauses.specs.Existentials.{existentials};
ghost use Rattle.step_clauses.specs.Skolems.{uses_of as uses_in};

use crate::pending::{Pending, further, is_some_wanted, leave_out, push_pending};
use clause_form::{clause_count, norm_signed};
use derive_kit::{Part, imp_e};
use fof_terms::{Form, SymId};
use kernel::{Entry, Proof};
use norm_proofs::norm_forth;
use skolem_proofs::{Skolemized, skolem_proof};
use std::alloc::Global;
use step_clauses::{Existential, existentials_of, skolems_of, uses_of};
use tptp_base::{Boxed, List, Memory};

/// What is made of the first of the formulas.
#[derive(Drop)]
pub(crate) struct Opening {
    /// The number of the next function.
    pub(crate) next: SymId,
    /// Entries by which the functions of formulas choose.
    pub(crate) choices: List<Entry>,
    /// Proofs of these formulas with the functions.
    pub(crate) facts: List<Proof>,
    /// For each clause of the formulas, that its formula implies it, if it is wanted.
    pub(crate) pending: List<Option<Pending>>,
}

/// A formula of the step, and its number. That of the negation of the line is the first behind the choices.
#[derive(Clone, Copy)]
pub(crate) struct Source<'a> {
    pub(crate) form: &'a Form,
    pub(crate) number: Option<u64>,
}

/// Opens the next formula, if a clause of it is wanted. The choices stand from number `first` on.
pub(crate) fn open_form(
    alloc: Global,
    source: &Source<'_>,
    first: u64,
    wanted: &[bool],
    opening: &mut Opening,
) -> Result<(), Memory>
    requires { (v : Vocabulary)
        × MayPass v source.now.form.now opening.now.next (length opening.now.pending) wanted.now }
    ensures { OnOk result (Passes source.now.number source.now.form.now first wanted.now opening.old opening.new) }
{
    let norm = norm_signed(alloc, source.form, true)?;
    let found = existentials_of(alloc, &norm)?;
    let own = own_marks(&norm, opening.pending.len(), wanted);
    let next = opening.next;
    opening.next = number_behind(next, found.as_slice());
    if !is_some_wanted(own) {
        return leave_out(own, &mut opening.pending);
    }
    let behind = further(first, opening.choices.len())?;
    let made = witnessed(alloc, &norm, next, found.as_slice(), behind)?;
    add_opened(alloc, source, first, made, own, opening)
}

// The marks of the clauses of the normal form, the first of which has this place.
fn own_marks<'a>(norm: &Form, place: usize, wanted: &'a [bool]) -> &'a [bool]
    requires few { clause_count_of norm.now ≤ 10000 }
    requires room { place + clause_count_of norm.now ≤ length wanted.now }
    ensures { result.now ≡ take (clause_count_of norm.now) (drop place wanted.now) }
{
    let count = clause_count(norm) as usize;
    let end = place + count;
    &wanted[place..end]
}

// The number behind those of the functions of these quantifiers.
fn number_behind(next: SymId, found: &[Existential]) -> SymId
    requires { next + length found.now ≤ 16777216 }
    ensures { result ≡ next + length found.now }
{
    let count = found.len() as u32;
    next + count
}

// The normal form with functions, numbered from `next` on, in place of its existential variables, which are these.
fn witnessed(
    alloc: Global,
    norm: &Form,
    next: SymId,
    found: &[Existential],
    behind: u64,
) -> Result<Skolemized, Memory>
    requires found { found.now ≡ existentials norm.now }
    requires numbers { next + length found.now < 2 ^ 32 }
    requires small { norm_size_of norm.now ≤ 100000 }
    requires fits { (v : Vocabulary) × (result : Formula) × IsWithin v [] norm.now
        × IsSkolemized v [] (uses_in norm.now next) norm.now result }
    ensures { IfOk result (IsWitnessedBy (uses_in norm.now next) norm.now behind) }
{
    let skolems = skolems_of(alloc, next, found)?;
    let uses = uses_of(alloc, skolems.as_slice())?;
    skolem_proof(alloc, norm, uses.as_slice(), behind)
}

// Adds what is made of a formula with functions, and its clauses that are wanted.
fn add_opened(
    alloc: Global,
    source: &Source<'_>,
    first: u64,
    made: Skolemized,
    own: &[bool],
    opening: &mut Opening,
) -> Result<(), Memory>
    requires small { norm_size_of source.now.form.now ≤ 100000 }
    requires sorted { SortedSomewhere source.now.form.now }
    requires made_small { norm_size_of made.form ≤ 100000 }
    requires made_sorted { SortedSomewhere made.form }
    requires each { length own.now ≡ length (clauses_in made.form) }
    ensures { OnOk result
        (IsAdded source.now.number source.now.form.now first made own.now opening.old opening.new) }
{
    let Skolemized {
        form,
        choices,
        proof,
    } = made;
    opening.choices.append(choices)?;
    let number = number_of(source.number, first, opening.choices.len())?;
    let fact = linked(alloc, source.form, number, proof)?;
    let place = opening.facts.len();
    opening.facts.push(fact.into_inner())?;
    push_pending(alloc, &form, place, own, &mut opening.pending)
}

// The number of a formula, which is the first behind so many choices if it has none.
fn number_of(number: Option<u64>, first: u64, choices: usize) -> Result<u64, Memory>
    ensures { IfOk result (λ own. own ≡ number_in number first choices) }
{
    match number {
        Some(own) => Ok(own),
        None => further(first, choices),
    }
}

// What the formula of that number becomes, by the part, which shows that its normal form implies it.
fn linked(alloc: Global, form: &Form, number: u64, part: Part) -> Result<Part, Memory>
    requires small { norm_size_of form.now ≤ 100000 }
    requires sorted { SortedSomewhere form.now }
    ensures { IfOk result (IsLinked form.now number part) }
{
    let cited = Boxed::new(alloc, Proof::Line(number))?;
    let norm = imp_e(alloc, norm_forth(alloc, form)?, cited)?;
    imp_e(alloc, part, norm)
}
