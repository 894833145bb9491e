// Lines that no rule gives.
ghost use Rattle.std.specs.Prelude.{◌≡◌, ◌∷◌, [], false, length, IfOk};
ghost use Rattle.clause_form.specs.Paths.{forms_of};
ghost use Rattle.clause_rules.specs.Steps.{AreReady, IsReady};
ghost use Rattle.derive_kit.specs.Derived.{AreOfTheory, numbers_of};
ghost use Rattle.elaborate.specs.Answers.{IsSearchAnswer};
ghost use Rattle.elaborate.specs.code.Proofs.{IsFoundAtOnce, IsOpenAnswer};
ghost use Rattle.elaborate.specs.declared.answer.StepAnswer.TheVariants.{Accepted};
ghost use Rattle.kernel.specs.Statements.{AreClosed};
ghost use Rattle.kernel.specs.declared.entry.Entry.TheVariants.{Lemma};
ghost use Rattle.step_clauses.specs.Room.{HasRoom};
ghost use Rattle.step_clauses.specs.Wide.{is_wide};

use crate::answer::{Reason, Rule, StepAnswer};
use clause_form::Parent;
use derive_kit::Part;
use fof_terms::Form;
use function_choices::clausified;
use kernel::Entry;
use norm_parts::line_by_parts;
use proof_check::Theory;
use sat_entries::decide_step;
use std::alloc::Global;
use step_search::{Searched, searched};
use tptp_base::{List, Memory};

/// The answer to a line that no rule gives: part by part from the parents, or with new functions in place of a parent's
/// existential variables, or by a search under the limit, or else as a propositional step that is decided.
pub fn by_search(
    alloc: Global,
    theory: &Theory,
    parents: &[Parent],
    line: &Form,
    limit: u32,
) -> Result<StepAnswer, Memory>
    requires parents { AreOfTheory theory.now parents.now }
    requires ready { AreReady theory.now.vocabulary parents.now }
    requires line { IsReady theory.now.vocabulary line.now }
    requires closed { AreClosed theory.now }
    requires room { HasRoom (length theory.now.vocabulary.symbols) (forms_of parents.now) line.now }
    ensures { IfOk result (IsSearchAnswer theory.now parents.now line.now limit) }
{
    if let Some(entries) = found_at_once(alloc, theory, parents, line)? {
        return citing_all(alloc, parents, Rule::Search, entries);
    }
    match searched(alloc, theory, parents, line, limit)? {
        Searched::Refuted(entries) => citing_all(alloc, parents, Rule::Search, entries),
        Searched::Dry => decided(alloc, theory, parents, line, Reason::Dry),
        Searched::Full => decided(alloc, theory, parents, line, Reason::Full),
        Searched::Heavy => decided(alloc, theory, parents, line, Reason::Heavy),
        Searched::Wide => Ok(StepAnswer::Unverified(Reason::Wide)),
    }
}

// The answer to a line of a step that is not wide and that a search leaves open for this reason. A propositional step
// is decided, and the reason stays only where the parents do not entail the line.
fn decided(
    alloc: Global,
    theory: &Theory,
    parents: &[Parent],
    line: &Form,
    reason: Reason,
) -> Result<StepAnswer, Memory>
    requires parents { AreOfTheory theory.now parents.now }
    requires ready { AreReady theory.now.vocabulary parents.now }
    requires line { IsReady theory.now.vocabulary line.now }
    requires closed { AreClosed theory.now }
    requires room { HasRoom (length theory.now.vocabulary.symbols) (forms_of parents.now) line.now }
    requires narrow { is_wide (length theory.now.vocabulary.symbols) (forms_of parents.now) line.now ≡ false }
    ensures { IfOk result (IsOpenAnswer theory.now parents.now line.now reason) }
{
    match decide_step(alloc, theory, parents, line)? {
        Some(entries) => citing_all(alloc, parents, Rule::Sat, entries),
        None => Ok(StepAnswer::Unverified(reason)),
    }
}

// Entries that derive the line part by part from the parents or, where it does not follow so, with new functions in
// place of a parent's existential variables. None only where it does not follow part by part.
fn found_at_once(
    alloc: Global,
    theory: &Theory,
    parents: &[Parent],
    line: &Form,
) -> Result<Option<List<Entry>>, Memory>
    requires parents { AreOfTheory theory.now parents.now }
    requires ready { AreReady theory.now.vocabulary parents.now }
    requires line { IsReady theory.now.vocabulary line.now }
    ensures { IfOk result (IsFoundAtOnce theory.now parents.now line.now) }
{
    if let Some(proof) = line_by_parts(alloc, theory.signature(), parents, line)? {
        let entries = lemma(alloc, proof)?;
        return Ok(Some(entries));
    }
    clausified(alloc, theory, parents, line)
}

/// The answer that the line is accepted by the rule, with these entries, citing all parents.
pub fn citing_all(
    alloc: Global,
    parents: &[Parent],
    rule: Rule,
    entries: List<Entry>,
) -> Result<StepAnswer, Memory>
    ensures { IfOk result (λ answer. answer ≡ Accepted rule (numbers_of parents.now) entries) }
{
    let cites = numbers(alloc, parents)?;
    Ok(StepAnswer::Accepted {
        rule,
        cites,
        entries,
    })
}

// The numbers of the parents.
fn numbers(alloc: Global, parents: &[Parent]) -> Result<List<u64>, Memory>
    ensures { IfOk result (λ cites. cites ≡ numbers_of parents.now) }
{
    let mut cites = List::new(alloc);
    for parent in parents {
        cites.push(parent.number)?;
    }
    Ok(cites)
}

/// The lemma of the proof, as the only entry.
pub fn lemma(alloc: Global, proof: Part) -> Result<List<Entry>, Memory>
    ensures { IfOk result (λ entries. entries ≡ Lemma proof ∷ []) }
{
    let mut entries = List::new(alloc);
    entries.push(Entry::Lemma(proof.into_inner()))?;
    Ok(entries)
}
