ghost use Rattle.std.specs.Prelude.{◌≡◌, ℕ, Some, length, IfOk};
ghost use Rattle.elaborate.specs.declared.answer.StepAnswer.TheVariants.{Accepted};
ghost use Rattle.clause_form.specs.Paths.{forms_of};
ghost use Rattle.clause_rules.specs.Answers.{IsFirst as IsFirstShown};
ghost use Rattle.clause_rules.specs.Steps.{AreReady, IsReady};
ghost use Rattle.derive_kit.specs.Derived.{AreOfTheory, numbers_of};
ghost use Rattle.elaborate.specs.Answers.{IsStepAnswer};
ghost use Rattle.kernel.specs.Statements.{AreClosed};
ghost use Rattle.elaborate.specs.code.Proofs.{IsDerived, rule_named};
ghost use Rattle.step_clauses.specs.Room.{HasRoom};

use crate::answer::{Rule, StepAnswer};
use crate::naming::{chosen, defined, skolemized, split};
use crate::searching::{by_search, citing_all, lemma};
use clause_form::Parent;
use clause_rules::Just;
use cover_proofs::prove;
use fof_terms::Form;
use kernel::Entry;
use proof_check::Theory;
use rule_steps::recognise;
use std::alloc::Global;
use tptp_base::{List, Memory};

/// The first rule by which the line follows from some of the parents or, where there is none, `Search` or `Sat`, with
/// entries that derive the line: they are legal in turn after the theory, and the last adds the line. They need no
/// formula of the theory but the parents, which the line cites. By `Search` it follows part by part from the parents,
/// or with new functions in place of a parent's existential variables, or by a refutation of the clauses of all the
/// parents and of its negation. Where it is found in none of these ways, a propositional step is decided: by `Sat` the
/// line is derived by a decision of those clauses. Else the reason says how the search ended, and that the step is not
/// propositional or that the parents do not entail the line.
///
/// The search makes at most `limit` clauses. There must be room for its functions.
pub fn step(
    alloc: Global,
    theory: &Theory,
    parents: &[Parent],
    line: &Form,
    limit: u32,
) -> Result<StepAnswer, Memory>
    requires parents { AreOfTheory theory.now parents.now }
    requires ready { AreReady theory.now.vocabulary parents.now }
    requires line { IsReady theory.now.vocabulary line.now }
    requires closed { AreClosed theory.now }
    requires room { HasRoom (length theory.now.vocabulary.symbols) (forms_of parents.now) line.now }
    ensures { IfOk result (IsStepAnswer theory.now parents.now line.now limit) }
{
    if let Some(just) = recognise(alloc, theory.signature(), parents, line)? {
        return by_shape(alloc, theory, parents, line, just);
    }
    if let Some(derived) = first_entries(alloc, theory, parents, line)? {
        return by_entries(alloc, parents, derived);
    }
    by_search(alloc, theory, parents, line, limit)
}

// The answer that the line is accepted by the rule of the justification, with the lemma of its proof as the only entry,
// citing all parents.
fn by_shape(
    alloc: Global,
    theory: &Theory,
    parents: &[Parent],
    line: &Form,
    just: Just,
) -> Result<StepAnswer, Memory>
    requires parents { AreOfTheory theory.now parents.now }
    requires ready { AreReady theory.now.vocabulary parents.now }
    requires line { IsReady theory.now.vocabulary line.now }
    requires first { IsFirstShown theory.now.vocabulary parents.now line.now (Some just) }
    ensures { IfOk result (λ answer. (limit : ℕ) → IsStepAnswer theory.now parents.now line.now limit answer) }
{
    let rule = rule_of(&just);
    let proof = prove(alloc, theory.signature(), parents, line, just)?;
    let entries = lemma(alloc, proof)?;
    citing_all(alloc, parents, rule, entries)
}

// The rule of the justification.
fn rule_of(just: &Just) -> Rule
    ensures { result ≡ rule_named just.now }
{
    match just {
        Just::Norm { .. } => Rule::Norm,
        Just::Cover { .. } => Rule::Cover,
        Just::Tautology => Rule::Tautology,
        Just::Resolution { .. } => Rule::Resolution,
        Just::Paramodulation { .. } => Rule::Paramodulation,
        Just::EqFactor { .. } => Rule::EqFactor,
        Just::Rewrite { .. } => Rule::Rewrite,
    }
}

/// A rule that gives a line, and entries that derive the line by it.
#[derive(Drop)]
pub struct Derived {
    pub rule: Rule,
    pub entries: List<Entry>,
}

// The first of the rules by names and new symbols that gives the line, with entries; None exactly where there is none.
fn first_entries(
    alloc: Global,
    theory: &Theory,
    parents: &[Parent],
    line: &Form,
) -> Result<Option<Derived>, Memory>
    requires parents { AreOfTheory theory.now parents.now }
    requires ready { AreReady theory.now.vocabulary parents.now }
    requires line { IsReady theory.now.vocabulary line.now }
    ensures { IfOk result (IsDerived theory.now parents.now line.now) }
{
    if let Some(entries) = split(alloc, theory, parents, line)? {
        return Ok(derived_by(Rule::Split, entries));
    }
    if let Some(entries) = skolemized(alloc, theory, parents, line)? {
        return Ok(derived_by(Rule::Skolem, entries));
    }
    if let Some(entries) = defined(alloc, theory, line)? {
        return Ok(derived_by(Rule::Definition, entries));
    }
    if let Some(entries) = chosen(alloc, theory, line)? {
        return Ok(derived_by(Rule::Choice, entries));
    }
    Ok(None)
}

// The rule with its entries.
fn derived_by(rule: Rule, entries: List<Entry>) -> Option<Derived>
    ensures { result ≡ Some (record { rule = rule; entries = entries }) }
{
    Some(Derived { rule, entries })
}

// The answer that the line is accepted, with these entries, citing all parents.
fn by_entries(alloc: Global, parents: &[Parent], derived: Derived) -> Result<StepAnswer, Memory>
    ensures { IfOk result (λ answer. answer ≡ Accepted derived.rule (numbers_of parents.now) derived.entries) }
{
    let Derived { rule, entries } = derived;
    citing_all(alloc, parents, rule, entries)
}
