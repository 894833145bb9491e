//! The entry by which a theory takes a line that has names for parts of a parent.
ghost use Rattle.std.specs.Prelude.{◌≡◌, ◌<◌, ◌≤◌, ◌^◌, ◌∷◌, [], ℕ, true, length, List as ListOf, Some, IfOk};
ghost use Rattle.std.specs.Prelude.{slice_get};
ghost use Rattle.std.specs.List.{AllByRecursion};
ghost use Rattle.clause_rules.specs.Settled.{IsFit};
ghost use Rattle.fof_terms.specs.declared.form.Form.{Form as Formula, Or};
ghost use Rattle.fof_terms.specs.Scope.{scope_sorts};
ghost use Rattle.clause_form.specs.Covers.{AreSorted, CoversBy, scope_of};
ghost use Rattle.clause_proofs.specs.code.Bodies.{IsReadyClause};
ghost use Rattle.clause_proofs.specs.Refuting.{IsGoal, ShowsBody, body, theory_of};
ghost use Rattle.clause_proofs.specs.Shown.{ShowsLine};
ghost use Rattle.clause_rules.specs.Steps.{AreCovered, AreReady, IsJoint, IsReady, images_of_parents};
ghost use Rattle.derive_kit.specs.Derived.{AreOfTheory, IsDerivedFrom, numbers_of};
ghost use Rattle.kernel.specs.Proves.{Proves};
ghost use Rattle.kernel.specs.declared.entry.Entry.TheVariants.{Lemma};
ghost use Rattle.split_defs.specs.declared.just.SplitJust.TheVariants.{Split};
ghost use Rattle.split_defs.specs.code.SplitProof.{AreGoals, AreStages, DeniedAt, enclosed_tree, nest_tree};
ghost use Rattle.split_defs.specs.code.SplitProof.{stage_clauses, stage_tree};
ghost use Rattle.split_defs.specs.SplitRule.{together as clauses_together};
ghost use Rattle.clause_form.specs.Paths.{forms_of};
ghost use Rattle.split_defs.specs.SplitSearch.{ShowsSplit};

use crate::arms::all_arms;
use crate::just::SplitJust;
use crate::stages::{Stage, all_stages};
use crate::together::{few_variables, together};
use clause_form::{Clause, Parent};
use clause_proofs::{
    Opened, Premise, body_form, for_all, inhabited, instance_by, known_clause, refute_covered,
    some_images, variables_of,
};
use derive_kit::{Part, cases, imp_e, imp_i, raa};
use fof_terms::{Form, Scope, Signature, SortId};
use kernel::Entry;
use proof_check::Theory;
use std::alloc::Global;
use tptp_base::{List, Memory};
use unify_terms::Subst;

/// The entry that derives the line from its parents, as the justification shows that it has names for parts of one.
pub fn split_entries(
    alloc: Global,
    theory: &Theory,
    just: &SplitJust,
    parents: &[Parent],
    line: &Form,
) -> Result<List<Entry>, Memory>
    requires parents { AreOfTheory theory.now parents.now }
    requires ready { AreReady theory.now.vocabulary parents.now }
    requires line { IsReady theory.now.vocabulary line.now }
    requires shows { ShowsSplit theory.now.vocabulary (forms_of parents.now) line.now just.now }
    ensures { IfOk result (λ entries. IsDerivedFrom theory.now (numbers_of parents.now) entries line.now) }
{
    match just {
        SplitJust::Split {
            parent,
            definitions,
            subst,
        } => {
            let names = definitions.as_slice();
            let proof = split_proof(
                alloc,
                theory.signature(),
                parents,
                line,
                *parent,
                names,
                subst,
            )?;
            lemma(alloc, proof)
        }
        SplitJust::Definition { .. } => unreachable!(),
    }
}

// The lemma of the proof, as the only entry.
fn lemma(alloc: Global, proof: Part) -> Result<List<Entry>, Memory>
    ensures { IfOk result (λ entries. entries ≡ Lemma proof ∷ []) }
{
    let mut entries = List::new(alloc);
    entries.push(Entry::Lemma(proof.into_inner()))?;
    Ok(entries)
}

// A proof of the line by the parent of that number, and by those that say what its names stand for.
fn split_proof(
    alloc: Global,
    sig: &Signature,
    parents: &[Parent],
    line: &Form,
    parent: usize,
    names: &[usize],
    subst: &Subst,
) -> Result<Part, Memory>
    requires ready { AreReady sig.now parents.now }
    requires line { IsReady sig.now line.now }
    requires shown { ShowsSplit sig.now (forms_of parents.now) line.now (Split parent names.now subst.now) }
    ensures { IfOk result (ShowsLine sig.now parents.now line.now) }
{
    let opened = known_clause(alloc, line)?;
    let stages = all_stages(alloc, sig, parents, line, &opened, names)?;
    let parent = &parents[parent];
    let clause = known_clause(alloc, &parent.form)?;
    by_stages(alloc, sig, parents, line, stages, parent, &clause, subst)
}

// The same by a parent, whose clause is opened.
fn by_stages(
    alloc: Global,
    sig: &Signature,
    parents: &[Parent],
    line: &Form,
    stages: List<Stage>,
    parent: &Parent,
    clause: &Opened,
    subst: &Subst,
) -> Result<Part, Memory>
    requires line { IsReady sig.now line.now }
    requires stages { AreStages sig.now parents.now line.now 1 stages }
    requires short { length stages < 2 ^ 32 }
    requires there { (n : ℕ) × (slice_get parents.now n ≡ Some parent.now) }
    requires parent { IsReadyClause sig.now parent.now.form clause.now }
    requires joint { IsJoint sig.now (clauses_together (stage_clauses stages)) (scope_of clause.now.clause) subst.now }
    requires covers { CoversBy sig.now (scope_of clause.now.clause) clause.now.clause.lits
        (clauses_together (stage_clauses stages)) (scope_of clause.now.clause)
        (images_of_parents (clauses_together (stage_clauses stages)) subst.now) }
    ensures { IfOk result (ShowsLine sig.now parents.now line.now) }
{
    let whole = whole_of(alloc, sig, stages.as_slice())?;
    let own = whole.clause.sorts.as_slice();
    let sorts = clause.clause.sorts.as_slice();
    let reach = variables_of(alloc, own, sorts, &[])?;
    few_variables(reach.sorts.len())?;
    let images = some_images(alloc, subst, own.len(), sorts.len())?;
    let premise = instance_by(alloc, parent.number, clause, images)?;
    let scope = Scope::Outside(reach.sorts.as_slice());
    let core = contradicted(alloc, sig, &scope, stages.as_slice(), &whole, premise)?;
    enclosed(alloc, line, stages, reach.more.as_slice(), core)
}

// What all stages have, as one disjunction.
fn whole_of(alloc: Global, sig: &Signature, stages: &[Stage]) -> Result<Opened, Memory>
    requires { AllByRecursion (IsFit sig.now) (stage_clauses stages.now) }
    ensures clause { IfOk result (λ whole. whole.clause ≡ clauses_together (stage_clauses stages.now)) }
    ensures few { IfOk result (λ whole. length whole.clause.sorts ≤ 1000000000) }
    ensures is_or { IfOk result (λ whole. whole.is_or ≡ true) }
{
    let clauses = clauses_of(alloc, stages)?;
    let clause = together(alloc, sig, clauses.as_slice())?;
    let is_or = true;
    Ok(Opened { clause, is_or })
}

// The clauses of the stages.
fn clauses_of(alloc: Global, stages: &[Stage]) -> Result<List<Clause>, Memory>
    ensures { IfOk result (λ clauses. clauses ≡ stage_clauses stages.now) }
{
    let mut clauses = List::new(alloc);
    for stage in stages {
        clauses.push(stage.opened.clause.copy(alloc)?)?;
    }
    Ok(clauses)
}

// Falsehood where all stages are denied, by an instance that their literals cover.
fn contradicted(
    alloc: Global,
    sig: &Signature,
    scope: &Scope<'_>,
    stages: &[Stage],
    whole: &Opened,
    premise: Premise,
) -> Result<Part, Memory>
    requires whole { whole.now.clause ≡ clauses_together (stage_clauses stages.now) }
    requires is_or { whole.now.is_or ≡ true }
    requires few { length whole.now.clause.sorts ≤ 1000000000 }
    requires short { length stages.now < 2 ^ 32 }
    requires goals { AreGoals sig.now (scope_sorts scope.now) stages.now }
    requires goal { IsGoal sig.now (scope_sorts scope.now) whole.now }
    requires covered { AreCovered whole.now.clause.lits premise.lits }
    requires sorted { AreSorted sig.now (scope_sorts scope.now) premise.lits }
    ensures { IfOk result (λ core. (formulas h : ListOf Formula)
        → ShowsBody sig.now (scope_sorts scope.now) formulas premise.is_or premise.lits premise.part
        → DeniedAt h stages.now → Proves (theory_of sig.now formulas) (scope_sorts scope.now) h core (Or [])) }
{
    let count = whole.clause.sorts.len();
    let arms = all_arms(alloc, sig, scope, stages, count as u32)?;
    let under = refute_covered(alloc, sig, scope, whole, premise)?;
    let choice = raa(alloc, body_form(alloc, whole)?, under)?;
    cases(alloc, choice, arms, Form::Or(List::new(alloc)))
}

// The line, by falsehood where all stages are denied.
fn enclosed(
    alloc: Global,
    line: &Form,
    stages: List<Stage>,
    more: &[SortId],
    core: Part,
) -> Result<Part, Memory>
    ensures { IfOk result (λ made. made ≡ enclosed_tree line.now stages more.now core) }
{
    let nest = nested(alloc, stages, core)?;
    let inner = inhabited(alloc, more, nest)?;
    raa(alloc, line.copy(alloc)?, inner)
}

// Falsehood, by falsehood where all stages are denied.
fn nested(alloc: Global, stages: List<Stage>, core: Part) -> Result<Part, Memory>
    ensures { IfOk result (λ made. made ≡ nest_tree stages core) }
{
    let mut part = core;
    let mut left = stages;
    while let Some(stage) = left.pop() {
        part = denied(alloc, stage, part)?;
    }
    Ok(part)
}

// Falsehood, by falsehood where the stage is denied.
fn denied(alloc: Global, stage: Stage, part: Part) -> Result<Part, Memory>
    ensures { IfOk result (λ made. made ≡ stage_tree stage part) }
{
    let Stage {
        form,
        opened,
        contrary,
    } = stage;
    let own = raa(alloc, body_form(alloc, &opened)?, part)?;
    let all = for_all(alloc, opened.clause.sorts.as_slice(), own)?;
    imp_e(alloc, imp_i(alloc, form.into_inner(), contrary)?, all)
}
