// New functions.
ghost use Rattle.clause_form.specs.declared.path.Parent.{Parent as Stated};
ghost use Rattle.derive_kit.specs.Derived.{IsDerivedFrom};
ghost use Rattle.fof_terms.specs.Sorts.{SortedTo};
ghost use Rattle.skolem_fresh.specs.ChoiceRule.{IsChoiceStep};
ghost use Rattle.skolem_fresh.specs.Justified.{ShowsChoice, ShowsSkolem};
ghost use Rattle.clause_form.specs.Paths.{forms_of};
ghost use Rattle.skolem_fresh.specs.SkolemRule.{IsSkolemStep};
ghost use Rattle.std.specs.List.{All as Each};
ghost use Rattle.std.specs.Prelude.{IfOk, List as Listed, MatchOption, [], ℕ};

use crate::{Control, Probe};
use clause_form::Parent;
use fof_terms::Form;
use kernel::Entry;
use proof_check::Theory;
use skolem_fresh::{SkolemJust, choice_entries, choice_step, skolem_step};
use std::alloc::Global;
use tptp_base::{List, Memory};

/// Looks for new functions.
pub trait Skolems {
    /// A justification by the rule `choice`: the line says of new functions that they choose what there is.
    fn choice_step(
        alloc: Global,
        theory: &Theory,
        line: &Form,
    ) -> Result<Option<SkolemJust>, Memory>
        requires { SortedTo 1000000000 theory.now.vocabulary [] line.now }
        ensures { IfOk result (λ answer. MatchOption answer (IsChoiceStep theory.now line.now →
            ⊥) (ShowsChoice theory.now line.now)) };

    /// Entries that are legal in turn and end with a lemma of the line: for each function of the justification,
    /// the outermost existential variable first, that it chooses what there is.
    fn choice_entries(
        alloc: Global,
        theory: &Theory,
        just: &SkolemJust,
        line: &Form,
    ) -> Result<List<Entry>, Memory>
        requires ready { SortedTo 1000000000 theory.now.vocabulary [] line.now }
        requires shows { ShowsChoice theory.now line.now just.now }
        ensures { IfOk result (λ entries. (cites : Listed ℕ) → IsDerivedFrom theory.now cites entries line.now) };

    /// A justification by the rule `skolem`: by its normal form the line is a parent with new functions in
    /// place of its existential variables.
    fn skolem_step(
        alloc: Global,
        theory: &Theory,
        parents: &[Parent],
        line: &Form,
    ) -> Result<Option<SkolemJust>, Memory>
        requires parents { Each (λ (p : Stated). SortedTo 1000000000 theory.now.vocabulary [] p.form) parents.now }
        requires line { SortedTo 1000000000 theory.now.vocabulary [] line.now }
        ensures { IfOk result (λ answer. MatchOption answer (IsSkolemStep theory.now (forms_of parents.now) line.now →
            ⊥) (ShowsSkolem theory.now (forms_of parents.now) line.now)) };
}

impl Skolems for Probe {
    fn choice_step(
        alloc: Global,
        theory: &Theory,
        line: &Form,
    ) -> Result<Option<SkolemJust>, Memory> {
        choice_step(alloc, theory, line)
    }

    fn choice_entries(
        alloc: Global,
        theory: &Theory,
        just: &SkolemJust,
        line: &Form,
    ) -> Result<List<Entry>, Memory> {
        choice_entries(alloc, theory, just, line)
    }

    fn skolem_step(
        alloc: Global,
        theory: &Theory,
        parents: &[Parent],
        line: &Form,
    ) -> Result<Option<SkolemJust>, Memory> {
        skolem_step(alloc, theory, parents, line)
    }
}

impl Skolems for Control {
    fn choice_step(
        alloc: Global,
        theory: &Theory,
        line: &Form,
    ) -> Result<Option<SkolemJust>, Memory> {
        match choice_step(alloc, theory, line)? {
            Some(SkolemJust::Choice { uses }) => Ok(Some(SkolemJust::Choice { uses })),
            answer => Ok(answer),
        }
    }

    fn choice_entries(
        alloc: Global,
        theory: &Theory,
        just: &SkolemJust,
        line: &Form,
    ) -> Result<List<Entry>, Memory> {
        match choice_entries(alloc, theory, just, line) {
            Ok(entries) => Ok(entries),
            Err(Memory) => Err(Memory),
        }
    }

    fn skolem_step(
        alloc: Global,
        theory: &Theory,
        parents: &[Parent],
        line: &Form,
    ) -> Result<Option<SkolemJust>, Memory> {
        match skolem_step(alloc, theory, parents, line)? {
            Some(SkolemJust::Skolem { parent, uses }) => Ok(Some(SkolemJust::Skolem {
                parent,
                uses,
            })),
            answer => Ok(answer),
        }
    }
}
