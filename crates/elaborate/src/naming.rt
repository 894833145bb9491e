// Lines in which names stand for parts of a parent, or that bring in new symbols: the rule, and entries that derive the
// line.
ghost use Rattle.std.specs.Prelude.{[], IfOk};
ghost use Rattle.clause_rules.specs.Steps.{AreReady, IsReady};
ghost use Rattle.derive_kit.specs.Derived.{AreOfTheory, numbers_of};
ghost use Rattle.skolem_fresh.specs.ChoiceRule.{IsChoiceStep};
ghost use Rattle.skolem_fresh.specs.SkolemRule.{IsSkolemStep};
ghost use Rattle.split_defs.specs.DefinitionRule.{IsDefinitionStep};
ghost use Rattle.split_defs.specs.SplitRule.{IsSplitStep};
ghost use Rattle.clause_form.specs.Paths.{forms_of};
ghost use Rattle.elaborate.specs.code.Proofs.{IsByEntries};

use clause_form::Parent;
use fof_terms::Form;
use kernel::Entry;
use proof_check::Theory;
use skolem_fresh::{choice_entries, choice_step, skolem_step};
use skolem_proofs::skolem_entries;
use split_defs::{SplitJust, definition_entries, definition_step, split_entries, split_step};
use std::alloc::Global;
use tptp_base::{List, Memory};

/// Entries of a line that has names for parts of a parent; None exactly where it is none.
pub fn split(
    alloc: Global,
    theory: &Theory,
    parents: &[Parent],
    line: &Form,
) -> Result<Option<List<Entry>>, Memory>
    requires parents { AreOfTheory theory.now parents.now }
    requires ready { AreReady theory.now.vocabulary parents.now }
    requires line { IsReady theory.now.vocabulary line.now }
    ensures { IfOk result
        (IsByEntries theory.now (numbers_of parents.now) line.now
        (IsSplitStep theory.now.vocabulary (forms_of parents.now) line.now)) }
{
    match split_step(alloc, theory, parents, line)? {
        Some(just) => {
            let entries = split_entries(alloc, theory, &just, parents, line)?;
            Ok(Some(entries))
        }
        None => Ok(None),
    }
}

/// Entries of a line that puts new functions in place of a parent's existential variables; None exactly where it is no
/// such line of any parent.
pub fn skolemized(
    alloc: Global,
    theory: &Theory,
    parents: &[Parent],
    line: &Form,
) -> Result<Option<List<Entry>>, Memory>
    requires parents { AreOfTheory theory.now parents.now }
    requires ready { AreReady theory.now.vocabulary parents.now }
    requires line { IsReady theory.now.vocabulary line.now }
    ensures { IfOk result
        (IsByEntries theory.now (numbers_of parents.now) line.now
        (IsSkolemStep theory.now (forms_of parents.now) line.now)) }
{
    match skolem_step(alloc, theory, parents, line)? {
        Some(just) => {
            let entries = skolem_entries(alloc, theory, &just, parents, line)?;
            Ok(Some(entries))
        }
        None => Ok(None),
    }
}

/// Entries of a line that defines a symbol; None exactly where it defines none.
pub fn defined(alloc: Global, theory: &Theory, line: &Form) -> Result<Option<List<Entry>>, Memory>
    requires { IsReady theory.now.vocabulary line.now }
    ensures { IfOk result (IsByEntries theory.now [] line.now (IsDefinitionStep theory.now line.now)) }
{
    match definition_step(alloc, theory, line)? {
        Some(SplitJust::Definition { symbol, first }) => {
            let entries = definition_entries(alloc, theory, symbol, first, line)?;
            Ok(Some(entries))
        }
        Some(SplitJust::Split { .. }) => unreachable!(),
        None => Ok(None),
    }
}

/// Entries of a line that says of functions that they choose; None exactly where it says so of none.
pub fn chosen(alloc: Global, theory: &Theory, line: &Form) -> Result<Option<List<Entry>>, Memory>
    requires { IsReady theory.now.vocabulary line.now }
    ensures { IfOk result (IsByEntries theory.now [] line.now (IsChoiceStep theory.now line.now)) }
{
    match choice_step(alloc, theory, line)? {
        Some(just) => {
            let entries = choice_entries(alloc, theory, &just, line)?;
            Ok(Some(entries))
        }
        None => Ok(None),
    }
}
