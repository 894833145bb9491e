// Definitions and the lines that use them.
ghost use Rattle.clause_rules.specs.Steps.{AreReady, IsReady};
ghost use Rattle.derive_kit.specs.Derived.{AreOfTheory, IsDerivedFrom, numbers_of};
ghost use Rattle.split_defs.specs.DefinitionRule.{Defines};
ghost use Rattle.split_defs.specs.DefinitionSearch.{IsFoundDefinition};
ghost use Rattle.split_defs.specs.SplitRule.{IsSplitStep};
ghost use Rattle.clause_form.specs.Paths.{forms_of};
ghost use Rattle.split_defs.specs.SplitSearch.{ShowsSplit};
ghost use Rattle.std.specs.Prelude.{IfOk, MatchOption, []};

use crate::{Control, Probe};
use clause_form::Parent;
use fof_terms::{Form, SymId};
use kernel::Entry;
use proof_check::Theory;
use split_defs::{SplitJust, definition_entries, definition_step, split_entries, split_step};
use std::alloc::Global;
use tptp_base::{List, Memory};

/// Looks for definitions and for lines that use them.
pub trait Splits {
    /// A justification that the line defines a new symbol; None exactly where it defines none.
    fn definition_step(
        alloc: Global,
        theory: &Theory,
        line: &Form,
    ) -> Result<Option<SplitJust>, Memory>
        requires { IsReady theory.now.vocabulary line.now }
        ensures { IfOk result (IsFoundDefinition (Defines theory.now line.now)) };

    /// The entries by which a theory takes a line that defines the symbol, which stands first or second under
    /// its quantifiers.
    fn definition_entries(
        alloc: Global,
        theory: &Theory,
        symbol: SymId,
        first: bool,
        line: &Form,
    ) -> Result<List<Entry>, Memory>
        requires line { IsReady theory.now.vocabulary line.now }
        requires shown { Defines theory.now line.now symbol first }
        ensures { IfOk result (λ entries. IsDerivedFrom theory.now [] entries line.now) };

    /// A justification that the line has names for parts of a parent clause; None exactly where it has none.
    fn split_step(
        alloc: Global,
        theory: &Theory,
        parents: &[Parent],
        line: &Form,
    ) -> Result<Option<SplitJust>, Memory>
        requires ready { AreReady theory.now.vocabulary parents.now }
        requires line { IsReady theory.now.vocabulary line.now }
        ensures { IfOk result (λ answer. MatchOption answer (IsSplitStep theory.now.vocabulary
            (forms_of parents.now) line.now → ⊥) (ShowsSplit theory.now.vocabulary (forms_of parents.now) line.now)) };

    /// The entry that derives the line from its parents, as the justification shows that it has names for parts
    /// of one.
    fn split_entries(
        alloc: Global,
        theory: &Theory,
        just: &SplitJust,
        parents: &[Parent],
        line: &Form,
    ) -> Result<List<Entry>, Memory>
        requires parents { AreOfTheory theory.now parents.now }
        requires ready { AreReady theory.now.vocabulary parents.now }
        requires line { IsReady theory.now.vocabulary line.now }
        requires shows { ShowsSplit theory.now.vocabulary (forms_of parents.now) line.now just.now }
        ensures { IfOk result (λ entries. IsDerivedFrom theory.now (numbers_of parents.now) entries line.now) };
}

impl Splits for Probe {
    fn definition_step(
        alloc: Global,
        theory: &Theory,
        line: &Form,
    ) -> Result<Option<SplitJust>, Memory> {
        definition_step(alloc, theory, line)
    }

    fn definition_entries(
        alloc: Global,
        theory: &Theory,
        symbol: SymId,
        first: bool,
        line: &Form,
    ) -> Result<List<Entry>, Memory> {
        definition_entries(alloc, theory, symbol, first, line)
    }

    fn split_step(
        alloc: Global,
        theory: &Theory,
        parents: &[Parent],
        line: &Form,
    ) -> Result<Option<SplitJust>, Memory> {
        split_step(alloc, theory, parents, line)
    }

    fn split_entries(
        alloc: Global,
        theory: &Theory,
        just: &SplitJust,
        parents: &[Parent],
        line: &Form,
    ) -> Result<List<Entry>, Memory> {
        split_entries(alloc, theory, just, parents, line)
    }
}

impl Splits for Control {
    fn definition_step(
        alloc: Global,
        theory: &Theory,
        line: &Form,
    ) -> Result<Option<SplitJust>, Memory> {
        match definition_step(alloc, theory, line)? {
            Some(SplitJust::Definition { symbol, first }) => {
                Ok(Some(SplitJust::Definition { symbol, first }))
            }
            answer => Ok(answer),
        }
    }

    fn definition_entries(
        alloc: Global,
        theory: &Theory,
        symbol: SymId,
        first: bool,
        line: &Form,
    ) -> Result<List<Entry>, Memory> {
        match definition_entries(alloc, theory, symbol, first, line) {
            Ok(entries) => Ok(entries),
            Err(Memory) => Err(Memory),
        }
    }

    fn split_step(
        alloc: Global,
        theory: &Theory,
        parents: &[Parent],
        line: &Form,
    ) -> Result<Option<SplitJust>, Memory> {
        match split_step(alloc, theory, parents, line)? {
            Some(
                SplitJust::Split {
                    parent,
                    definitions,
                    subst,
                },
            ) => Ok(Some(SplitJust::Split {
                parent,
                definitions,
                subst,
            })),
            answer => Ok(answer),
        }
    }

    fn split_entries(
        alloc: Global,
        theory: &Theory,
        just: &SplitJust,
        parents: &[Parent],
        line: &Form,
    ) -> Result<List<Entry>, Memory> {
        match split_entries(alloc, theory, just, parents, line) {
            Ok(entries) => Ok(entries),
            Err(Memory) => Err(Memory),
        }
    }
}
