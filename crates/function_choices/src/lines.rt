//! Lines by a parent with functions in place of its existential variables.
ghost use Rattle.std.specs.Prelude.{◌≡◌, ◌<◌, IfOk, IfSome, length};
ghost use Rattle.clause_rules.specs.Steps.{AreReady, IsReady};
ghost use Rattle.clausified_steps.specs.Clausified.{IsClausifiedBy};
ghost use Rattle.derive_kit.specs.Derived.{AreOfTheory};

use crate::atoms::{Placed, push_atoms};
use crate::choice::{MAX_ATOMS, choice_by};
use crate::symbols::new_symbols;
use clause_form::Parent;
use clausified_steps::clausified_by;
use fof_terms::{Form, SymId};
use kernel::Entry;
use proof_check::Theory;
use std::alloc::Global;
use tptp_base::{List, Memory};

/// Entries that derive the line, where with the functions that are chosen it follows part by part from a parent's normal
/// form with them and from the parents. None says nothing: other functions may give the line.
pub fn clausified(
    alloc: Global,
    theory: &Theory,
    parents: &[Parent],
    line: &Form,
) -> Result<Option<List<Entry>>, Memory>
    requires parents { AreOfTheory theory.now parents.now }
    requires ready { AreReady theory.now.vocabulary parents.now }
    requires line { IsReady theory.now.vocabulary line.now }
    ensures { IfOk result (λ answer. IfSome answer (IsClausifiedBy theory.now parents.now line.now)) }
{
    let symbols = new_symbols(alloc, theory, line)?;
    let symbols = symbols.as_slice();
    if symbols.is_empty() {
        return Ok(None);
    }
    let mut atoms = List::new(alloc);
    push_atoms(alloc, line, 0, &mut atoms)?;
    if atoms.len() > MAX_ATOMS {
        return Ok(None);
    }
    for number in 0..parents.len() {
        let found = by_parent(
            alloc,
            theory,
            parents,
            number,
            line,
            symbols,
            atoms.as_slice(),
        )?;
        if let Some(entries) = found {
            return Ok(Some(entries));
        }
    }
    Ok(None)
}

// The same by the parent of that number, with functions that are chosen among these symbols.
fn by_parent(
    alloc: Global,
    theory: &Theory,
    parents: &[Parent],
    number: usize,
    line: &Form,
    symbols: &[SymId],
    atoms: &[Placed],
) -> Result<Option<List<Entry>>, Memory>
    requires number { number < length parents.now }
    requires parents { AreOfTheory theory.now parents.now }
    requires ready { AreReady theory.now.vocabulary parents.now }
    requires line { IsReady theory.now.vocabulary line.now }
    ensures { IfOk result (λ answer. IfSome answer (IsClausifiedBy theory.now parents.now line.now)) }
{
    let found = choice_by(alloc, theory, &parents[number].form, symbols, atoms)?;
    match found {
        Some(choice) => clausified_by(alloc, theory, parents, number, line, &choice.form),
        None => Ok(None),
    }
}
