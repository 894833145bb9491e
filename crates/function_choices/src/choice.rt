//! The choice of functions of a line for a parent's existential variables.
ghost use Rattle.std.specs.Prelude.{◌<◌, IfOk, MatchOption};
ghost use Rattle.clause_form.specs.Norm.{HasNorm};
ghost use Rattle.clause_form.specs.Sizes.{norm_size_of};
ghost use Rattle.clause_rules.specs.Steps.{IsReady};
ghost use Rattle.function_choices.specs.Choice.{IsChoice, IsChoiceBy};

use crate::atoms::{Placed, push_atoms};
use crate::choosing::choose_whole;
use crate::symbols::new_symbols;
use clause_form::{FormFault, norm};
use fof_terms::{Form, SymId};
use proof_check::Theory;
use skolem_fresh::Use;
use std::alloc::Global;
use tptp_base::{Boxed, List, Memory};

/// The most atoms of a line.
pub(crate) const MAX_ATOMS: usize = 10_000;

/// Functions of a line for the existential variables of a parent's normal form.
#[derive(Drop)]
pub struct Choice {
    /// The functions, from the left, that for an outer variable first.
    pub uses: List<Use>,
    /// The normal form with the functions.
    pub form: Form,
}

/// Functions of the line that take the places of the parent's existential variables: for each, the first new symbol of
/// the line that may stand for it. None exactly where there is no choice.
pub fn choose_functions(
    alloc: Global,
    theory: &Theory,
    parent: &Form,
    line: &Form,
) -> Result<Option<Choice>, Memory>
    requires parent { IsReady theory.now.vocabulary parent.now }
    requires line { IsReady theory.now.vocabulary line.now }
    ensures { IfOk result (IsChoice theory.now parent.now line.now) }
{
    let mut atoms = List::new(alloc);
    push_atoms(alloc, line, 0, &mut atoms)?;
    if atoms.len() > MAX_ATOMS {
        return Ok(None);
    }
    let symbols = new_symbols(alloc, theory, line)?;
    choice_by(alloc, theory, parent, symbols.as_slice(), atoms.as_slice())
}

// The same by these symbols and atoms of a line.
pub(crate) fn choice_by(
    alloc: Global,
    theory: &Theory,
    parent: &Form,
    symbols: &[SymId],
    atoms: &[Placed],
) -> Result<Option<Choice>, Memory>
    requires { IsReady theory.now.vocabulary parent.now }
    ensures { IfOk result (IsChoiceBy theory.now.vocabulary atoms.now symbols.now parent.now) }
{
    let Some(norm) = norm_within(alloc, parent)? else {
        return Ok(None);
    };
    let mut uses = List::new(alloc);
    let sig = theory.signature();
    let Some(form) = choose_whole(alloc, sig, norm.get(), symbols, atoms, &mut uses)? else {
        return Ok(None);
    };
    Ok(Some(Choice { uses, form }))
}

// The normal form of the formula, if its norm size is not over the limit.
fn norm_within(alloc: Global, form: &Form) -> Result<Option<Boxed<Form>>, Memory>
    ensures { IfOk result (λ found. MatchOption found (100000 < norm_size_of form.now) (HasNorm form.now)) }
{
    match norm(alloc, form) {
        Ok(made) => Ok(Some(Boxed::new(alloc, made)?)),
        Err(FormFault::Wide) => Ok(None),
        Err(FormFault::Memory) => Err(Memory),
    }
}
