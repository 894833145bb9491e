//! The body of a clause, over its own variables and without them.
ghost use Rattle.std.specs.Prelude.{◌≡◌, reverse, IfOk};
ghost use Rattle.clause_proofs.specs.Closed.{inhabit_tree};
ghost use Rattle.search_proofs.specs.code.Bodies.{ShowsBodyOf, opened_over};
ghost use Rattle.search_proofs.specs.code.Variables.{AreVariables};

use crate::formula::has_or;
use clause_form::Clause;
use clause_proofs::{Opened, inhabited, instance_by, number};
use clause_rules::reversed;
use derive_kit::Part;
use fof_terms::{SortId, Term};
use std::alloc::Global;
use tptp_base::{List, Memory};
use unify_terms::Subst;

/// What stands under the quantifiers of the clause's formula, which has this number, over the clause's own variables.
pub(crate) fn body_by(alloc: Global, number: u64, clause: &Clause) -> Result<Part, Memory>
    ensures { IfOk result (ShowsBodyOf number clause.now) }
{
    let opened = opening_of(alloc, clause)?;
    let images = variables(alloc, clause.sorts.len())?;
    let premise = instance_by(alloc, number, &opened, images)?;
    Ok(premise.part)
}

/// Falsehood without the variables of these sorts, the first outermost, by a part that shows it over them.
pub(crate) fn without_variables(alloc: Global, sorts: &[SortId], part: Part) -> Result<Part, Memory>
    ensures { IfOk result (λ made. made ≡ inhabit_tree (reverse sorts.now) part) }
{
    let nearest_first = reversed(alloc, sorts)?;
    inhabited(alloc, nearest_first.as_slice(), part)
}

// The clause, and how its formula has it.
fn opening_of(alloc: Global, clause: &Clause) -> Result<Opened, Memory>
    ensures { IfOk result (λ opened. opened ≡ opened_over clause.now) }
{
    let is_or = has_or(clause.lits.as_slice());
    let copy = clause.copy(alloc)?;
    Ok(Opened {
        clause: copy,
        is_or,
    })
}

// So many variables, variable 0 first.
fn variables(alloc: Global, count: usize) -> Result<Subst, Memory>
    ensures { IfOk result (AreVariables count) }
{
    let mut images = List::new(alloc);
    for i in 0..count {
        images.push(Term::Var(number(i)?))?;
    }
    Ok(Subst { images })
}
