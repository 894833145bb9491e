//! Falsehood from the closed empty clause.
ghost use Rattle.std.specs.Prelude.{◌≡◌, IfOk};
ghost use Rattle.search_proofs.specs.Falsehood.{IsFalsehoodBy};
ghost use Rattle.search_proofs.specs.code.Bodies.{empty_over};

use crate::bodies::{body_by, without_variables};
use clause_form::Clause;
use derive_kit::Part;
use fof_terms::SortId;
use std::alloc::Global;
use tptp_base::{List, Memory};

/// Falsehood, by the formula of this number, which says it for all of the sorts, the first outermost: so it has the
/// empty clause.
pub fn falsehood_by(alloc: Global, number: u64, sorts: &[SortId]) -> Result<Part, Memory>
    ensures { IfOk result (IsFalsehoodBy number sorts.now) }
{
    let empty = empty_clause(alloc, sorts)?;
    let part = body_by(alloc, number, &empty)?;
    without_variables(alloc, sorts, part)
}

// The empty clause over these sorts.
fn empty_clause(alloc: Global, sorts: &[SortId]) -> Result<Clause, Memory>
    ensures { IfOk result (λ clause. clause ≡ empty_over sorts.now) }
{
    let sorts = List::from_slice(alloc, sorts)?;
    let lits = List::new(alloc);
    Ok(Clause { sorts, lits })
}
