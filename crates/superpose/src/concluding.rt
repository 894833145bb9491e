//! What an inference leaves, under a substitution, as a clause with few sorts.
ghost use Rattle.std.specs.Prelude.{◌≡◌, ◌≤◌, ◌<◌, ◌^◌, ◌++◌, remove, length, IfOk};
ghost use Rattle.superpose.specs.code.Conclusions.{IsConclusion};

use crate::made::Made;
use crate::naming::{names_of, sorts_of};
use crate::noting::note_left;
use crate::reversing::reversed_sorts;
use clause_form::Lit;
use fof_terms::SortId;
use packed_clauses::{PackedClause, PackedTerms};
use std::alloc::Global;
use tptp_base::{List, Memory};
use unify_terms::Subst;

/// The greatest number of variables of a clause that is made.
const MAX_SORTS: usize = 1_000_000_000;

/// The instances of the literals but the one, and of the rest, as a clause of their own. It has the variables that occur
/// in them, in the order in which they first occur, and one more for each sort of the scope that none of these has. More
/// than 1,000,000,000 variables are treated as want of memory.
pub fn conclude(
    alloc: Global,
    scope: &[SortId],
    subst: &Subst,
    lits: &[Lit],
    at: usize,
    rest: &[Lit],
) -> Result<Made, Memory>
    requires few { length scope.now ≤ 2 ^ 32 }
    requires size { length subst.now ≡ length scope.now }
    requires at { at < length lits.now }
    ensures { IfOk result (λ made. IsConclusion scope.now subst.now (remove lits.now at ++ rest.now) made) }
{
    let images = subst.images.as_slice();
    let mut kept = List::new(alloc);
    note_left(lits, at, rest, images, scope.len(), &mut kept)?;
    let names = names_of(alloc, scope, &mut kept)?;
    if kept.len() > MAX_SORTS {
        return Err(Memory);
    }
    let sorts = sorts_of(alloc, scope, kept.as_slice())?;
    let sorts = reversed_sorts(alloc, sorts.as_slice())?;
    let names = names.images.as_slice();
    let clause = PackedClause::of_instances(
        alloc,
        sorts.as_slice(),
        lits,
        at,
        rest,
        images,
        names,
    )?;
    Ok(Made {
        clause,
        subst: PackedTerms::of_images(alloc, images, names)?,
    })
}
