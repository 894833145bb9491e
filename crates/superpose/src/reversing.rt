//! Sorts, the last one first, in no more memory than they need.
ghost use Rattle.std.specs.Prelude.{◌≡◌, ◌++◌, reverse, IfOk, OnOk};

use fof_terms::SortId;
use std::alloc::Global;
use tptp_base::{List, Memory};

/// The sorts, the last one first.
pub fn reversed_sorts(alloc: Global, sorts: &[SortId]) -> Result<List<SortId>, Memory>
    ensures { IfOk result (λ list. list ≡ reverse sorts.now) }
{
    let mut list = Vec::with_capacity(alloc, sorts.len())?;
    push_reversed(sorts, &mut list)?;
    Ok(List::from_vec(list))
}

/// Puts the sorts behind the others, the last one first.
pub fn push_reversed(sorts: &[SortId], list: &mut Vec<SortId>) -> Result<(), Memory>
    ensures { OnOk result (list.new.items ≡ list.old.items ++ reverse sorts.now) }
{
    for at in 0..sorts.len() {
        list.push(sorts[sorts.len() - 1 - at])?;
    }
    Ok(())
}
