//! From a proof over the variables of a line and further ones to a proof of the line.
ghost use Rattle.std.specs.Prelude.{◌≡◌, IfOk};
ghost use Rattle.clause_proofs.specs.Closed.{all_tree, inhabit_tree, whole_tree};

use derive_kit::{Part, all_i, hyp, inhabit, not_e, raa};
use fof_terms::{Form, SortId};
use std::alloc::Global;
use tptp_base::{List, Memory};

/// The line, by a proof of its body over its variables, whose sorts are given the outermost first, and over further
/// ones, the sort of the nearest of which is first.
pub fn whole(
    alloc: Global,
    line: &Form,
    sorts: &[SortId],
    more: &[SortId],
    part: Part,
) -> Result<Part, Memory>
    ensures { IfOk result (λ made. made ≡ whole_tree line.now sorts.now more.now part) }
{
    let all = for_all(alloc, sorts, part)?;
    let none = not_e(alloc, hyp(alloc, 0)?, all)?;
    let inner = inhabited(alloc, more, none)?;
    raa(alloc, line.copy(alloc)?, inner)
}

/// For all of the sorts, the first outermost.
pub fn for_all(alloc: Global, sorts: &[SortId], part: Part) -> Result<Part, Memory>
    ensures { IfOk result (λ made. made ≡ all_tree sorts.now part) }
{
    let mut whole = part;
    for i in 0..sorts.len() {
        let sort = sorts[sorts.len() - 1 - i];
        whole = all_i(alloc, sort, whole)?;
    }
    Ok(whole)
}

/// Falsehood without the variables of these sorts.
pub fn inhabited(alloc: Global, more: &[SortId], part: Part) -> Result<Part, Memory>
    ensures { IfOk result (λ made. made ≡ inhabit_tree more.now part) }
{
    let mut whole = part;
    for sort in more {
        whole = inhabit(alloc, *sort, Form::Or(List::new(alloc)), whole)?;
    }
    Ok(whole)
}
