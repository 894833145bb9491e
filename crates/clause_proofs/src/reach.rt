//! The variables of a step: those of its line, and those of its parents' clauses.
ghost use Rattle.std.specs.Prelude.{◌≡◌, ◌+◌, ◌<◌, ◌++◌, length, reverse, IfOk};
ghost use Rattle.kernel.specs.declared.proof.Proof.{Raa};
ghost use Rattle.clause_proofs.specs.Closed.{whole_tree};
ghost use Rattle.clause_proofs.specs.Refuting.{body};

use crate::closing::whole;
use crate::covering::body_form;
use crate::opening::Opened;
use derive_kit::{Part, raa};
use fof_terms::{Form, SortId};
use std::alloc::Global;
use tptp_base::{List, Memory};

/// The sorts of the variables in reach.
#[derive(Drop)]
pub struct Reach {
    /// Those of all variables, the last of which is variable 0.
    pub sorts: List<SortId>,
    /// Those of the parents' variables, the nearest of which is first.
    pub more: List<SortId>,
}

// The sorts, the last one first.
fn reversed(alloc: Global, sorts: &[SortId]) -> Result<List<SortId>, Memory>
    ensures { IfOk result (λ list. list ≡ reverse sorts.now) }
{
    let mut list = List::new(alloc);
    let mut left = List::from_slice(alloc, sorts)?;
    while let Some(last) = left.pop() {
        list.push(last)?;
    }
    Ok(list)
}

/// The variables of the line, then those of the left and of the right clause. More than a proof can have, of which no
/// memory has the formulas, are answered by want of memory.
pub fn variables_of(
    alloc: Global,
    line: &[SortId],
    left: &[SortId],
    right: &[SortId],
) -> Result<Reach, Memory>
    ensures few { IfOk result (λ made. length line.now + length made.more < 2147483647) }
    ensures sorts { IfOk result (λ made. reverse made.sorts ≡ reverse line.now ++ made.more) }
    ensures more { IfOk result (λ made. made.more ≡ reverse left.now ++ reverse right.now) }
{
    if line.len() + (left.len() + right.len()) >= 2_147_483_647 {
        return Err(Memory);
    }
    few_variables_of(alloc, line, left, right)
}

/// The same of clauses with no more variables than a proof can have.
pub fn few_variables_of(
    alloc: Global,
    line: &[SortId],
    left: &[SortId],
    right: &[SortId],
) -> Result<Reach, Memory>
    requires { length line.now + (length left.now + length right.now) < 2147483647 }
    ensures few { IfOk result (λ made. length line.now + length made.more < 2147483647) }
    ensures sorts { IfOk result (λ made. reverse made.sorts ≡ reverse line.now ++ made.more) }
    ensures more { IfOk result (λ made. made.more ≡ reverse left.now ++ reverse right.now) }
{
    let mut more = reversed(alloc, left)?;
    more.append(reversed(alloc, right)?)?;
    let mut sorts = List::from_slice(alloc, right)?;
    sorts.append(List::from_slice(alloc, left)?)?;
    sorts.append(List::from_slice(alloc, line)?)?;
    Ok(Reach { sorts, more })
}

/// The line, by a part that shows falsehood under the negation of its body, over its variables and the further ones.
pub fn closed(
    alloc: Global,
    line: &Form,
    opened: &Opened,
    more: &[SortId],
    part: Part,
) -> Result<Part, Memory>
    ensures { IfOk result (λ made. made
        ≡ whole_tree line.now opened.now.clause.sorts more.now (Raa (body opened.now) part)) }
{
    let shown = raa(alloc, body_form(alloc, opened)?, part)?;
    whole(alloc, line, opened.clause.sorts.as_slice(), more, shown)
}
