ghost use Rattle.std.specs.Prelude.{◌≡◌, ◌≤◌, ◌+◌, ◌<◌, ◌^◌, IfOk, map, length, false};
ghost use Rattle.clause_form.specs.Norm.{alone};
ghost use Rattle.kernel.specs.declared.proof.Proof.{Hyp};
ghost use Rattle.norm_proofs.specs.code.Joining.{numbered};
ghost use Rattle.norm_proofs.specs.Numbering.{general as general_tree, near as near_tree};
ghost use Rattle.norm_proofs.specs.code.Alongside.{chosen as chosen_tree, by_segment as segment_tree, member_tree};

use crate::applying::applied;
use crate::steps::{Whole, copy, node};
use clause_form::{Clause, close};
use derive_kit::{Part, all_e, all_i, hyp, imp_e, imp_i, or_e, or_i};
use fof_terms::{Form, SortId, Term, copy_all};
use kernel::Proof;
use std::alloc::Global;
use tptp_base::{List, Memory};

/// All of the sorts over what the part shows, the first outermost.
pub fn general(alloc: Global, sorts: &[SortId], part: Part) -> Result<Part, Memory>
    ensures { IfOk result (λ made. made ≡ general_tree sorts.now part) }
{
    let mut made = part;
    for i in 0..sorts.len() {
        let sort = sorts[sorts.len() - 1 - i];
        made = all_i(alloc, sort, made)?;
    }
    Ok(made)
}

/// The instance at so many variables from the first on, the outermost of them first.
pub fn near(alloc: Global, first: u32, count: usize, part: Part) -> Result<Part, Memory>
    requires { first + count ≤ 100000 }
    ensures { IfOk result (λ made. made ≡ near_tree first count part) }
{
    let mut made = part;
    for i in 0..count {
        let variable = first + (count - 1 - i) as u32;
        made = all_e(alloc, Term::Var(variable), made)?;
    }
    Ok(made)
}

// The disjunction of the formulas, one alone being itself, by the one of that number.
fn chosen(alloc: Global, members: &[Form], number: u32, part: Part) -> Result<Part, Memory>
    ensures { IfOk result (λ made. made ≡ chosen_tree members.now number part) }
{
    if members.len() == 1 {
        return Ok(part);
    }
    or_i(alloc, copy_all(alloc, members)?, number, part)
}

// The disjunction of the formulas, one alone being itself.
fn disjunction(alloc: Global, members: &[Form]) -> Result<Whole, Memory>
    ensures { IfOk result (λ made. made ≡ alone false members.now) }
{
    if members.len() == 1 {
        return copy(alloc, &members[0]);
    }
    node(alloc, false, members)
}

// The disjunction by each of its members from that number on.
fn each_chosen(
    alloc: Global,
    members: &[Form],
    start: usize,
    count: usize,
) -> Result<List<Proof>, Memory>
    requires { start + count ≤ 100000 }
    ensures { IfOk result (λ made. made ≡ numbered (λ j. chosen_tree members.now j (Hyp 0)) start count) }
{
    let mut made = List::new(alloc);
    for place in 0..count {
        let own = hyp(alloc, 0)?;
        let arm = chosen(alloc, members, (start + place) as u32, own)?;
        made.push(arm.into_inner())?;
    }
    Ok(made)
}

// The disjunction by that of so many of its members from that number on.
fn by_segment(
    alloc: Global,
    members: &[Form],
    start: usize,
    count: usize,
    part: Part,
) -> Result<Part, Memory>
    requires { start + count ≤ 100000 }
    ensures { IfOk result (λ made. made ≡ segment_tree members.now start count part) }
{
    if count == 1 {
        return chosen(alloc, members, start as u32, part);
    }
    let arms = each_chosen(alloc, members, start, count)?;
    let goal = disjunction(alloc, members)?;
    or_e(alloc, goal.into_inner(), part, arms)
}

// The closed clause of all by a member's part, which leads to one of the clauses: so many variables stand nearer than
// its own, and so many literals before its own.
pub(crate) fn widen(
    alloc: Global,
    whole: &Clause,
    clause: &Clause,
    members: &[Form],
    after: usize,
    number: usize,
    part: Part,
) -> Result<Part, Memory>
    requires variables { after + length clause.now.sorts ≤ 100000 }
    requires literals { number + length clause.now.lits ≤ 100000 }
    ensures { IfOk result (λ made. made ≡ member_tree whole.now clause.now members.now after number part) }
{
    let own = hyp(alloc, 0)?;
    let inner = near(alloc, after as u32, clause.sorts.len(), own)?;
    let body = by_segment(alloc, members, number, clause.lits.len(), inner)?;
    let all = general(alloc, whole.sorts.as_slice(), body)?;
    let wide = imp_i(alloc, close(alloc, clause)?, all)?;
    let from = applied(alloc, part, hyp(alloc, 0)?)?;
    imp_e(alloc, wide, from)
}
