//! Proofs between a node of closed bodies and all quantifiers over the node of the bodies.
ghost use Rattle.std.specs.Prelude.{◌≡◌, ◌+◌, ◌≤◌, ◌<◌, ◌^◌, ℕ, true, false, [], map, length, take, drop, IfOk};
ghost use Rattle.fof_terms.specs.Lift.{lift_reach, lifted};
ghost use Rattle.flat_form.specs.Flat.{sorts_of, bodies_of};
ghost use Rattle.flat_proofs.specs.code.Gathering.{inhabited as inhabited_tree, and_arms as and_trees, gather_tree};
ghost use Rattle.flat_proofs.specs.code.Gathering.{or_arms as or_trees, back_arms as back_trees, back_arm as back_tree};
ghost use Rattle.flat_proofs.specs.code.Loose.{closed_of};
ghost use Rattle.flat_proofs.specs.code.Members.{seen, HaveRoom};
ghost use Rattle.flat_proofs.specs.code.Nodes.{bodies_tree, closed_tree};

use crate::denying::refuted;
use clause_form::node;
use derive_kit::{Part, and_e, and_i, hyp, imp_i, inhabit, or_e, or_i, raa};
use flat_form::{Pulled, closed_by};
use fof_terms::{Form, SortId, copy_all, lift};
use kernel::Proof;
use norm_proofs::{general, near};
use std::alloc::Global;
use tptp_base::{Boxed, List, Memory};

// What the part shows over variables of these sorts, of which the formula doesn't speak.
pub(crate) fn inhabited(
    alloc: Global,
    sorts: &[SortId],
    form: &Form,
    part: Part,
) -> Result<Part, Memory>
    requires few { length sorts.now ≤ 100000 }
    requires room { (by : ℕ) → by ≤ length sorts.now → lift_reach by 0 form.now < 2 ^ 32 }
    ensures { IfOk result (λ made. made ≡ inhabited_tree sorts.now form.now part) }
{
    let mut made = part;
    for done in 0..sorts.len() {
        let place = sorts.len() - 1 - done;
        let goal = lift(alloc, form, place as u32, 0)?;
        made = inhabit(alloc, sorts[place], goal, made)?;
    }
    Ok(made)
}

// Each body at its own variables, by the conjunction of the closed bodies. There are so many variables.
fn and_arms(alloc: Global, members: &[Pulled], count: usize) -> Result<List<Proof>, Memory>
    requires many { length members.now ≤ 100000 }
    requires few { count ≤ 100000 }
    requires count { count ≡ length (sorts_of (map seen members.now)) }
    ensures { IfOk result (λ made. made ≡ and_trees 0 (map seen members.now)) }
{
    let mut made = List::new(alloc);
    let mut left = count;
    for number in 0..members.len() {
        let own = members[number].sorts.len();
        left -= own;
        let member = and_e(alloc, number as u32, hyp(alloc, 0)?)?;
        let arm = near(alloc, left as u32, own, member)?;
        made.push(arm.into_inner())?;
    }
    Ok(made)
}

// The disjunction of the bodies by each closed body. There are so many variables.
fn or_arms(
    alloc: Global,
    bodies: &[Form],
    members: &[Pulled],
    count: usize,
) -> Result<List<Proof>, Memory>
    requires many { length members.now ≤ 100000 }
    requires few { count ≤ 100000 }
    requires count { count ≡ length (sorts_of (map seen members.now)) }
    ensures { IfOk result (λ made. made ≡ or_trees bodies.now 0 (map seen members.now)) }
{
    let mut made = List::new(alloc);
    let mut left = count;
    for number in 0..members.len() {
        let own = members[number].sorts.len();
        left -= own;
        let body = near(alloc, left as u32, own, hyp(alloc, 0)?)?;
        let arm = or_i(alloc, copy_all(alloc, bodies)?, number as u32, body)?;
        made.push(arm.into_inner())?;
    }
    Ok(made)
}

// The closed body of the member of that number, by all quantifiers over the conjunction of the bodies. The variables of
// those before have the first so many of the sorts.
fn back_arm(
    alloc: Global,
    sorts: &[SortId],
    before: usize,
    number: u32,
    member: &Pulled,
    closed: &Form,
) -> Result<Part, Memory>
    requires few { length sorts.now ≤ 100000 }
    requires sorts { before + length member.now.sorts ≤ length sorts.now }
    requires body { lift_reach before (length member.now.sorts) member.now.body < 2 ^ 32 }
    requires later { (by : ℕ) → by ≤ length sorts.now
        → lift_reach by 0 (lifted before (length member.now.sorts) member.now.body) < 2 ^ 32 }
    requires closed { (by : ℕ) → by ≤ length sorts.now → lift_reach by 0 closed.now < 2 ^ 32 }
    ensures { IfOk result (λ made. made
        ≡ back_tree (take before sorts.now) before number (seen member.now) closed.now
        (drop (before + length member.now.sorts) sorts.now) (length sorts.now)) }
{
    let own = member.sorts.len();
    let end = before + own;
    let whole = near(alloc, 0, sorts.len(), hyp(alloc, 0)?)?;
    let picked = and_e(alloc, number, whole)?;
    let body = lift(alloc, &member.body, before as u32, own as u32)?;
    let over_later = inhabited(alloc, &sorts[end..], &body, picked)?;
    let all = general(alloc, member.sorts.as_slice(), over_later)?;
    inhabited(alloc, &sorts[..before], closed, all)
}

// The same for each member.
fn back_arms(
    alloc: Global,
    members: &[Pulled],
    sorts: &[SortId],
    closed: &[Form],
) -> Result<List<Proof>, Memory>
    requires many { length members.now ≤ 100000 }
    requires few { length sorts.now ≤ 100000 }
    requires room { HaveRoom (map seen members.now) }
    requires sorts { sorts.now ≡ sorts_of (map seen members.now) }
    requires closed { closed.now ≡ map closed_of (map seen members.now) }
    ensures { IfOk result (λ made. made ≡ back_trees [] 0 (map seen members.now)) }
{
    let mut made = List::new(alloc);
    let mut before: usize = 0;
    for number in 0..members.len() {
        let member = &members[number];
        let arm = back_arm(alloc, sorts, before, number as u32, member, &closed[number])?;
        made.push(arm.into_inner())?;
        before += member.sorts.len();
    }
    Ok(made)
}

// From the node of the closed bodies to all quantifiers over the node of the bodies.
pub(crate) fn forwards(
    alloc: Global,
    kind: bool,
    members: &[Pulled],
    sorts: &[SortId],
    bodies: &[Form],
    closed: &[Form],
) -> Result<Part, Memory>
    requires many { length members.now ≤ 100000 }
    requires few { length sorts.now ≤ 100000 }
    requires sorts { sorts.now ≡ sorts_of (map seen members.now) }
    requires bodies { bodies.now ≡ bodies_of 0 (map seen members.now) }
    requires closed { closed.now ≡ map closed_of (map seen members.now) }
    ensures { IfOk result (λ made. made ≡ gather_tree kind true (map seen members.now)) }
{
    let inner = node_of_bodies(alloc, kind, members, bodies, sorts.len())?;
    let all = general(alloc, sorts, inner)?;
    imp_i(alloc, node(kind, copy_all(alloc, closed)?), all)
}

// The node of the bodies, by the node of the closed bodies. There are so many variables.
fn node_of_bodies(
    alloc: Global,
    kind: bool,
    members: &[Pulled],
    bodies: &[Form],
    count: usize,
) -> Result<Part, Memory>
    requires many { length members.now ≤ 100000 }
    requires few { count ≤ 100000 }
    requires count { count ≡ length (sorts_of (map seen members.now)) }
    ensures { IfOk result (λ made. made ≡ bodies_tree kind bodies.now (map seen members.now)) }
{
    if kind {
        return and_i(alloc, and_arms(alloc, members, count)?);
    }
    let arms = or_arms(alloc, bodies, members, count)?;
    let own = hyp(alloc, 0)?;
    or_e(alloc, Form::Or(copy_all(alloc, bodies)?), own, arms)
}

// The same back.
pub(crate) fn backwards(
    alloc: Global,
    kind: bool,
    members: &[Pulled],
    sorts: &[SortId],
    bodies: &[Form],
    closed: &[Form],
) -> Result<Part, Memory>
    requires many { length members.now ≤ 100000 }
    requires few { length sorts.now ≤ 100000 }
    requires room { HaveRoom (map seen members.now) }
    requires sorts { sorts.now ≡ sorts_of (map seen members.now) }
    requires bodies { bodies.now ≡ bodies_of 0 (map seen members.now) }
    requires closed { closed.now ≡ map closed_of (map seen members.now) }
    ensures { IfOk result (λ made. made ≡ gather_tree kind false (map seen members.now)) }
{
    let inner = node_of_closed(alloc, kind, members, sorts, closed)?;
    let body = Boxed::new(alloc, node(kind, copy_all(alloc, bodies)?))?;
    let from = closed_by(alloc, sorts, body)?;
    imp_i(alloc, from.into_inner(), inner)
}

// The node of the closed bodies, by all quantifiers over the node of the bodies.
fn node_of_closed(
    alloc: Global,
    kind: bool,
    members: &[Pulled],
    sorts: &[SortId],
    closed: &[Form],
) -> Result<Part, Memory>
    requires many { length members.now ≤ 100000 }
    requires few { length sorts.now ≤ 100000 }
    requires room { HaveRoom (map seen members.now) }
    requires sorts { sorts.now ≡ sorts_of (map seen members.now) }
    requires closed { closed.now ≡ map closed_of (map seen members.now) }
    ensures { IfOk result (λ made. made ≡ closed_tree kind closed.now (map seen members.now)) }
{
    if kind {
        return and_i(alloc, back_arms(alloc, members, sorts, closed)?);
    }
    let absurd = refuted(alloc, members, closed, sorts.len())?;
    raa(alloc, Form::Or(copy_all(alloc, closed)?), absurd)
}
