ghost use Rattle.std.specs.Prelude.{◌≡◌, ◌≤◌, ◌<◌, ◌+◌, ◌∷◌, [], ℕ, IfOk, MatchOption, Some, false, true, not, length};
ghost use Rattle.std.specs.Prelude.{flat_map, slice_get};
ghost use Rattle.std.specs.List.{list_any};
ghost use Rattle.clause_form.specs.Norm.{node as node_of, members_of, ends, join as joined_of, joined_flat};
ghost use Rattle.fof_terms.specs.declared.form.Form.{Form as Formula};
ghost use Rattle.kernel.specs.declared.proof.Proof.{ImpI, OrE, Hyp};
ghost use Rattle.norm_proofs.specs.code.Steps.{Between};
ghost use Rattle.norm_proofs.specs.code.Joining.{numbered, spread_tree, lone_tree, gather_tree, Stands, SpreadTo};
ghost use Rattle.norm_proofs.specs.code.Joining.{GatherTo};
ghost use Rattle.norm_proofs.specs.code.Settled.{ended_tree, alone_tree};

use crate::links::{plain_link, toward};
use crate::steps::{copy, node, same, then, under};
use clause_form::{is_end, join_flat, own_members, push_members};
use derive_kit::{Part, and_e, and_i, hyp, or_e, or_i};
use fof_terms::{Form, copy_all, equal_all};
use kernel::Proof;
use std::alloc::Global;
use tptp_base::{Boxed, List, Memory};

// The member of that number by the node, or the node by it.
fn lone_piece(alloc: Global, kind: bool, whole: &[Form], number: u32) -> Result<Part, Memory>
    ensures { IfOk result (λ made. made ≡ lone_tree kind whole.now number) }
{
    let own = hyp(alloc, 0)?;
    if kind {
        return and_e(alloc, number, own);
    }
    or_i(alloc, copy_all(alloc, whole)?, number, own)
}

// A member of the member of that number by the node, or the node by it.
fn spread_piece(
    alloc: Global,
    kind: bool,
    whole: &[Form],
    number: u32,
    inner: &[Form],
    place: u32,
) -> Result<Part, Memory>
    ensures { IfOk result (λ made. made ≡ spread_tree kind whole.now number inner.now place) }
{
    let own = hyp(alloc, 0)?;
    if kind {
        return and_e(alloc, place, and_e(alloc, number, own)?);
    }
    let one = or_i(alloc, copy_all(alloc, inner)?, place, own)?;
    or_i(alloc, copy_all(alloc, whole)?, number, one)
}

// The same for each member of the member.
fn spread_pieces(
    alloc: Global,
    kind: bool,
    whole: &[Form],
    number: u32,
    inner: &[Form],
) -> Result<List<Proof>, Memory>
    requires { length inner.now ≤ 100000 }
    ensures { IfOk result (λ made. made ≡ numbered (spread_tree kind whole.now number inner.now) 0 (length inner.now)) }
{
    let mut made = List::new(alloc);
    for place in 0..inner.len() {
        let piece = spread_piece(alloc, kind, whole, number, inner, place as u32)?;
        made.push(piece.into_inner())?;
    }
    Ok(made)
}

// The member's own members by the node, or the node by each of them.
fn spread(
    alloc: Global,
    kind: bool,
    whole: &[Form],
    number: u32,
    form: &Form,
) -> Result<List<Proof>, Memory>
    requires { length (members_of kind form.now) ≤ 100000 }
    ensures { IfOk result (λ made. slice_get whole.now number ≡ Some form.now
        → SpreadTo kind whole.now (members_of kind form.now) made) }
{
    match own_members(kind, form) {
        Some(inner) => spread_pieces(alloc, kind, whole, number, inner),
        None => {
            let mut made = List::new(alloc);
            made.push(lone_piece(alloc, kind, whole, number)?.into_inner())?;
            Ok(made)
        }
    }
}

// All members of members by the node, or the node by each of them.
fn spread_all(alloc: Global, kind: bool, whole: &[Form]) -> Result<List<Proof>, Memory>
    requires few { length whole.now ≤ 100000 }
    requires small { length (flat_map (members_of kind) whole.now) ≤ 100000 }
    ensures { IfOk result (λ made. SpreadTo kind whole.now (flat_map (members_of kind) whole.now) made) }
{
    let mut made = List::new(alloc);
    for number in 0..whole.len() {
        let pieces = spread(alloc, kind, whole, number as u32, &whole[number])?;
        made.append(pieces)?;
    }
    Ok(made)
}

// So many pieces for the members from that number on.
fn lone_pieces(
    alloc: Global,
    kind: bool,
    flat: &[Form],
    start: usize,
    count: usize,
) -> Result<List<Proof>, Memory>
    requires { start + count ≤ 100000 }
    ensures { IfOk result (λ made. made ≡ numbered (lone_tree kind flat.now) start count) }
{
    let mut made = List::new(alloc);
    for place in 0..count {
        let piece = lone_piece(alloc, kind, flat, (start + place) as u32)?;
        made.push(piece.into_inner())?;
    }
    Ok(made)
}

// The node of the members from that number on by the joined node, or that by it.
fn gather_pieces(
    alloc: Global,
    kind: bool,
    flat: &[Form],
    start: usize,
    count: usize,
) -> Result<Part, Memory>
    requires { start + count ≤ 100000 }
    ensures { IfOk result (λ made. made ≡ gather_tree kind flat.now start count) }
{
    let pieces = lone_pieces(alloc, kind, flat, start, count)?;
    if kind {
        return and_i(alloc, pieces);
    }
    let own = hyp(alloc, 0)?;
    or_e(alloc, node(alloc, false, flat)?.into_inner(), own, pieces)
}

// The member, whose own members stand from that number on, by the joined node, or that by it.
fn gather(
    alloc: Global,
    kind: bool,
    flat: &[Form],
    start: usize,
    form: &Form,
) -> Result<Part, Memory>
    requires { start + length (members_of kind form.now) ≤ 100000 }
    ensures { IfOk result (λ made. Stands flat.now start (members_of kind form.now)
        → GatherTo kind flat.now (form.now ∷ []) (made ∷ [])) }
{
    match own_members(kind, form) {
        Some(inner) => gather_pieces(alloc, kind, flat, start, inner.len()),
        None => lone_piece(alloc, kind, flat, start as u32),
    }
}

// The number of the formula's own members.
fn member_count(kind: bool, form: &Form) -> usize
    ensures { result ≡ length (members_of kind form.now) }
{
    match own_members(kind, form) {
        Some(inner) => inner.len(),
        None => 1,
    }
}

// The members by the joined node, or that by each of them.
fn gather_all(
    alloc: Global,
    kind: bool,
    whole: &[Form],
    flat: &[Form],
) -> Result<List<Proof>, Memory>
    requires small { length flat.now ≤ 100000 }
    requires joined { flat.now ≡ flat_map (members_of kind) whole.now }
    ensures { IfOk result (λ made. GatherTo kind flat.now whole.now made) }
{
    let mut made = List::new(alloc);
    let mut start: usize = 0;
    for number in 0..whole.len() {
        let piece = gather(alloc, kind, flat, start, &whole[number])?;
        made.push(piece.into_inner())?;
        start += member_count(kind, &whole[number]);
    }
    Ok(made)
}

// The members of the members.
pub(crate) fn flatten(alloc: Global, kind: bool, whole: &[Form]) -> Result<List<Form>, Memory>
    ensures { IfOk result (λ flat. flat ≡ flat_map (members_of kind) whole.now) }
{
    let mut flat = List::new(alloc);
    for form in whole {
        push_members(&mut flat, kind, form.copy(alloc)?)?;
    }
    Ok(flat)
}

// Between the node and the node of the members of its members.
fn flat_step(
    alloc: Global,
    kind: bool,
    forth: bool,
    whole: &[Form],
    flat: &[Form],
) -> Result<Part, Memory>
    requires few { length whole.now ≤ 100000 }
    requires small { length flat.now ≤ 100000 }
    requires joined { flat.now ≡ flat_map (members_of kind) whole.now }
    ensures { IfOk result (λ made. (n : ℕ) → Between forth n made (node_of kind whole.now) (node_of kind flat.now)) }
{
    if toward(kind, forth) {
        let pieces = spread_all(alloc, kind, whole)?;
        return plain_link(alloc, kind, forth, whole, flat, pieces);
    }
    let pieces = gather_all(alloc, kind, whole, flat)?;
    plain_link(alloc, kind, forth, whole, flat, pieces)
}

// The number of a formula that is falsehood, or under minus truth.
fn find_end(kind: bool, flat: &[Form]) -> Option<usize>
    ensures { MatchOption result (list_any (ends kind) flat.now ≡ false)
        (λ k. (k < length flat.now) × ((a : Formula) × (slice_get flat.now k ≡ Some a) × (ends kind a ≡ true))) }
{
    for number in 0..flat.len() {
        if is_end(kind, &flat[number]) {
            return Some(number);
        }
    }
    None
}

// Between a conjunction with falsehood at that number and falsehood, or a disjunction with truth and truth.
fn ended(alloc: Global, kind: bool, forth: bool, flat: &[Form], number: u32) -> Result<Part, Memory>
    ensures { IfOk result (λ made. made ≡ ended_tree kind forth flat.now number) }
{
    let own = hyp(alloc, 0)?;
    if forth {
        let last = if kind {
            and_e(alloc, number, own)?
        } else {
            and_i(alloc, List::new(alloc))?
        };
        return under(alloc, node(alloc, kind, flat)?, last);
    }
    let end = Boxed::new(alloc, clause_form::node(!kind, List::new(alloc)))?;
    if kind {
        let goal = node(alloc, true, flat)?;
        let last = or_e(alloc, goal.into_inner(), own, List::new(alloc))?;
        return under(alloc, end, last);
    }
    let last = or_i(alloc, copy_all(alloc, flat)?, number, own)?;
    under(alloc, end, last)
}

// Between the node of one formula and the formula.
fn alone(alloc: Global, kind: bool, forth: bool, form: &Form) -> Result<Part, Memory>
    ensures { IfOk result (λ made. made ≡ alone_tree kind forth form.now) }
{
    let own = hyp(alloc, 0)?;
    if forth {
        if kind {
            let last = and_e(alloc, 0, own)?;
            return under(alloc, lone_node(alloc, kind, form)?, last);
        }
        let arms = lone_list(alloc, hyp(alloc, 0)?)?;
        let last = or_e(alloc, form.copy(alloc)?, own, arms)?;
        return under(alloc, lone_node(alloc, kind, form)?, last);
    }
    if kind {
        let last = and_i(alloc, lone_list(alloc, own)?)?;
        return under(alloc, copy(alloc, form)?, last);
    }
    let mut members = List::new(alloc);
    members.push(form.copy(alloc)?)?;
    let last = or_i(alloc, members, 0, own)?;
    under(alloc, copy(alloc, form)?, last)
}

// The node of one formula.
fn lone_node(alloc: Global, kind: bool, form: &Form) -> Result<Boxed<Form>, Memory>
    ensures { IfOk result (λ made. made ≡ node_of kind (form.now ∷ [])) }
{
    let mut members = List::new(alloc);
    members.push(form.copy(alloc)?)?;
    Ok(Boxed::new(alloc, clause_form::node(kind, members))?)
}

// One proof in a list.
fn lone_list(alloc: Global, part: Part) -> Result<List<Proof>, Memory>
    ensures { IfOk result (λ made. made ≡ part ∷ []) }
{
    let mut made = List::new(alloc);
    made.push(part.into_inner())?;
    Ok(made)
}

// Between the node of formulas none of which is of that kind and the joined node.
fn settle(alloc: Global, kind: bool, forth: bool, flat: &[Form]) -> Result<Part, Memory>
    requires { length flat.now ≤ 100000 }
    ensures { IfOk result (λ made. (n : ℕ) → Between forth n made (node_of kind flat.now) (joined_flat kind flat.now)) }
{
    if let Some(number) = find_end(kind, flat) {
        return ended(alloc, kind, forth, flat, number as u32);
    }
    if flat.len() == 1 {
        return alone(alloc, kind, forth, &flat[0]);
    }
    same(alloc, node(alloc, kind, flat)?)
}

// Between the node and the joined node.
pub(crate) fn join_step(
    alloc: Global,
    kind: bool,
    forth: bool,
    whole: &[Form],
) -> Result<Part, Memory>
    requires few { length whole.now ≤ 100000 }
    requires small { length (flat_map (members_of kind) whole.now) ≤ 100000 }
    ensures { IfOk result (λ made. (n : ℕ) → Between forth n made (node_of kind whole.now) (joined_of kind whole.now)) }
{
    let flat = flatten(alloc, kind, whole)?;
    let last = settle(alloc, kind, forth, flat.as_slice())?;
    if equal_all(whole, flat.as_slice()) {
        return Ok(last);
    }
    let before = flat_step(alloc, kind, forth, whole, flat.as_slice())?;
    let joined = Boxed::new(alloc, join_flat(alloc, kind, flat))?;
    then(
        alloc,
        forth,
        node(alloc, kind, whole)?,
        joined,
        before,
        last,
    )
}
