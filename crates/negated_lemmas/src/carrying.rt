// A proof is carried under one hypothesis more, the outermost.
ghost use Rattle.std.specs.Prelude.{◌≡◌, ◌+◌, IfOk};
ghost use Rattle.negated_lemmas.specs.code.Carried.{Carries, CarryEach};

use crate::nodes::{
    all_e, all_i, and_e, and_i, ex_e, ex_i, hypothesis, iff_i, iff_l, iff_r, imp_e, imp_i, inhabit,
    line, not_e, not_i, or_e, or_i, raa, reflexive, subst,
};
use derive_kit::Part;
use kernel::Proof;
use std::alloc::Global;
use tptp_base::{List, Memory};

/// The proof under one hypothesis more. It stands below so many others, and before each formula of the theory from
/// number `first` on there is that hypothesis.
#[inline(never)]
#[cycle(carried)]
pub fn carried(alloc: Global, proof: &Proof, first: u64, depth: u32) -> Result<Part, Memory>
    ensures { IfOk result (λ made. Carries first depth proof.now made) }
{
    match proof {
        Proof::Line(number) => line(alloc, *number, first, depth),
        Proof::Hyp(number) => hypothesis(alloc, *number),
        Proof::AndI(parts) => and_i(alloc, parts.as_slice(), first, depth),
        Proof::AndE(member, part) => and_e(alloc, part.get(), *member, first, depth),
        Proof::OrI(members, chosen, part) => or_i(
            alloc,
            part.get(),
            members.as_slice(),
            *chosen,
            first,
            depth,
        ),
        Proof::OrE(_, _, _) => or_e(alloc, proof, first, depth),
        Proof::ImpI(left, part) => imp_i(alloc, part.get(), left.get(), first, depth),
        Proof::ImpE(_, _) => imp_e(alloc, proof, first, depth),
        Proof::NotI(body, part) => not_i(alloc, part.get(), body.get(), first, depth),
        Proof::NotE(_, _) => not_e(alloc, proof, first, depth),
        Proof::Raa(goal, part) => raa(alloc, part.get(), goal.get(), first, depth),
        Proof::IffI(_, _, _, _) => iff_i(alloc, proof, first, depth),
        Proof::IffL(_, _) => iff_l(alloc, proof, first, depth),
        Proof::IffR(_, _) => iff_r(alloc, proof, first, depth),
        Proof::AllI(sort, part) => all_i(alloc, part.get(), *sort, first, depth),
        Proof::AllE(value, part) => all_e(alloc, part.get(), value.get(), first, depth),
        Proof::ExI(sort, body, value, part) => ex_i(
            alloc,
            part.get(),
            *sort,
            body.get(),
            value.get(),
            first,
            depth,
        ),
        Proof::ExE(_, _, _) => ex_e(alloc, proof, first, depth),
        Proof::Refl(term) => reflexive(alloc, term.get()),
        Proof::Subst(_, _, _, _) => subst(alloc, proof, first, depth),
        Proof::Inhabit(sort, goal, part) => inhabit(
            alloc,
            part.get(),
            *sort,
            goal.get(),
            first,
            depth,
        ),
    }
}

// The same of a part that stands under one hypothesis of its node.
#[inline(always)]
#[cycle(carried)]
pub fn carried_under(alloc: Global, part: &Proof, first: u64, depth: u32) -> Result<Part, Memory>
    ensures { IfOk result (λ made. Carries first (depth + 1) part.now made) }
{
    let inner = deeper(depth)?;
    carried(alloc, part, first, inner)
}

// The same of each proof.
#[inline(never)]
#[cycle(carried)]
pub fn carried_each(
    alloc: Global,
    parts: &[Proof],
    first: u64,
    depth: u32,
) -> Result<List<Proof>, Memory>
    ensures { IfOk result (λ made. CarryEach first depth parts.now made) }
{
    let mut made = List::new(alloc);
    for part in parts {
        let next = carried(alloc, part, first, depth)?;
        made.push(next.into_inner())?;
    }
    Ok(made)
}

// One hypothesis more. More than 2^32, which no number names, are answered by want of memory.
pub fn deeper(depth: u32) -> Result<u32, Memory>
    ensures { IfOk result (λ inner. inner ≡ depth + 1) }
{
    match depth.checked_add(1) {
        Some(inner) => Ok(inner),
        None => Err(Memory),
    }
}
