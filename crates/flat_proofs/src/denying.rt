//! Falsehood from all quantifiers over the disjunction of bodies, where the disjunction of the closed bodies is denied.
ghost use Rattle.std.specs.Prelude.{◌≡◌, ◌≤◌, ◌<◌, ◌^◌, ◌+◌, [], map, length, IfOk};
ghost use Rattle.fof_terms.specs.Lift.{greatest, lift_reach};
ghost use Rattle.flat_form.specs.Flat.{sorts_of};
ghost use Rattle.flat_proofs.specs.code.Gathering.{clashes as clash_trees, denied_arm, refuted as refuted_tree};
ghost use Rattle.flat_proofs.specs.code.Loose.{closed_of};
ghost use Rattle.flat_proofs.specs.code.Members.{seen, HaveRoom};

use derive_kit::{Part, hyp, not_e, or_e, or_i, raa};
use flat_form::Pulled;
use fof_terms::{Form, lift, lift_all};
use kernel::Proof;
use norm_proofs::{general, near};
use std::alloc::Global;
use tptp_base::{List, Memory};

// Falsehood under each of so many formulas that are denied.
fn clashes(alloc: Global, count: usize) -> Result<List<Proof>, Memory>
    requires { count ≤ 100000 }
    ensures { IfOk result (λ made. made ≡ clash_trees count) }
{
    let mut made = List::new(alloc);
    for done in 0..count {
        let denied = hyp(alloc, (count - done) as u32)?;
        let clash = not_e(alloc, denied, hyp(alloc, 0)?)?;
        made.push(clash.into_inner())?;
    }
    Ok(made)
}

// Falsehood by the disjunction of the bodies over so many variables, where all of the bodies are denied.
fn none_left(alloc: Global, closed: &[Form], count: usize) -> Result<Part, Memory>
    requires members { length closed.now ≤ 100000 }
    requires count { count ≤ 100000 }
    ensures { IfOk result (λ made. made ≡ refuted_tree closed.now (length closed.now) count []) }
{
    let whole = hyp(alloc, closed.len() as u32 + 1)?;
    let bodies = near(alloc, 0, count, whole)?;
    let arms = clashes(alloc, closed.len())?;
    or_e(alloc, Form::Or(List::new(alloc)), bodies, arms)
}

// The same where the bodies from that number on aren't denied, by falsehood where that one is denied too. There are so many
// variables before its own.
fn denied(
    alloc: Global,
    closed: &[Form],
    number: u32,
    before: usize,
    member: &Pulled,
    absurd: Part,
) -> Result<Part, Memory>
    requires few { before + length member.now.sorts ≤ 100000 }
    requires body { lift_reach before (length member.now.sorts) member.now.body < 2 ^ 32 }
    requires closed { greatest (map (lift_reach before 0) closed.now) < 2 ^ 32 }
    ensures { IfOk result (λ made. made ≡ denied_arm closed.now number before (seen member.now) absurd) }
{
    let goal = lift(
        alloc,
        &member.body,
        before as u32,
        member.sorts.len() as u32,
    )?;
    let body = raa(alloc, goal, absurd)?;
    let all = general(alloc, member.sorts.as_slice(), body)?;
    let one = or_i(
        alloc,
        lift_all(alloc, closed, before as u32, 0)?,
        number,
        all,
    )?;
    not_e(alloc, hyp(alloc, number)?, one)
}

// Falsehood from all over the disjunction of the bodies, where the disjunction of the closed bodies is denied. There are so
// many variables.
pub(crate) fn refuted(
    alloc: Global,
    members: &[Pulled],
    closed: &[Form],
    count: usize,
) -> Result<Part, Memory>
    requires many { length members.now ≤ 100000 }
    requires few { count ≤ 100000 }
    requires room { HaveRoom (map seen members.now) }
    requires count { count ≡ length (sorts_of (map seen members.now)) }
    requires closed { closed.now ≡ map closed_of (map seen members.now) }
    ensures { IfOk result (λ made. made ≡ refuted_tree closed.now 0 0 (map seen members.now)) }
{
    let mut before = count;
    let mut made = none_left(alloc, closed, count)?;
    for done in 0..members.len() {
        let number = members.len() - 1 - done;
        let member = &members[number];
        before -= member.sorts.len();
        made = denied(alloc, closed, number as u32, before, member, made)?;
    }
    Ok(made)
}
