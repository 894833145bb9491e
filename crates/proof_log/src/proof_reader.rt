// Proofs are read. The room is how deep trees may still nest. Each function has few values of its own, since as many
// calls of it may be open as trees may nest.
ghost use Rattle.std.specs.Prelude.{◌≡◌, IfOk};
ghost use Rattle.kernel.specs.declared.proof.Proof.{OrE};
ghost use Rattle.proof_log.specs.code.ReadWords.{listed, head};
ghost use Rattle.proof_log.specs.code.Names.{proof_name, proof_names};
ghost use Rattle.proof_log.specs.code.ReadTrees as spec;
ghost use Rattle.proof_log.specs.code.Outcomes.{Reads};

use crate::cursor::Cursor;
use crate::form_reader::{form, forms};
use crate::name::ProofName;
use crate::room::{add, list_for};
use crate::stop::Stop;
use crate::term_reader::boxed_term;
use crate::words::{deep_head, head, large, small};
use fof_terms::Form;
use kernel::Proof;
use std::alloc::{AllocError, Global};
use tptp_base::{Boxed, List};

/// A proof.
#[cycle(proof)]
#[tactic(auto, unfolding(crate::specs::code::ReadTrees::proof))]
pub fn proof(alloc: Global, text: &mut Cursor<'_>, room: usize) -> Result<Boxed<Proof>, Stop>
    ensures { Reads (spec.proof room text.old) result text.new }
{
    if room == 0 {
        Err(deep_head::<ProofName>(text))
    } else {
        proof_within(alloc, text, room - 1)
    }
}

// A proof whose parts have this room.
#[cycle(proof)]
fn proof_within(alloc: Global, text: &mut Cursor<'_>, room: usize) -> Result<Boxed<Proof>, Stop>
    ensures { Reads (spec.behind (head proof_name proof_names)
        (spec.proof_by (spec.term room) (spec.form room) (spec.proof room)) text.old) result text.new }
{
    let name = head(text)?;
    proof_of(alloc, text, room, name)
}

// The proof of this name.
#[cycle(proof)]
fn proof_of(
    alloc: Global,
    text: &mut Cursor<'_>,
    room: usize,
    name: ProofName,
) -> Result<Boxed<Proof>, Stop>
    ensures { Reads (spec.proof_by (spec.term room) (spec.form room) (spec.proof room) name text.old) result text.new }
{
    match name {
        ProofName::Line => line(alloc, text, room),
        ProofName::Hyp => hypothesis(alloc, text, room),
        ProofName::AndI => and_intro(alloc, text, room),
        ProofName::AndE => and_elim(alloc, text, room),
        ProofName::OrI => or_intro(alloc, text, room),
        ProofName::OrE => or_elim(alloc, text, room),
        ProofName::ImpI => implies_intro(alloc, text, room),
        ProofName::ImpE => implies_elim(alloc, text, room),
        ProofName::NotI => not_intro(alloc, text, room),
        ProofName::NotE => not_elim(alloc, text, room),
        ProofName::Raa => by_contradiction(alloc, text, room),
        ProofName::IffI => iff_intro(alloc, text, room),
        ProofName::IffL => iff_left(alloc, text, room),
        ProofName::IffR => iff_right(alloc, text, room),
        ProofName::AllI => all_intro(alloc, text, room),
        ProofName::AllE => all_elim(alloc, text, room),
        ProofName::ExI => exists_intro(alloc, text, room),
        ProofName::ExE => exists_elim(alloc, text, room),
        ProofName::Refl => reflexivity(alloc, text, room),
        ProofName::Subst => substitution(alloc, text, room),
        ProofName::Inhabit => inhabited(alloc, text, room),
    }
}

/// How many proofs there are, and the proofs.
#[inline(never)]
#[cycle(proof)]
#[tactic(auto, unfolding(crate::specs::code::ReadWords::listed))]
pub fn proofs(alloc: Global, text: &mut Cursor<'_>, room: usize) -> Result<List<Proof>, Stop>
    ensures { Reads (listed (spec.proof room) text.old) result text.new }
{
    let count = large(text)?;
    let mut found = list_for(alloc, count)?;
    for _ in 0..count {
        let next = proof(alloc, text, room)?;
        add(&mut found, next)?;
    }
    Ok(found)
}

#[inline(never)]
fn line(alloc: Global, text: &mut Cursor<'_>, room: usize) -> Result<Boxed<Proof>, Stop>
    ensures { Reads (spec.proof_by (spec.term room) (spec.form room)
        (spec.proof room) ProofName.Line text.old) result text.new }
{
    let line = large(text)?;
    Ok(Boxed::new(alloc, Proof::Line(line))?)
}

#[inline(never)]
fn hypothesis(alloc: Global, text: &mut Cursor<'_>, room: usize) -> Result<Boxed<Proof>, Stop>
    ensures { Reads (spec.proof_by (spec.term room) (spec.form room)
        (spec.proof room) ProofName.Hyp text.old) result text.new }
{
    let hypothesis = small(text)?;
    Ok(Boxed::new(alloc, Proof::Hyp(hypothesis))?)
}

#[inline(never)]
#[cycle(proof)]
fn and_intro(alloc: Global, text: &mut Cursor<'_>, room: usize) -> Result<Boxed<Proof>, Stop>
    ensures { Reads (spec.proof_by (spec.term room) (spec.form room)
        (spec.proof room) ProofName.AndI text.old) result text.new }
{
    let parts = proofs(alloc, text, room)?;
    Ok(Boxed::new(alloc, Proof::AndI(parts))?)
}

#[inline(never)]
#[cycle(proof)]
fn and_elim(alloc: Global, text: &mut Cursor<'_>, room: usize) -> Result<Boxed<Proof>, Stop>
    ensures { Reads (spec.proof_by (spec.term room) (spec.form room)
        (spec.proof room) ProofName.AndE text.old) result text.new }
{
    let member = small(text)?;
    let part = proof(alloc, text, room)?;
    Ok(Boxed::new(alloc, Proof::AndE(member, part))?)
}

#[inline(never)]
#[cycle(proof)]
fn or_intro(alloc: Global, text: &mut Cursor<'_>, room: usize) -> Result<Boxed<Proof>, Stop>
    ensures { Reads (spec.proof_by (spec.term room) (spec.form room)
        (spec.proof room) ProofName.OrI text.old) result text.new }
{
    let members = forms(alloc, text, room)?;
    let member = small(text)?;
    let part = proof(alloc, text, room)?;
    Ok(Boxed::new(alloc, Proof::OrI(members, member, part))?)
}

#[inline(never)]
#[cycle(proof)]
fn or_elim(alloc: Global, text: &mut Cursor<'_>, room: usize) -> Result<Boxed<Proof>, Stop>
    ensures { Reads (spec.proof_by (spec.term room) (spec.form room)
        (spec.proof room) ProofName.OrE text.old) result text.new }
{
    let goal = form(alloc, text, room)?;
    let part = proof(alloc, text, room)?;
    let cases = proofs(alloc, text, room)?;
    Ok(by_cases(alloc, goal, part, cases)?)
}

// The proof by cases. It is made where no case is open any more, so that a case in a case takes little stack.
#[inline(never)]
fn by_cases(
    alloc: Global,
    goal: Boxed<Form>,
    part: Boxed<Proof>,
    cases: List<Proof>,
) -> Result<Boxed<Proof>, AllocError>
    ensures { IfOk result (λ whole. whole ≡ OrE goal part cases) }
{
    Boxed::new(alloc, Proof::OrE(goal, part, cases))
}

#[inline(never)]
#[cycle(proof)]
fn implies_intro(alloc: Global, text: &mut Cursor<'_>, room: usize) -> Result<Boxed<Proof>, Stop>
    ensures { Reads (spec.proof_by (spec.term room) (spec.form room)
        (spec.proof room) ProofName.ImpI text.old) result text.new }
{
    let form = form(alloc, text, room)?;
    let part = proof(alloc, text, room)?;
    Ok(Boxed::new(alloc, Proof::ImpI(form, part))?)
}

#[inline(never)]
#[cycle(proof)]
fn implies_elim(alloc: Global, text: &mut Cursor<'_>, room: usize) -> Result<Boxed<Proof>, Stop>
    ensures { Reads (spec.proof_by (spec.term room) (spec.form room)
        (spec.proof room) ProofName.ImpE text.old) result text.new }
{
    let left = proof(alloc, text, room)?;
    let right = proof(alloc, text, room)?;
    Ok(Boxed::new(alloc, Proof::ImpE(left, right))?)
}

#[inline(never)]
#[cycle(proof)]
fn not_intro(alloc: Global, text: &mut Cursor<'_>, room: usize) -> Result<Boxed<Proof>, Stop>
    ensures { Reads (spec.proof_by (spec.term room) (spec.form room)
        (spec.proof room) ProofName.NotI text.old) result text.new }
{
    let form = form(alloc, text, room)?;
    let part = proof(alloc, text, room)?;
    Ok(Boxed::new(alloc, Proof::NotI(form, part))?)
}

#[inline(never)]
#[cycle(proof)]
fn not_elim(alloc: Global, text: &mut Cursor<'_>, room: usize) -> Result<Boxed<Proof>, Stop>
    ensures { Reads (spec.proof_by (spec.term room) (spec.form room)
        (spec.proof room) ProofName.NotE text.old) result text.new }
{
    let left = proof(alloc, text, room)?;
    let right = proof(alloc, text, room)?;
    Ok(Boxed::new(alloc, Proof::NotE(left, right))?)
}

#[inline(never)]
#[cycle(proof)]
fn by_contradiction(alloc: Global, text: &mut Cursor<'_>, room: usize) -> Result<Boxed<Proof>, Stop>
    ensures { Reads (spec.proof_by (spec.term room) (spec.form room)
        (spec.proof room) ProofName.Raa text.old) result text.new }
{
    let form = form(alloc, text, room)?;
    let part = proof(alloc, text, room)?;
    Ok(Boxed::new(alloc, Proof::Raa(form, part))?)
}

#[inline(never)]
#[cycle(proof)]
fn iff_intro(alloc: Global, text: &mut Cursor<'_>, room: usize) -> Result<Boxed<Proof>, Stop>
    ensures { Reads (spec.proof_by (spec.term room) (spec.form room)
        (spec.proof room) ProofName.IffI text.old) result text.new }
{
    let left = form(alloc, text, room)?;
    let right = form(alloc, text, room)?;
    let forth = proof(alloc, text, room)?;
    let back = proof(alloc, text, room)?;
    Ok(Boxed::new(alloc, Proof::IffI(left, right, forth, back))?)
}

#[inline(never)]
#[cycle(proof)]
fn iff_left(alloc: Global, text: &mut Cursor<'_>, room: usize) -> Result<Boxed<Proof>, Stop>
    ensures { Reads (spec.proof_by (spec.term room) (spec.form room)
        (spec.proof room) ProofName.IffL text.old) result text.new }
{
    let left = proof(alloc, text, room)?;
    let right = proof(alloc, text, room)?;
    Ok(Boxed::new(alloc, Proof::IffL(left, right))?)
}

#[inline(never)]
#[cycle(proof)]
fn iff_right(alloc: Global, text: &mut Cursor<'_>, room: usize) -> Result<Boxed<Proof>, Stop>
    ensures { Reads (spec.proof_by (spec.term room) (spec.form room)
        (spec.proof room) ProofName.IffR text.old) result text.new }
{
    let left = proof(alloc, text, room)?;
    let right = proof(alloc, text, room)?;
    Ok(Boxed::new(alloc, Proof::IffR(left, right))?)
}

#[inline(never)]
#[cycle(proof)]
fn all_intro(alloc: Global, text: &mut Cursor<'_>, room: usize) -> Result<Boxed<Proof>, Stop>
    ensures { Reads (spec.proof_by (spec.term room) (spec.form room)
        (spec.proof room) ProofName.AllI text.old) result text.new }
{
    let sort = small(text)?;
    let part = proof(alloc, text, room)?;
    Ok(Boxed::new(alloc, Proof::AllI(sort, part))?)
}

#[inline(never)]
#[cycle(proof)]
fn all_elim(alloc: Global, text: &mut Cursor<'_>, room: usize) -> Result<Boxed<Proof>, Stop>
    ensures { Reads (spec.proof_by (spec.term room) (spec.form room)
        (spec.proof room) ProofName.AllE text.old) result text.new }
{
    let term = boxed_term(alloc, text, room)?;
    let part = proof(alloc, text, room)?;
    Ok(Boxed::new(alloc, Proof::AllE(term, part))?)
}

#[inline(never)]
#[cycle(proof)]
fn exists_intro(alloc: Global, text: &mut Cursor<'_>, room: usize) -> Result<Boxed<Proof>, Stop>
    ensures { Reads (spec.proof_by (spec.term room) (spec.form room)
        (spec.proof room) ProofName.ExI text.old) result text.new }
{
    let sort = small(text)?;
    let form = form(alloc, text, room)?;
    let term = boxed_term(alloc, text, room)?;
    let part = proof(alloc, text, room)?;
    Ok(Boxed::new(alloc, Proof::ExI(sort, form, term, part))?)
}

#[inline(never)]
#[cycle(proof)]
fn exists_elim(alloc: Global, text: &mut Cursor<'_>, room: usize) -> Result<Boxed<Proof>, Stop>
    ensures { Reads (spec.proof_by (spec.term room) (spec.form room)
        (spec.proof room) ProofName.ExE text.old) result text.new }
{
    let goal = form(alloc, text, room)?;
    let left = proof(alloc, text, room)?;
    let right = proof(alloc, text, room)?;
    Ok(Boxed::new(alloc, Proof::ExE(goal, left, right))?)
}

#[inline(never)]
fn reflexivity(alloc: Global, text: &mut Cursor<'_>, room: usize) -> Result<Boxed<Proof>, Stop>
    ensures { Reads (spec.proof_by (spec.term room) (spec.form room)
        (spec.proof room) ProofName.Refl text.old) result text.new }
{
    let term = boxed_term(alloc, text, room)?;
    Ok(Boxed::new(alloc, Proof::Refl(term))?)
}

#[inline(never)]
#[cycle(proof)]
fn substitution(alloc: Global, text: &mut Cursor<'_>, room: usize) -> Result<Boxed<Proof>, Stop>
    ensures { Reads (spec.proof_by (spec.term room) (spec.form room)
        (spec.proof room) ProofName.Subst text.old) result text.new }
{
    let sort = small(text)?;
    let form = form(alloc, text, room)?;
    let left = proof(alloc, text, room)?;
    let right = proof(alloc, text, room)?;
    Ok(Boxed::new(alloc, Proof::Subst(sort, form, left, right))?)
}

#[inline(never)]
#[cycle(proof)]
fn inhabited(alloc: Global, text: &mut Cursor<'_>, room: usize) -> Result<Boxed<Proof>, Stop>
    ensures { Reads (spec.proof_by (spec.term room) (spec.form room)
        (spec.proof room) ProofName.Inhabit text.old) result text.new }
{
    let sort = small(text)?;
    let goal = form(alloc, text, room)?;
    let part = proof(alloc, text, room)?;
    Ok(Boxed::new(alloc, Proof::Inhabit(sort, goal, part))?)
}
