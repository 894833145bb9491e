//! All facts of a refutation.
ghost use Rattle.std.specs.Prelude.{◌≡◌, ◌+◌, ◌++◌, [], List as Clauses, length, IfOk, OnOk};
ghost use Rattle.std.specs.List.{All as Each};
ghost use Rattle.clause_form.specs.declared.clause.Clause.{Clause as Disjunction};
ghost use Rattle.saturation.specs.Members.{clauses_of};
ghost use Rattle.search_proofs.specs.code.Derived.{AreDerived, IsDerived};
ghost use Rattle.search_proofs.specs.code.Contradictions.{Contradicts, Suffice};
ghost use Rattle.search_proofs.specs.code.Ended.{IsEnded, IsEndedBy, IsEndedByLast, IsSound};
ghost use Rattle.search_proofs.specs.code.Members.{LeadOn};
ghost use Rattle.search_proofs.specs.Placed.{numbers_from, there};
ghost use Rattle.superpose.specs.Drafts.{IsClause};

use crate::contradicting::Contradiction;
use crate::falsehood::falsehood_by;
use crate::members::{push_member, push_members};
use crate::opposing::by_contradiction;
use crate::placing::place_all;
use fof_terms::Signature;
use kernel::Proof;
use saturation::Member;
use std::alloc::Global;
use tptp_base::{List, Memory};

/// Proofs of all facts: those of opened formulas, of wanted inputs and of needed members; of the further member, which
/// is empty, if no contradiction was found; and at last falsehood. The first fact has the number `start`.
pub(crate) fn proofs_of_refutation(
    alloc: Global,
    signature: &Signature,
    start: u64,
    facts: List<Proof>,
    inputs: List<Option<Proof>>,
    members: &[Member],
    needed: &[bool],
    empty: &Member,
    found: &Option<Contradiction>,
) -> Result<List<Proof>, Memory>
    requires clauses { Each (λ m. IsClause signature.now m.clause) members.now }
    requires clause { IsClause signature.now empty.now.clause }
    requires needed { Suffice signature.now members.now empty.now found.now needed.now }
    requires made { (clauses : Clauses Disjunction) × (length clauses ≡ length inputs)
        × AreDerived signature.now clauses members.now
        × IsDerived signature.now clauses (clauses_of members.now) empty.now }
    requires empty { empty.now.clause.lits ≡ [] }
    ensures { IfOk result (LeadOn signature.now start members.now needed.now empty.now
        (numbers_from (start + length facts) inputs) (facts ++ there inputs)) }
{
    let mut proofs = facts;
    let of_inputs = place_all(alloc, start, inputs, &mut proofs)?;
    let of_inputs = of_inputs.as_slice();
    let numbers = push_members(
        alloc,
        signature,
        start,
        members,
        needed,
        of_inputs,
        &mut proofs,
    )?;
    push_falsehood(
        alloc,
        signature,
        start,
        members,
        numbers.as_slice(),
        of_inputs,
        empty,
        found,
        &mut proofs,
    )?;
    Ok(proofs)
}

// Adds falsehood: by the contradiction that was found, or else the further member and then falsehood by it.
fn push_falsehood(
    alloc: Global,
    signature: &Signature,
    start: u64,
    members: &[Member],
    numbers: &[u64],
    of_inputs: &[u64],
    empty: &Member,
    found: &Option<Contradiction>,
    proofs: &mut List<Proof>,
) -> Result<(), Memory>
    requires clauses { Each (λ m. IsClause signature.now m.clause) members.now }
    requires clause { IsClause signature.now empty.now.clause }
    requires size { length numbers.now ≡ length members.now }
    requires made { (inputs : Clauses Disjunction) × (length inputs ≡ length of_inputs.now)
        × IsDerived signature.now inputs (clauses_of members.now) empty.now }
    requires sound { IsSound members.now found.now }
    ensures { OnOk result (IsEnded signature.now start members.now numbers.now of_inputs.now empty.now found.now
        proofs.old proofs.new) }
{
    match found {
        Some(contradiction) => push_contradicted(alloc, members, numbers, contradiction, proofs),
        None => push_last(
            alloc, signature, start, members, numbers, of_inputs, empty, proofs,
        ),
    }
}

// Adds falsehood by the contradiction.
fn push_contradicted(
    alloc: Global,
    members: &[Member],
    numbers: &[u64],
    contradiction: &Contradiction,
    proofs: &mut List<Proof>,
) -> Result<(), Memory>
    requires contradicts { Contradicts members.now contradiction.now }
    requires size { length numbers.now ≡ length members.now }
    ensures { OnOk result (IsEndedBy members.now numbers.now contradiction.now proofs.old proofs.new) }
{
    let falsehood = by_contradiction(alloc, members, numbers, contradiction)?;
    proofs.push(falsehood.into_inner())?;
    Ok(())
}

// Adds the further member, if it is no input, and falsehood by it.
fn push_last(
    alloc: Global,
    signature: &Signature,
    start: u64,
    members: &[Member],
    numbers: &[u64],
    of_inputs: &[u64],
    empty: &Member,
    proofs: &mut List<Proof>,
) -> Result<(), Memory>
    requires clauses { Each (λ m. IsClause signature.now m.clause) members.now }
    requires clause { IsClause signature.now empty.now.clause }
    requires size { length numbers.now ≡ length members.now }
    requires made { (inputs : Clauses Disjunction) × (length inputs ≡ length of_inputs.now)
        × IsDerived signature.now inputs (clauses_of members.now) empty.now }
    ensures { OnOk result (IsEndedByLast signature.now start members.now numbers.now of_inputs.now empty.now proofs.old
        proofs.new) }
{
    let last = push_member(
        alloc, signature, start, members, numbers, of_inputs, empty, proofs,
    )?;
    let falsehood = falsehood_by(alloc, last, empty.clause.sorts.as_slice())?;
    proofs.push(falsehood.into_inner())?;
    Ok(())
}
