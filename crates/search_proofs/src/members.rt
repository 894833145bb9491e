//! Proofs of members, each by the facts that its origin names.
ghost use Rattle.std.specs.Prelude.{◌≡◌, ◌<◌, [], List as Clauses, length, IfOk};
ghost use Rattle.std.specs.List.{All as Each};
ghost use Rattle.fof_terms.specs.declared.term.Term.{Term as Image};
ghost use Rattle.clause_form.specs.declared.clause.Clause.{Clause as Disjunction};
ghost use Rattle.saturation.specs.Members.{clauses_of};
ghost use Rattle.search_proofs.specs.code.Derived.{AreDerived, Derives};
ghost use Rattle.saturation.specs.declared.member.Origin.TheVariants.{Inferred as ByInference};
ghost use Rattle.search_proofs.specs.code.Marks.{NameMarked};
ghost use Rattle.search_proofs.specs.code.Members.{IsConcluded, IsPassed, IsPassedIf, IsPremise, PassMembers};
ghost use Rattle.superpose.specs.Drafts.{IsClause};

use crate::formula::formula_of;
use crate::placing::further;
use clause_form::{Clause, Parent};
use derive_kit::Part;
use fof_terms::Signature;
use inference_proofs::step_proof;
use kernel::Proof;
use saturation::{Member, Origin};
use std::alloc::Global;
use tptp_base::{List, Memory};

/// Adds a proof for each needed member that is no input. The first of all facts has the number `start`, and the inputs
/// stand at the numbers that are given. Answers a number for each member, at which it then stands if it is needed.
pub fn push_members(
    alloc: Global,
    signature: &Signature,
    start: u64,
    members: &[Member],
    needed: &[bool],
    of_inputs: &[u64],
    proofs: &mut List<Proof>,
) -> Result<List<u64>, Memory>
    requires clauses { Each (λ m. IsClause signature.now m.clause) members.now }
    requires needed { length needed.now ≡ length members.now }
    requires made { (inputs : Clauses Disjunction) × (length inputs ≡ length of_inputs.now)
        × AreDerived signature.now inputs members.now }
    ensures size { IfOk result (λ numbers. length numbers ≡ length members.now) }
    ensures passed { IfOk result (λ numbers. NameMarked members.now needed.now
        → PassMembers signature.now start members.now needed.now of_inputs.now numbers proofs.old proofs.new) }
{
    let mut numbers = List::new(alloc);
    for at in 0..members.len() {
        let number = push_if_needed(
            alloc,
            signature,
            start,
            &members[..at],
            numbers.as_slice(),
            of_inputs,
            needed[at],
            &members[at],
            proofs,
        )?;
        numbers.push(number)?;
    }
    Ok(numbers)
}

// Adds a proof of the member, if it is needed and no input.
fn push_if_needed(
    alloc: Global,
    signature: &Signature,
    start: u64,
    earlier: &[Member],
    numbers: &[u64],
    of_inputs: &[u64],
    needed: bool,
    member: &Member,
    proofs: &mut List<Proof>,
) -> Result<u64, Memory>
    requires clauses { Each (λ m. IsClause signature.now m.clause) earlier.now }
    requires clause { IsClause signature.now member.now.clause }
    requires size { length numbers.now ≡ length earlier.now }
    requires made { (inputs : Clauses Disjunction) × (length inputs ≡ length of_inputs.now)
        × Derives signature.now inputs (clauses_of earlier.now) member.now.clause member.now.origin }
    ensures { IfOk result (IsPassedIf needed signature.now start earlier.now numbers.now of_inputs.now member.now.clause
        member.now.origin proofs.old proofs.new) }
{
    if !needed {
        return Ok(0);
    }
    push_member(
        alloc, signature, start, earlier, numbers, of_inputs, member, proofs,
    )
}

/// Adds a proof of the member, if it is no input, and answers the number at which the member then stands.
pub fn push_member(
    alloc: Global,
    signature: &Signature,
    start: u64,
    earlier: &[Member],
    numbers: &[u64],
    of_inputs: &[u64],
    member: &Member,
    proofs: &mut List<Proof>,
) -> Result<u64, Memory>
    requires clauses { Each (λ m. IsClause signature.now m.clause) earlier.now }
    requires clause { IsClause signature.now member.now.clause }
    requires size { length numbers.now ≡ length earlier.now }
    requires made { (inputs : Clauses Disjunction) × (length inputs ≡ length of_inputs.now)
        × Derives signature.now inputs (clauses_of earlier.now) member.now.clause member.now.origin }
    ensures { IfOk result (IsPassed signature.now start earlier.now numbers.now of_inputs.now member.now.clause
        member.now.origin proofs.old proofs.new) }
{
    match &member.origin {
        Origin::Input(number) => Ok(of_inputs[*number as usize]),
        Origin::Inferred(first, second, _) => {
            let first = *first as usize;
            let second = *second as usize;
            let proof = conclude(
                alloc,
                signature,
                earlier,
                numbers,
                first,
                second,
                &member.clause,
            )?;
            let number = further(start, proofs.len())?;
            proofs.push(proof.into_inner())?;
            Ok(number)
        }
    }
}

// A proof of the clause by those of two members.
fn conclude(
    alloc: Global,
    signature: &Signature,
    members: &[Member],
    numbers: &[u64],
    first: usize,
    second: usize,
    clause: &Clause,
) -> Result<Part, Memory>
    requires clauses { Each (λ m. IsClause signature.now m.clause) members.now }
    requires clause { IsClause signature.now clause.now }
    requires size { length numbers.now ≡ length members.now }
    requires made { (images : Clauses Image)
        × Derives signature.now [] (clauses_of members.now) clause.now (ByInference first second images) }
    ensures { IfOk result (IsConcluded signature.now members.now numbers.now first second clause.now) }
{
    let mut parents = List::new(alloc);
    parents.push(premise(alloc, members, numbers, first)?)?;
    parents.push(premise(alloc, members, numbers, second)?)?;
    let line = formula_of(alloc, clause)?;
    step_proof(alloc, signature, parents.as_slice(), &line)
}

// The clause of the member, at its number.
fn premise(alloc: Global, members: &[Member], numbers: &[u64], at: usize) -> Result<Parent, Memory>
    requires within { at < length members.now }
    requires size { length numbers.now ≡ length members.now }
    ensures { IfOk result (IsPremise members.now numbers.now at) }
{
    let form = formula_of(alloc, &members[at].clause)?;
    Ok(Parent {
        number: numbers[at],
        form,
    })
}
