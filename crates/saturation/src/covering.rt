ghost use Rattle.std.specs.Prelude.{◌≡◌, [], IfOk, IsTrue, ◌↔◌, Bool, List as Members};
ghost use Rattle.std.specs.List.{All as Each};
ghost use Rattle.clause_form.specs.declared.clause.Clause.{Clause as Disjunction};
ghost use Rattle.saturation.specs.declared.member.Member.{Member as Listed};
ghost use Rattle.subsumption.specs.Mask.{mask};
ghost use Rattle.subsumption.specs.Subsumes.{Subsumes};
ghost use Rattle.superpose.specs.Drafts.{IsClause};
ghost use Rattle.saturation.specs.Lists.{IsCoveredIn};
ghost use Rattle.saturation.specs.Members.{clauses_of};
ghost use Rattle.saturation.specs.code.Known.{AreKnown};
ghost use Rattle.saturation.specs.code.Search.{IsUnderWay};
ghost use Rattle.saturation.specs.code.Steps.{AreCoveredIn, IsNext};

use crate::known::Known;
use crate::member::Member;
use crate::queue::Queue;
use crate::waiting::Waiting;
use clause_form::Clause;
use fof_terms::Signature;
use std::alloc::Global;
use subsumption::{is_within, mask_of, subsumes};
use tptp_base::Memory;

/// Whether a member covers the clause.
pub fn is_covered(
    alloc: Global,
    signature: &Signature,
    list: &[Member],
    known: &[Known],
    clause: &Clause,
) -> Result<bool, Memory>
    requires members { Each (IsClause signature.now) (clauses_of list.now) }
    requires known { AreKnown (clauses_of list.now) known.now }
    requires clause { IsClause signature.now clause.now }
    ensures { IfOk result (λ b. IsTrue b ↔ IsCoveredIn signature.now (clauses_of list.now) clause.now) }
{
    let others = mask_of(clause);
    for at in 0..list.len() {
        if covers(
            alloc,
            signature,
            &list[at].clause,
            known[at].mask,
            clause,
            others,
        )? {
            return Ok(true);
        }
    }
    Ok(false)
}

// Whether the one clause subsumes the other, by their masks at first.
fn covers(
    alloc: Global,
    signature: &Signature,
    member: &Clause,
    bits: u64,
    clause: &Clause,
    others: u64,
) -> Result<bool, Memory>
    requires member { IsClause signature.now member.now }
    requires clause { IsClause signature.now clause.now }
    requires bits { bits ≡ mask member.now.lits }
    requires others { others ≡ mask clause.now.lits }
    ensures { IfOk result (λ b. IsTrue b ↔ Subsumes signature.now member.now clause.now) }
{
    if !is_within(bits, others) {
        return Ok(false);
    }
    subsumes(alloc, signature, member, clause)
}

/// Takes the lightest member that waits and that none of the list covers, and drops those that are lighter.
pub fn next_open(
    alloc: Global,
    signature: &Signature,
    list: &[Member],
    known: &[Known],
    queue: &mut Queue,
) -> Result<Option<Member>, Memory>
    requires members { Each (IsClause signature.now) (clauses_of list.now) }
    requires known { AreKnown (clauses_of list.now) known.now }
    requires waiting { Each (λ m. IsClause signature.now m.clause) queue.old }
    ensures { IfOk result (λ r. (whole : Bool) (inputs : Members Disjunction) (heavy : Members Listed)
        → IsUnderWay signature.now whole inputs (clauses_of list.now) [] queue.old heavy
        → IsNext signature.now whole inputs (clauses_of list.now) queue.new heavy r) }
{
    while let Some(next) = queue.pop() {
        let member = next.member(alloc)?;
        if !is_covered(alloc, signature, list, known, &member.clause)? {
            return Ok(Some(member));
        }
    }
    Ok(None)
}

/// Whether each of the members is covered by one of the list.
pub fn all_covered(
    alloc: Global,
    signature: &Signature,
    list: &[Member],
    known: &[Known],
    others: &[Waiting],
) -> Result<bool, Memory>
    requires members { Each (IsClause signature.now) (clauses_of list.now) }
    requires known { AreKnown (clauses_of list.now) known.now }
    requires others { Each (λ m. IsClause signature.now m.clause) others.now }
    ensures { IfOk result (AreCoveredIn signature.now (clauses_of list.now) others.now) }
{
    for member in others {
        let clause = member.clause(alloc)?;
        if !is_covered(alloc, signature, list, known, &clause)? {
            return Ok(false);
        }
    }
    Ok(true)
}
