//! A clause whose literals have no variables, and each of them a unit of the refutation contradicts.
ghost use Rattle.std.specs.Prelude.{◌≡◌, ◌<◌, IsTrue, length, IfOk, IfSome};
ghost use Rattle.std.specs.List.{AllZip};
ghost use Rattle.clause_form.specs.Covers.{negated as opposite};
ghost use Rattle.search_proofs.specs.code.Contradictions.{ContradictsIn, IsAlone, IsClosed, IsOpposite, IsPlainly};

use clause_form::{AtomOf, Clause, Lit, are_complementary};
use clause_proofs::form_of_body;
use fof_terms::{Signature, well_sorted};
use saturation::Member;
use std::alloc::Global;
use tptp_base::{List, Memory};

/// A member whose literals have no variables, and for each of them a member that is its opposite alone.
#[derive(Drop)]
pub(crate) struct Contradiction {
    /// The number of the member.
    pub(crate) clause: usize,
    /// Those of the others, that of the first literal's opposite first.
    pub(crate) opposites: List<usize>,
}

/// The longest of the needed members whose literals have no variables, if it has more than two literals and needed
/// members contradict each of them. To resolve them away one by one takes as many proofs, and each of these names all
/// literals that are left once for each of them. The members may have variables that occur in no literal, as what an
/// inference gives often has.
pub(crate) fn find_contradiction(
    alloc: Global,
    signature: &Signature,
    members: &[Member],
    needed: &[bool],
) -> Result<Option<Contradiction>, Memory>
    requires { length needed.now ≡ length members.now }
    ensures { IfOk result (λ found. IfSome found (ContradictsIn signature.now members.now)) }
{
    let clause = longest(alloc, signature, members, needed)?;
    if clause >= members.len() {
        return Ok(None);
    }
    contradiction_of(alloc, signature, members, needed, clause)
}

// The number of the needed member without variables in its literals that has the most of them, but at least three; the
// first of several. That it is the longest is not promised: a contradiction of any other member is one too.
fn longest(
    alloc: Global,
    signature: &Signature,
    members: &[Member],
    needed: &[bool],
) -> Result<usize, Memory>
    requires { length needed.now ≡ length members.now }
{
    let mut best = 0;
    let mut most = 2;
    for at in 0..members.len() {
        if needed[at] && is_longer(alloc, signature, &members[at].clause, most)? {
            best = at;
            most = members[at].clause.lits.len();
        }
    }
    Ok(best)
}

// Whether the clause has more literals than so many, and no variables in them.
fn is_longer(
    alloc: Global,
    signature: &Signature,
    clause: &Clause,
    most: usize,
) -> Result<bool, Memory>
    ensures { IfOk result (λ longer. IsTrue longer
        → IsClosed signature.now clause.now.lits × (most < length clause.now.lits)) }
{
    let lits = clause.lits.as_slice();
    if lits.len() <= most {
        return Ok(false);
    }
    let body = form_of_body(alloc, true, lits)?;
    Ok(well_sorted(signature, &[], &body))
}

// The contradiction of this member, if it has more than two literals, no variables in them, and needed members
// contradict each of them.
fn contradiction_of(
    alloc: Global,
    signature: &Signature,
    members: &[Member],
    needed: &[bool],
    clause: usize,
) -> Result<Option<Contradiction>, Memory>
    requires size { length needed.now ≡ length members.now }
    requires within { clause < length members.now }
    ensures { IfOk result (λ found. IfSome found (ContradictsIn signature.now members.now)) }
{
    let member = &members[clause];
    if !is_longer(alloc, signature, &member.clause, 2)? {
        return Ok(None);
    }
    match opposites_of(alloc, members, needed, member.clause.lits.as_slice())? {
        Some(opposites) => Ok(Some(Contradiction { clause, opposites })),
        None => Ok(None),
    }
}

// The number of a needed member for each of the literals, of which it is the opposite alone.
fn opposites_of(
    alloc: Global,
    members: &[Member],
    needed: &[bool],
    lits: &[Lit],
) -> Result<Option<List<usize>>, Memory>
    requires { length needed.now ≡ length members.now }
    ensures { IfOk result (λ found. IfSome found (λ places. AllZip (IsOpposite members.now) lits.now places)) }
{
    let mut places = List::new(alloc);
    for lit in lits {
        match opposite_of(members, needed, lit) {
            Some(place) => places.push(place)?,
            None => return Ok(None),
        }
    }
    Ok(Some(places))
}

// The number of a needed member that is the literal's opposite alone.
fn opposite_of(members: &[Member], needed: &[bool], lit: &Lit) -> Option<usize>
    requires { length needed.now ≡ length members.now }
    ensures { IfSome result (IsOpposite members.now lit.now) }
{
    for at in 0..members.len() {
        if is_needed_opposite(needed[at], &members[at], lit) {
            return Some(at);
        }
    }
    None
}

// Whether the member is needed, and the literal's opposite alone.
fn is_needed_opposite(is_needed: bool, member: &Member, lit: &Lit) -> bool
    ensures { IsTrue result → IsAlone (opposite lit.now) member.now.clause.lits }
{
    if !is_needed {
        return false;
    }
    is_alone(member.clause.lits.as_slice(), lit)
}

// Whether the literal's opposite stands alone.
fn is_alone(lits: &[Lit], lit: &Lit) -> bool
    ensures { IsTrue result → IsAlone (opposite lit.now) lits.now }
{
    if lits.len() == 1 {
        return denies(&lits[0], lit);
    }
    false
}

// Whether the one literal is the opposite of the other, and both are of a predicate.
fn denies(lit: &Lit, other: &Lit) -> bool
    ensures { IsTrue result → IsPlainly (opposite other.now) lit.now }
{
    match &other.atom {
        AtomOf::Pred(_, _) => are_complementary(other, lit),
        AtomOf::Eq(_, _) | AtomOf::True | AtomOf::False => false,
    }
}
