//! Whether a line follows part by part.
ghost use Rattle.std.specs.Prelude.{◌≡◌, ◌<◌, length, Some, IfOk, MatchOption};
ghost use Rattle.clause_form.specs.ClauseView.{clause_of};
ghost use Rattle.clause_form.specs.Norm.{HasNorm};
ghost use Rattle.clause_form.specs.Sizes.{norm_size_of};
ghost use Rattle.clause_rules.specs.Steps.{AreReady, IsReady};
ghost use Rattle.norm_parts.specs.ByParts.{IsByParts, IsShownPart};
ghost use Rattle.norm_parts.specs.code.Candidates.{IsChosen};
ghost use Rattle.norm_parts.specs.code.Found.{IsCovered, IsFound};
ghost use Rattle.norm_parts.specs.code.Known.{AreDecided, AreKnown, EachReady};

use crate::candidates::{Candidate, Chosen, add_candidates, first_covered};
use crate::splitting::{copy_path, parts};
use clause_form::{Clause, FormFault, Parent, as_clause, is_trivial, norm};
use clause_rules::Just;
use fof_terms::{Form, Signature};
use rule_steps::cover_step;
use std::alloc::Global;
use tptp_base::{Boxed, List, Memory};

/// What shows each part of the line, in order: that it is true by its form, or the parent, path and substitution of the
/// rule `cover`. None exactly where the line does not follow part by part.
pub fn by_parts(
    alloc: Global,
    signature: &Signature,
    parents: &[Parent],
    line: &Form,
) -> Result<Option<List<Just>>, Memory>
    requires parents { AreReady signature.now parents.now }
    requires line { IsReady signature.now line.now }
    ensures { IfOk result (IsByParts signature.now parents.now line.now) }
{
    match norm_within(alloc, line)? {
        Some(norm) => of_norm(alloc, signature, parents, line, norm.get()),
        None => Ok(None),
    }
}

// The same by the line's normal form.
fn of_norm(
    alloc: Global,
    signature: &Signature,
    parents: &[Parent],
    line: &Form,
    norm: &Form,
) -> Result<Option<List<Just>>, Memory>
    requires parents { AreReady signature.now parents.now }
    requires line { IsReady signature.now line.now }
    requires norm { HasNorm line.now norm.now }
    ensures { IfOk result (IsByParts signature.now parents.now line.now) }
{
    let known = known_clauses(alloc, signature, parents)?;
    let members = parts(alloc, norm)?;
    let members = members.as_slice();
    decided(alloc, signature, parents, known.as_slice(), members)
}

/// The normal form of the formula, if its norm size is not over the limit.
pub(crate) fn norm_within(alloc: Global, form: &Form) -> Result<Option<Boxed<Form>>, Memory>
    ensures { IfOk result (λ found. MatchOption found (100000 < norm_size_of form.now) (HasNorm form.now)) }
{
    match norm(alloc, form) {
        Ok(made) => Ok(Some(Boxed::new(alloc, made)?)),
        Err(FormFault::Wide) => Ok(None),
        Err(FormFault::Memory) => Err(Memory),
    }
}

// Clauses that paths reach in the parents' normal forms.
fn known_clauses(
    alloc: Global,
    signature: &Signature,
    parents: &[Parent],
) -> Result<List<Candidate>, Memory>
    requires { AreReady signature.now parents.now }
    ensures { IfOk result (AreKnown signature.now parents.now) }
{
    let mut known = List::new(alloc);
    for at in 0..parents.len() {
        add_parent(alloc, signature, parents, &mut known, at)?;
    }
    Ok(known)
}

// Adds those of that parent's normal form.
fn add_parent(
    alloc: Global,
    signature: &Signature,
    parents: &[Parent],
    known: &mut List<Candidate>,
    at: usize,
) -> Result<(), Memory>
    requires at { at < length parents.now }
    requires ready { AreReady signature.now parents.now }
    ensures { IfOk result (λ done. AreKnown signature.now parents.now known.old
        → AreKnown signature.now parents.now known.new) }
{
    match norm_within(alloc, &parents[at].form)? {
        Some(norm) => add_candidates(alloc, signature, known, at, norm.get()),
        None => Ok(()),
    }
}

// What shows each of the parts; None exactly where one of them is not given. The clause that shows a part is mostly the
// one behind that which showed the part before.
fn decided(
    alloc: Global,
    signature: &Signature,
    parents: &[Parent],
    known: &[Candidate],
    members: &[Form],
) -> Result<Option<List<Just>>, Memory>
    requires parents { AreReady signature.now parents.now }
    requires known { AreKnown signature.now parents.now known.now }
    requires members { EachReady signature.now members.now }
    ensures { IfOk result (AreDecided signature.now parents.now members.now) }
{
    let mut justs = List::new(alloc);
    let mut from = 0;
    for at in 0..members.len() {
        let Some(found) = shown(alloc, signature, parents, known, &members[at], from)? else {
            return Ok(None);
        };
        justs.push(found.just)?;
        from = found.next;
    }
    Ok(Some(justs))
}

// What shows a part, and the number of the known clause that is tried first for the next part.
#[derive(Drop)]
struct Found {
    just: Just,
    next: usize,
}

// What shows the part; None exactly where it is not given. Clauses that are known come first, those from that number on
// before the others.
fn shown(
    alloc: Global,
    signature: &Signature,
    parents: &[Parent],
    known: &[Candidate],
    part: &Form,
    from: usize,
) -> Result<Option<Found>, Memory>
    requires parents { AreReady signature.now parents.now }
    requires known { AreKnown signature.now parents.now known.now }
    requires part { IsReady signature.now part.now }
    ensures { IfOk result (IsFound signature.now parents.now part.now) }
{
    let Some(clause) = as_clause(alloc, part)? else {
        return Ok(None);
    };
    let trivial = is_trivial(&clause);
    if trivial {
        return Ok(Some(Found {
            just: Just::Tautology,
            next: from,
        }));
    }
    let found = first_covered(alloc, signature, known, &clause, from)?;
    if let Some(chosen) = found {
        let next = chosen.at + 1;
        let just = by_known(alloc, signature, parents, known, part, &clause, chosen)?;
        return Ok(Some(Found { just, next }));
    }
    covered(alloc, signature, parents, part, from)
}

// What shows the part by the rule `cover`; None exactly where it does not give it.
fn covered(
    alloc: Global,
    signature: &Signature,
    parents: &[Parent],
    part: &Form,
    from: usize,
) -> Result<Option<Found>, Memory>
    requires parents { AreReady signature.now parents.now }
    requires part { IsReady signature.now part.now }
    ensures { IfOk result (IsCovered signature.now parents.now part.now) }
{
    match cover_step(alloc, signature, parents, part)? {
        Some(just) => Ok(Some(Found { just, next: from })),
        None => Ok(None),
    }
}

// That the part covers the known clause that was chosen.
fn by_known(
    alloc: Global,
    signature: &Signature,
    parents: &[Parent],
    known: &[Candidate],
    part: &Form,
    clause: &Clause,
    chosen: Chosen,
) -> Result<Just, Memory>
    requires known { AreKnown signature.now parents.now known.now }
    requires is { clause_of part.now ≡ Some clause.now }
    requires chosen { IsChosen signature.now known.now clause.now chosen }
    ensures { IfOk result (IsShownPart signature.now parents.now part.now) }
{
    let at = chosen.at;
    let candidate = &known[at];
    let path = copy_path(alloc, &candidate.path)?;
    Ok(Just::Cover {
        parent: candidate.source,
        path,
        subst: chosen.subst,
    })
}
