//! Which members a refutation needs.
ghost use Rattle.std.specs.Prelude.{◌≡◌, ◌<◌, length, List as Clauses, IfOk};
ghost use Rattle.fof_terms.specs.Vocabulary.{Vocabulary};
ghost use Rattle.clause_form.specs.declared.clause.Clause.{Clause as Disjunction};
ghost use Rattle.saturation.specs.Members.{clauses_of};
ghost use Rattle.saturation.specs.Origins.{AreMade, IsMade};
ghost use Rattle.search_proofs.specs.Needed.{AreNeeded};
ghost use Rattle.search_proofs.specs.code.Naming.{NameEarlier, NamesBelow};
ghost use Rattle.search_proofs.specs.code.Marks.{IsSweptFrom, IsUnmarked, Marks, Passes};

use saturation::{Member, Origin};
use std::alloc::Global;
use tptp_base::{List, Memory};

/// Which of the members of a refutation the further one needs: those that its origin names, those that their origins
/// name, and so on.
pub fn needed_members(
    alloc: Global,
    members: &[Member],
    last: &Member,
) -> Result<List<bool>, Memory>
    requires { (v : Vocabulary) × (inputs : Clauses Disjunction) × AreMade v inputs members.now
        × IsMade v inputs (clauses_of members.now) last.now }
    ensures { IfOk result (AreNeeded members.now last.now) }
{
    needed_earlier(alloc, members, last)
}

/// The same of members whose origins name earlier ones alone.
pub(crate) fn needed_earlier(
    alloc: Global,
    members: &[Member],
    last: &Member,
) -> Result<List<bool>, Memory>
    requires earlier { NameEarlier members.now }
    requires last { NamesBelow (length members.now) last.now.origin }
    ensures { IfOk result (AreNeeded members.now last.now) }
{
    let mut marks = unmarked(alloc, members.len())?;
    mark(&mut marks, &last.origin);
    sweep(members, &mut marks);
    Ok(marks)
}

/// Marks also the members that the origins of marked ones name, those that their origins name, and so on.
pub(crate) fn sweep(members: &[Member], marks: &mut List<bool>)
    requires earlier { NameEarlier members.now }
    requires size { length marks.old ≡ length members.now }
    ensures { IsSweptFrom members.now marks.old marks.new }
{
    for k in 0..members.len() {
        let at = members.len() - 1 - k;
        pass(marks, at, &members[at].origin);
    }
}

/// So many places, none of which is marked.
pub fn unmarked(alloc: Global, count: usize) -> Result<List<bool>, Memory>
    ensures { IfOk result (IsUnmarked count) }
{
    let mut marks = List::new(alloc);
    for _ in 0..count {
        marks.push(false)?;
    }
    Ok(marks)
}

// Marks the members that the origin names, if the member at the place, whose origin it is, is marked.
fn pass(marks: &mut List<bool>, at: usize, origin: &Origin)
    requires within { at < length marks.old }
    requires below { NamesBelow (length marks.old) origin.now }
    ensures { Passes at origin.now marks.old marks.new }
{
    if !marks.as_slice()[at] {
        return;
    }
    mark(marks, origin);
}

// Marks the members that the origin names.
fn mark(marks: &mut List<bool>, origin: &Origin)
    requires { NamesBelow (length marks.old) origin.now }
    ensures { Marks origin.now marks.old marks.new }
{
    if let Origin::Inferred(first, second, _) = origin {
        marks.set(*first as usize, true);
        marks.set(*second as usize, true);
    }
}
