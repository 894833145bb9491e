//! How a refutation ends, and what it needs for that.
ghost use Rattle.std.specs.Prelude.{◌<◌, ℕ, length, IfOk};
ghost use Rattle.fof_terms.specs.Vocabulary.{Vocabulary};
ghost use Rattle.saturation.specs.declared.member.Member.{Member as Listed};
ghost use Rattle.search_proofs.specs.code.Contradictions.{AreNeededFor, Contradicts, ContradictsIn, IsListed, Suffice};
ghost use Rattle.search_proofs.specs.code.Marks.{MarksAll};
ghost use Rattle.search_proofs.specs.code.Naming.{NameEarlier, NamesBelow};

use crate::contradicting::{Contradiction, find_contradiction};
use crate::needing::{needed_earlier, sweep, unmarked};
use fof_terms::Signature;
use saturation::Member;
use std::alloc::Global;
use tptp_base::{List, Memory};

/// Which members are needed for falsehood, and by which of them a contradiction shows it. Where there is none, the
/// further member shows it, which is empty.
#[derive(Drop)]
pub(crate) struct Ending {
    pub(crate) found: Option<Contradiction>,
    pub(crate) needed: List<bool>,
}

/// How the refutation that ends with the further member is to end. Of the members that this one needs, a contradiction
/// among them needs no others.
pub(crate) fn ending_of(
    alloc: Global,
    signature: &Signature,
    members: &[Member],
    last: &Member,
) -> Result<Ending, Memory>
    requires earlier { NameEarlier members.now }
    requires last { NamesBelow (length members.now) last.now.origin }
    ensures { IfOk result (λ ending. Suffice signature.now members.now last.now ending.found
        ending.needed) }
{
    let needed = needed_earlier(alloc, members, last)?;
    match find_contradiction(alloc, signature, members, needed.as_slice())? {
        Some(contradiction) => ended_by(alloc, members, contradiction),
        None => {
            let found = None;
            Ok(Ending { found, needed })
        }
    }
}

// The end by the contradiction, whatever the further member is.
fn ended_by(
    alloc: Global,
    members: &[Member],
    contradiction: Contradiction,
) -> Result<Ending, Memory>
    requires earlier { NameEarlier members.now }
    requires contradicts { Contradicts members.now contradiction }
    ensures { IfOk result (λ ending. (v : Vocabulary) (last : Listed) → ContradictsIn v members.now contradiction
        → Suffice v members.now last ending.found ending.needed) }
{
    let needed = needed_for(alloc, members, &contradiction)?;
    let found = Some(contradiction);
    Ok(Ending { found, needed })
}

// Which members the contradiction needs: those that it names, those that their origins name, and so on.
fn needed_for(
    alloc: Global,
    members: &[Member],
    contradiction: &Contradiction,
) -> Result<List<bool>, Memory>
    requires earlier { NameEarlier members.now }
    requires contradicts { Contradicts members.now contradiction.now }
    ensures { IfOk result (AreNeededFor members.now contradiction.now) }
{
    let mut marks = unmarked(alloc, members.len())?;
    marks.set(contradiction.clause, true);
    mark_all(contradiction.opposites.as_slice(), &mut marks);
    sweep(members, &mut marks);
    Ok(marks)
}

// Marks these places.
fn mark_all(places: &[usize], marks: &mut List<bool>)
    requires { (i : ℕ) → IsListed places.now i → i < length marks.old }
    ensures { MarksAll places.now marks.old marks.new }
{
    for k in 0..places.len() {
        marks.set(places[k], true);
    }
}
