//! The inferences of a list and one clause more, as far as they use it.
ghost use Rattle.std.specs.Prelude.{◌≡◌, length, true, IfOk, OnOk};
ghost use Rattle.std.specs.List.{All as Each};
ghost use Rattle.superpose.specs.Drafts.{IsClause};
ghost use Rattle.superpose.specs.Used.{AreUsed};
ghost use Rattle.saturation.specs.Members.{clauses_of};
ghost use Rattle.saturation.specs.code.Entered.{AreEntered};
ghost use Rattle.saturation.specs.code.Known.{AreKnown};
ghost use Rattle.saturation.specs.code.Named.{FollowMarked};
ghost use Rattle.saturation.specs.code.Search.{IsMadeWith};

use crate::asking::partners;
use crate::given::number;
use crate::inferences::Inferences;
use crate::known::Known;
use crate::member::Member;
use crate::pairing::{Premise, add_alone, add_pair};
use crate::waiting::Waiting;
use clause_form::Clause;
use clause_index::Partners;
use fof_terms::Signature;
use std::alloc::Global;
use superpose::Used;
use tptp_base::{List, Memory};

/// The inferences of the list and one clause more, as far as they use it.
pub fn inferences_with<R: Inferences, I: Partners>(
    alloc: Global,
    rules: &R,
    signature: &Signature,
    list: &[Member],
    known: &[Known],
    last: &Clause,
    used: &Used,
    literals: &I,
    terms: &I,
) -> Result<List<Waiting>, Memory>
    requires clauses { Each (IsClause signature.now) (clauses_of list.now) }
    requires last_clause { IsClause signature.now last.now }
    requires known { AreKnown (clauses_of list.now) known.now }
    requires used { AreUsed last.now.lits used.now }
    requires alike { I.is_whole terms.now ≡ I.is_whole literals.now }
    requires entered { I.is_whole literals.now ≡ true
        → AreEntered (clauses_of list.now) (I.entries literals.now) (I.entries terms.now) }
    ensures { IfOk result (IsMadeWith signature.now (I.is_whole literals.now) (clauses_of list.now) last.now) }
{
    let lits = last.lits.as_slice();
    let into = partners(alloc, list.len(), true, lits, used, literals, terms)?;
    let from = partners(alloc, list.len(), false, lits, used, literals, terms)?;
    let last = Premise {
        clause: last,
        used,
        number: number(list.len())?,
    };
    let mut members = List::new(alloc);
    add_alone(alloc, rules, signature, &last, &mut members)?;
    add_pair(alloc, rules, signature, true, &last, &last, &mut members)?;
    add_marked(
        alloc,
        rules,
        signature,
        list,
        known,
        &last,
        into.as_slice(),
        from.as_slice(),
        &mut members,
    )?;
    Ok(members)
}

// Adds the inferences from a marked member of the list and the last clause: with the first marks those into the member,
// with the second those from it.
fn add_marked<R: Inferences>(
    alloc: Global,
    rules: &R,
    signature: &Signature,
    list: &[Member],
    known: &[Known],
    last: &Premise<'_>,
    into: &[bool],
    from: &[bool],
    members: &mut List<Waiting>,
) -> Result<(), Memory>
    requires clauses { Each (IsClause signature.now) (clauses_of list.now) }
    requires known { AreKnown (clauses_of list.now) known.now }
    requires last_clause { IsClause signature.now last.now.clause.now }
    requires used { AreUsed last.now.clause.now.lits last.now.used.now }
    requires into { length into.now ≡ length list.now }
    requires from { length from.now ≡ length list.now }
    ensures { OnOk result (FollowMarked signature.now (clauses_of list.now) last.now.clause.now last.now.number into.now
        from.now members.old members.new) }
{
    for at in 0..list.len() {
        let member = Premise {
            clause: &list[at].clause,
            used: &known[at].used,
            number: number(at)?,
        };
        add_pair(alloc, rules, signature, into[at], last, &member, members)?;
        add_pair(alloc, rules, signature, from[at], &member, last, members)?;
    }
    Ok(())
}
