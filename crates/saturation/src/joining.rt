//! How a clause becomes a member.
ghost use Rattle.std.specs.Prelude.{◌≡◌, ◌++◌, ◌∷◌, [], IfOk, OnOk, true};
ghost use Rattle.std.specs.List.{All as Each};
ghost use Rattle.superpose.specs.Drafts.{IsClause};
ghost use Rattle.saturation.specs.Members.{clauses_of};
ghost use Rattle.saturation.specs.code.Entered.{AreEntered};
ghost use Rattle.saturation.specs.code.Known.{AreKnown, IsKnown};
ghost use Rattle.saturation.specs.code.Search.{IsMadeWith};
ghost use Rattle.saturation.specs.code.Turns.{Joins};

use crate::entering::enter;
use crate::given::number;
use crate::inferences::Inferences;
use crate::inferring::inferences_with;
use crate::known::{Known, known_of};
use crate::member::Member;
use crate::waiting::Waiting;
use clause_form::Clause;
use clause_index::Partners;
use fof_terms::Signature;
use std::alloc::Global;
use tptp_base::{List, Memory};

/// What comes with a further member: what is known of it, and what it makes with the list.
#[derive(Drop)]
pub struct Arrival {
    pub facts: Known,
    pub made: List<Waiting>,
}

/// Makes the clause the last member of the list, enters its terms, and answers what it makes with the list.
pub fn join<R: Inferences, I: Partners>(
    alloc: Global,
    rules: &R,
    signature: &Signature,
    next: Member,
    list: &mut List<Member>,
    known: &mut List<Known>,
    literals: &mut I,
    terms: &mut I,
) -> Result<List<Waiting>, Memory>
    requires clauses { Each (IsClause signature.now) (clauses_of list.old) }
    requires next_clause { IsClause signature.now next.clause }
    requires known { AreKnown (clauses_of list.old) known.old }
    requires alike { I.is_whole terms.old ≡ I.is_whole literals.old }
    requires entered { I.is_whole literals.old ≡ true
        → AreEntered (clauses_of list.old) (I.entries literals.old) (I.entries terms.old) }
    ensures literals { I.is_whole literals.new ≡ I.is_whole literals.old }
    ensures terms { I.is_whole terms.new ≡ I.is_whole terms.old }
    ensures joins { IfOk result (Joins signature.now (I.is_whole literals.old) next list.old known.old
        list.new known.new) }
    ensures entered { OnOk result (I.is_whole literals.old ≡ true
        → AreEntered (clauses_of list.new) (I.entries literals.new) (I.entries terms.new)) }
{
    let Arrival { facts, made } = arrive(
        alloc,
        rules,
        signature,
        list.as_slice(),
        known.as_slice(),
        &next.clause,
        literals,
        terms,
    )?;
    list.push(next)?;
    known.push(facts)?;
    Ok(made)
}

// What comes with the clause. Its terms are entered.
fn arrive<R: Inferences, I: Partners>(
    alloc: Global,
    rules: &R,
    signature: &Signature,
    list: &[Member],
    known: &[Known],
    last: &Clause,
    literals: &mut I,
    terms: &mut I,
) -> Result<Arrival, Memory>
    requires clauses { Each (IsClause signature.now) (clauses_of list.now) }
    requires last_clause { IsClause signature.now last.now }
    requires known { AreKnown (clauses_of list.now) known.now }
    requires alike { I.is_whole terms.old ≡ I.is_whole literals.old }
    requires entered { I.is_whole literals.old ≡ true
        → AreEntered (clauses_of list.now) (I.entries literals.old) (I.entries terms.old) }
    ensures literals { I.is_whole literals.new ≡ I.is_whole literals.old }
    ensures terms { I.is_whole terms.new ≡ I.is_whole terms.old }
    ensures facts { IfOk result (λ arrival. IsKnown last.now arrival.facts) }
    ensures made { IfOk result (λ arrival. IsMadeWith signature.now (I.is_whole literals.old) (clauses_of list.now)
        last.now arrival.made) }
    ensures entered { OnOk result (I.is_whole literals.old ≡ true
        → AreEntered (clauses_of list.now ++ last.now ∷ []) (I.entries literals.new) (I.entries terms.new)) }
{
    let place = number(list.len())?;
    let facts = known_of(alloc, rules, last)?;
    let made = inferences_with(
        alloc,
        rules,
        signature,
        list,
        known,
        last,
        &facts.used,
        literals,
        terms,
    )?;
    enter(alloc, last, &facts.used, place, literals, terms)?;
    Ok(Arrival { facts, made })
}
