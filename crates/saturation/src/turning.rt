//! The turns of a search: each makes one member more.
ghost use Rattle.std.specs.Prelude.{◌≡◌, ◌≤◌, [], IfOk, OnOk, Bool, true, length, List as Clauses};
ghost use Rattle.std.specs.List.{All as Each};
ghost use Rattle.clause_form.specs.declared.clause.Clause.{Clause as Disjunction};
ghost use Rattle.saturation.specs.declared.member.Member.{Member as Listed};
ghost use Rattle.fof_terms.specs.Vocabulary.{Vocabulary};
ghost use Rattle.clause_order.specs.Weights.{clause_weight};
ghost use Rattle.superpose.specs.Drafts.{IsClause};
ghost use Rattle.saturation.specs.Members.{clauses_of};
ghost use Rattle.saturation.specs.code.Entered.{AreEntered};
ghost use Rattle.saturation.specs.code.Known.{AreKnown};
ghost use Rattle.saturation.specs.code.Search.{IsUnderWay, AreKept};
ghost use Rattle.saturation.specs.code.Steps.{AreCoveredIn, AnswersAs};
ghost use Rattle.saturation.specs.code.Turns.{TakesTurn};

use crate::covering::{all_covered, next_open};
use crate::inferences::Inferences;
use crate::joining::join;
use crate::known::Known;
use crate::member::Member;
use crate::outcome::Outcome;
use crate::queue::Queue;
use crate::sifting::sift;
use crate::waiting::Waiting;
use crate::weighing::heaviest_allowed;
use clause_form::Clause;
use clause_index::Partners;
use fof_terms::Signature;
use std::alloc::Global;
use tptp_base::{List, Memory};

/// Makes members one by one, from what waits after the inputs were looked at.
pub fn take_turns<R: Inferences, I: Partners>(
    alloc: Global,
    rules: &R,
    signature: &Signature,
    inputs: &[Clause],
    limit: u32,
    mut queue: Queue,
    mut heavy: List<Waiting>,
    literals: &mut I,
    terms: &mut I,
) -> Result<Outcome, Memory>
    requires light { Each (λ c. clause_weight c ≤ 100000000) inputs.now }
    requires alike { I.is_whole terms.old ≡ I.is_whole literals.old }
    requires empty { I.is_whole literals.old ≡ true → (I.entries literals.old ≡ []) × (I.entries terms.old ≡ []) }
    requires under_way { IsUnderWay signature.now (I.is_whole literals.old) inputs.now [] [] queue heavy }
    ensures { IfOk result (AnswersAs signature.now (I.is_whole literals.old) inputs.now limit) }
{
    let bound = heaviest_allowed(inputs);
    let mut list = List::new(alloc);
    let mut known = List::new(alloc);
    'turns: while let Some(next) = next_open(
        alloc,
        signature,
        list.as_slice(),
        known.as_slice(),
        &mut queue,
    )? {
        if list.len() >= limit as usize {
            return Ok(Outcome::Full(list));
        }
        if let Some(empty) = take_turn(
            alloc, rules, signature, bound, next, &mut list, &mut known, &mut queue, &mut heavy,
            literals, terms,
        )? {
            return Ok(Outcome::Refuted(list, empty));
        }
    }
    at_end(
        alloc,
        signature,
        list,
        known.as_slice(),
        heavy.as_slice(),
        limit,
    )
}

// Makes the clause a member, and looks at what it makes with the others, up to one that is empty.
fn take_turn<R: Inferences, I: Partners>(
    alloc: Global,
    rules: &R,
    signature: &Signature,
    bound: u64,
    next: Member,
    list: &mut List<Member>,
    known: &mut List<Known>,
    queue: &mut Queue,
    heavy: &mut List<Waiting>,
    literals: &mut I,
    terms: &mut I,
) -> Result<Option<Member>, Memory>
    requires clauses { Each (IsClause signature.now) (clauses_of list.old) }
    requires next_clause { IsClause signature.now next.clause }
    requires known { AreKnown (clauses_of list.old) known.old }
    requires alike { I.is_whole terms.old ≡ I.is_whole literals.old }
    requires entered { I.is_whole literals.old ≡ true
        → AreEntered (clauses_of list.old) (I.entries literals.old) (I.entries terms.old) }
    ensures literals { I.is_whole literals.new ≡ I.is_whole literals.old }
    ensures terms { I.is_whole terms.new ≡ I.is_whole terms.old }
    ensures turn { IfOk result (TakesTurn signature.now (I.is_whole literals.old) bound next list.old known.old
        queue.old heavy.old list.new known.new queue.new heavy.new) }
    ensures entered { OnOk result (I.is_whole literals.old ≡ true
        → AreEntered (clauses_of list.new) (I.entries literals.new) (I.entries terms.new)) }
{
    let made = join(alloc, rules, signature, next, list, known, literals, terms)?;
    sift(alloc, made, bound, queue, heavy)
}

// How the search ends where nothing waits: by whether what is too heavy is covered.
fn at_end(
    alloc: Global,
    signature: &Signature,
    list: List<Member>,
    known: &[Known],
    heavy: &[Waiting],
    limit: u32,
) -> Result<Outcome, Memory>
    requires members { Each (IsClause signature.now) (clauses_of list) }
    requires known { AreKnown (clauses_of list) known.now }
    requires heavy { Each (λ m. IsClause signature.now m.clause) heavy.now }
    requires limit { length list ≤ limit }
    ensures { IfOk result (λ outcome. (whole : Bool) (inputs : Clauses Disjunction)
        → IsUnderWay signature.now whole inputs (clauses_of list) [] [] heavy.now
        → AreKept signature.now whole inputs list → AnswersAs signature.now whole inputs limit outcome) }
{
    let covered = all_covered(alloc, signature, list.as_slice(), known, heavy)?;
    Ok(at_rest(list, covered, limit))
}

// The same, where it is known whether what is too heavy is covered.
fn at_rest(list: List<Member>, covered: bool, limit: u32) -> Outcome
    requires { length list ≤ limit }
    ensures { (v : Vocabulary) (whole : Bool) (inputs : Clauses Disjunction) (heavy : Clauses Listed)
        → IsUnderWay v whole inputs (clauses_of list) [] [] heavy → AreKept v whole inputs list
        → AreCoveredIn v (clauses_of list) heavy covered → AnswersAs v whole inputs limit result }
{
    if covered {
        return Outcome::Dry(list);
    }
    if list.len() < limit as usize {
        Outcome::Heavy(list)
    } else {
        Outcome::Full(list)
    }
}
