ghost use Rattle.std.specs.Prelude.{◌≡◌, ◌≤◌, [], IfOk, true, false};
ghost use Rattle.std.specs.List.{All as Each};
ghost use Rattle.clause_order.specs.Weights.{clause_weight};
ghost use Rattle.superpose.specs.Drafts.{IsClause};
ghost use Rattle.saturation.specs.Ends.{EndsWith, HasFitMembers, HasOrigins, KeepsLimit, NamesOnes};

use crate::given::given;
use crate::inferences::Inferences;
use crate::outcome::Outcome;
use crate::queue::Queue;
use crate::sifting::sift;
use crate::superposition::Superposition;
use crate::turning::take_turns;
use crate::weighing::heaviest_allowed;
use clause_form::Clause;
use clause_index::{Index, Partners};
use fof_terms::Signature;
use std::alloc::Global;
use tptp_base::{List, Memory};

/// Searches for the empty clause among at most `limit` members, by ordered resolution and superposition.
pub fn search(
    alloc: Global,
    signature: &Signature,
    inputs: &[Clause],
    limit: u32,
) -> Result<Outcome, Memory>
    requires clauses { Each (IsClause signature.now) inputs.now }
    requires light { Each (λ c. clause_weight c ≤ 100000000) inputs.now }
    ensures limit { IfOk result (KeepsLimit limit) }
    ensures origins { IfOk result (HasOrigins signature.now inputs.now) }
    ensures fit { IfOk result (HasFitMembers signature.now) }
    ensures ends { IfOk result (EndsWith signature.now inputs.now limit) }
{
    let mut literals = Index::new(alloc);
    let mut terms = Index::new(alloc);
    search_by(
        alloc,
        &Superposition,
        signature,
        inputs,
        limit,
        &mut literals,
        &mut terms,
    )
}

/// Searches for the empty clause among at most `limit` members, with the inferences of `rules` and with partners from
/// the two indexes.
pub fn search_by<R: Inferences, I: Partners>(
    alloc: Global,
    rules: &R,
    signature: &Signature,
    inputs: &[Clause],
    limit: u32,
    literals: &mut I,
    terms: &mut I,
) -> Result<Outcome, Memory>
    requires clauses { Each (IsClause signature.now) inputs.now }
    requires light { Each (λ c. clause_weight c ≤ 100000000) inputs.now }
    requires alike { I.is_whole terms.old ≡ I.is_whole literals.old }
    requires empty { I.is_whole literals.old ≡ true → (I.entries literals.old ≡ []) × (I.entries terms.old ≡ []) }
    ensures limit { IfOk result (KeepsLimit limit) }
    ensures origins { IfOk result (HasOrigins signature.now inputs.now) }
    ensures fit { IfOk result (HasFitMembers signature.now) }
    ensures whole { I.is_whole literals.old ≡ true → IfOk result (EndsWith signature.now inputs.now limit) }
    ensures blind { I.is_whole literals.old ≡ false → IfOk result NamesOnes }
{
    let bound = heaviest_allowed(inputs);
    let mut queue = Queue::new(alloc);
    let mut heavy = List::new(alloc);
    let todo = given(alloc, inputs)?;
    if let Some(empty) = sift(alloc, todo, bound, &mut queue, &mut heavy)? {
        return Ok(Outcome::Refuted(List::new(alloc), empty));
    }
    take_turns(
        alloc, rules, signature, inputs, limit, queue, heavy, literals, terms,
    )
}
