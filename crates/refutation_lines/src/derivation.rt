// Derivations.
ghost use Rattle.std.specs.Prelude.{◌≡◌, ◌<◌, ◌+◌, ◌^◌, IfOk, length, map};
ghost use Rattle.std.specs.List.{All as Each};
ghost use Rattle.fof_terms.specs.Sorts.{binder_depth};
ghost use Rattle.fof_terms.specs.Vocabulary.{Vocabulary};
ghost use Rattle.given_parts.specs.Functions.{functions_from, used_existentials};
ghost use Rattle.given_parts.specs.Parts.{ex_counts, parts_of as parts_of_given};
ghost use Rattle.saturation.specs.Members.{clauses_of};
ghost use Rattle.saturation.specs.Origins.{AreMade, IsMade};
ghost use Rattle.step_clauses.specs.Inputs.{clauses_from};
ghost use Rattle.refutation_lines.specs.Derivations.{IsDerivationOf};
ghost use Rattle.refutation_lines.specs.Lines.{lines_of as lines_by};
ghost use Rattle.refutation_lines.specs.Plans.{plan_of as plan_by, refutation};
ghost use Rattle.refutation_lines.specs.code.Printable.{AreRoomy};

use crate::clauses::last_line;
use crate::lines::{push_given, push_inferred, push_inputs, push_skolemized};
use crate::needing::{printed_inputs, used_parts};
use crate::placing::{number_at, places_of, ranks_of};
use crate::plan::Plan;
use clause_form::Clause;
use derivation_items::ProofLine;
use fof_terms::{SymId, Symbol};
use given_parts::{functions_of, numbers_of, owners_of, parts_of};
use saturation::Member;
use search_proofs::needed_members;
use sort_check::GivenEntry;
use std::alloc::Global;
use tptp_base::{List, Memory};

/// A derivation of falsehood from given formulas.
#[derive(Drop)]
pub struct Derivation {
    /// Its functions in place of existential variables, in the order of their numbers.
    pub functions: List<Symbol>,
    /// Its lines in order.
    pub lines: List<ProofLine>,
}

/// The derivation of a refutation: of a list of members that a search made from the clauses of given formulas, and of
/// the further one, which is empty. Its functions are numbered from `first` on, and their names begin with the prefix.
pub fn derivation_of(
    alloc: Global,
    given: &[GivenEntry],
    first: SymId,
    prefix: &[u8],
    inputs: &[Clause],
    members: &[Member],
    last: &Member,
) -> Result<Derivation, Memory>
    requires depth { Each (λ g. binder_depth g.form < 2 ^ 32) given.now }
    requires room { first + ex_counts (parts_of_given given.now) < 2 ^ 32 }
    requires inputs { inputs.now ≡ clauses_from first (map (λ g. g.form) given.now) }
    requires made { (v : Vocabulary) × AreMade v inputs.now members.now
        × IsMade v inputs.now (clauses_of members.now) last.now }
    ensures { let r = refutation given.now first inputs.now members.now last.now in
        IfOk result (IsDerivationOf r prefix.now) }
{
    let needed = needed_members(alloc, members, last)?;
    let plan = plan_of(alloc, given, first, inputs, members, last, needed)?;
    let functions = functions_in(alloc, &plan, prefix)?;
    let lines = lines_of(alloc, given, inputs, members, last, &plan)?;
    Ok(Derivation { functions, lines })
}

// What its lines are made from, by the members that are needed.
fn plan_of(
    alloc: Global,
    given: &[GivenEntry],
    first: SymId,
    inputs: &[Clause],
    members: &[Member],
    last: &Member,
    needed: List<bool>,
) -> Result<Plan, Memory>
    requires depth { Each (λ g. binder_depth g.form < 2 ^ 32) given.now }
    requires room { first + ex_counts (parts_of_given given.now) < 2 ^ 32 }
    requires inputs { inputs.now ≡ clauses_from first (map (λ g. g.form) given.now) }
    requires needed { length needed ≡ length members.now }
    ensures { let r = refutation given.now first inputs.now members.now last.now in
        IfOk result (λ plan. plan ≡ plan_by r needed) }
{
    let parts = parts_of(alloc, given)?;
    let listed = parts.as_slice();
    let owners = owners_of(alloc, listed)?;
    let owned = owners.as_slice();
    let wanted = needed.as_slice();
    let printed = printed_inputs(alloc, inputs.len(), members, wanted)?;
    let marks = printed.as_slice();
    let used = used_parts(alloc, given.len(), owned, marks, &last.origin)?;
    let chosen = used.as_slice();
    let ranks = ranks_of(alloc, marks)?;
    let counts = ranks.as_slice();
    let behind = number_at(counts, inputs.len());
    let places = places_of(alloc, members, wanted, counts, behind)?;
    let numbers = numbers_of(alloc, listed, chosen, first)?;
    Ok(Plan {
        parts,
        owners,
        needed,
        printed,
        used,
        ranks,
        places,
        first,
        numbers,
    })
}

// Its functions.
fn functions_in(alloc: Global, plan: &Plan, prefix: &[u8]) -> Result<List<Symbol>, Memory>
    requires { length plan.now.used ≡ length plan.now.parts }
    ensures { IfOk result (λ functions.
        functions ≡ functions_from prefix.now 1 (used_existentials plan.now.used plan.now.parts)) }
{
    let parts = plan.parts.as_slice();
    let used = plan.used.as_slice();
    Ok(functions_of(alloc, parts, used, prefix)?)
}

// Its lines.
fn lines_of(
    alloc: Global,
    given: &[GivenEntry],
    inputs: &[Clause],
    members: &[Member],
    last: &Member,
    plan: &Plan,
) -> Result<List<ProofLine>, Memory>
    requires used { length plan.now.used ≡ length given.now }
    requires parts { length plan.now.used ≡ length plan.now.parts }
    requires printed { length plan.now.printed ≡ length inputs.now }
    requires needed { length plan.now.needed ≡ length members.now }
    requires roomy { AreRoomy plan.now.numbers.firsts plan.now.parts }
    ensures { let r = refutation given.now plan.now.first inputs.now members.now last.now in
        IfOk result (λ lines. lines ≡ lines_by r plan.now) }
{
    let mut lines = List::new(alloc);
    let used = plan.used.as_slice();
    push_given(alloc, given, used, &mut lines)?;
    let firsts = plan.numbers.firsts.as_slice();
    let parts = plan.parts.as_slice();
    push_skolemized(alloc, parts, used, firsts, &mut lines)?;
    let printed = plan.printed.as_slice();
    push_inputs(alloc, plan, inputs, printed, &mut lines)?;
    let needed = plan.needed.as_slice();
    push_inferred(alloc, plan, members, needed, &mut lines)?;
    lines.push(last_line(alloc, plan, &last.origin)?)?;
    Ok(lines)
}
