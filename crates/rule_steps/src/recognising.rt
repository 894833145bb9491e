ghost use Rattle.std.specs.Prelude.{◌≡◌, IfOk, List as ListOf};
ghost use Rattle.clause_form.specs.declared.path.Parent.{Parent as Cited};
ghost use Rattle.clause_rules.specs.Answers.{IsFirst};
ghost use Rattle.clause_rules.specs.Settled.{IsFit};
ghost use Rattle.clause_rules.specs.Steps.{AreReady, IsReady, clauses_of};
ghost use Rattle.rule_steps.specs.code.FirstFrom.{IsFirstAfter, NoneBefore};
ghost use Rattle.rule_steps.specs.code.SlotFits.{AllFit};

use crate::cover_rule::cover_among;
use crate::eqfactor_rule::factor_among;
use crate::norm_rule::norm_step;
use crate::paramodulation_rule::paramodulate_among;
use crate::resolution_rule::resolve_among;
use crate::rewrite_rule::rewrite_among;
use crate::search::Search;
use clause_form::{Clause, Parent, as_clause, is_trivial};
use clause_rules::Just;
use fof_terms::{Form, Signature};
use std::alloc::Global;
use substitution_search::clauses_of_parents;
use tptp_base::Memory;

/// A justification by the first of the rules norm, cover, tautology, resolution, paramodulation, eqfactor and rewrite
/// that gives the line from the parents. None exactly where none of them does.
pub fn recognise(
    alloc: Global,
    sig: &Signature,
    parents: &[Parent],
    line: &Form,
) -> Result<Option<Just>, Memory>
    requires parents { AreReady sig.now parents.now }
    requires line { IsReady sig.now line.now }
    ensures { IfOk result (λ answer. IsFirst sig.now parents.now line.now answer) }
{
    match norm_step(alloc, sig, parents, line)? {
        Some(just) => Ok(Some(just)),
        None => by_form(alloc, sig, parents, line),
    }
}

// The same of a line that `norm` does not give: all other rules give clauses alone. The clause that the line is serves
// them all.
fn by_form(
    alloc: Global,
    sig: &Signature,
    parents: &[Parent],
    line: &Form,
) -> Result<Option<Just>, Memory>
    requires parents { AreReady sig.now parents.now }
    requires line { IsReady sig.now line.now }
    ensures { IfOk result (λ answer. NoneBefore sig.now parents.now line.now 1
        → IsFirst sig.now parents.now line.now answer) }
{
    match as_clause(alloc, line)? {
        Some(clause) => by_clause(alloc, sig, parents, &clause),
        None => Ok(None),
    }
}

// The same of a line that is this clause. The clauses that the parents are serve all rules after `tautology`.
fn by_clause(
    alloc: Global,
    sig: &Signature,
    parents: &[Parent],
    line: &Clause,
) -> Result<Option<Just>, Memory>
    requires parents { AreReady sig.now parents.now }
    requires line { IsFit sig.now line.now }
    ensures { IfOk result (IsFirstAfter sig.now parents.now line.now 1) }
{
    let cover = cover_among(alloc, sig, parents, line)?;
    if let Some(just) = cover {
        return Ok(Some(just));
    }
    if is_trivial(line) {
        return Ok(Some(Just::Tautology));
    }
    let clauses = clauses_of_parents(alloc, parents)?;
    let search = Search {
        alloc,
        sig,
        clauses: clauses.as_slice(),
        line,
    };
    among_clauses(&search)
}

// The same by the rules that go by the clauses of parents.
fn among_clauses(search: &Search<'_>) -> Result<Option<Just>, Memory>
    requires clauses { AllFit search.now.sig.now search.now.clauses.now }
    requires line { IsFit search.now.sig.now search.now.line.now }
    ensures { IfOk result (λ answer. (parents : ListOf Cited)
        → search.now.clauses.now ≡ clauses_of parents
        → IsFirstAfter search.now.sig.now parents search.now.line.now 3 answer) }
{
    let resolution = resolve_among(search)?;
    if let Some(just) = resolution {
        return Ok(Some(just));
    }
    let paramodulation = paramodulate_among(search)?;
    if let Some(just) = paramodulation {
        return Ok(Some(just));
    }
    let eqfactor = factor_among(search)?;
    if let Some(just) = eqfactor {
        return Ok(Some(just));
    }
    rewrite_among(search)
}
