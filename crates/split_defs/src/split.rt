//! Lines that have names for parts of a parent clause.
ghost use Rattle.std.specs.Prelude.{◌≡◌, ◌∷◌, IfOk, MatchOption};
ghost use Rattle.std.specs.List.{AllByRecursion};
ghost use Rattle.clause_rules.specs.Settled.{IsFit};
ghost use Rattle.clause_rules.specs.Steps.{AreReady, IsReady};
ghost use Rattle.split_defs.specs.SplitRule.{IsSplitStep, unfolded as unfolded_line};
ghost use Rattle.split_defs.specs.code.SplitSearch.{IsFoundFor};
ghost use Rattle.clause_form.specs.Paths.{forms_of};
ghost use Rattle.split_defs.specs.SplitSearch.{ShowsSplit};

use crate::covering::{Covered, covered_among};
use crate::just::SplitJust;
use crate::names::{Named, all_named};
use crate::together::together;
use clause_form::{Clause, Parent, as_clause};
use fof_terms::{Form, Signature};
use proof_check::Theory;
use std::alloc::Global;
use tptp_base::{List, Memory};

/// A justification that the line has names for parts of a parent clause; None exactly where it has none.
pub fn split_step(
    alloc: Global,
    theory: &Theory,
    parents: &[Parent],
    line: &Form,
) -> Result<Option<SplitJust>, Memory>
    requires ready { AreReady theory.now.vocabulary parents.now }
    requires line { IsReady theory.now.vocabulary line.now }
    ensures { IfOk result (λ answer.
        MatchOption answer (IsSplitStep theory.now.vocabulary (forms_of parents.now) line.now
        → ⊥) (ShowsSplit theory.now.vocabulary (forms_of parents.now) line.now)) }
{
    match as_clause(alloc, line)? {
        Some(line) => split_clause(alloc, theory.signature(), parents, line),
        None => Ok(None),
    }
}

// The same of a line that is a clause.
fn split_clause(
    alloc: Global,
    sig: &Signature,
    parents: &[Parent],
    line: Clause,
) -> Result<Option<SplitJust>, Memory>
    requires ready { AreReady sig.now parents.now }
    requires line { IsFit sig.now line }
    ensures { IfOk result (IsFoundFor sig.now (forms_of parents.now) line) }
{
    let named = all_named(alloc, parents, &line)?;
    if named.numbers.is_empty() {
        return Ok(None);
    }
    let Named { numbers, clauses } = named;
    let whole = unfolded(alloc, sig, line, clauses)?;
    match covered_among(alloc, sig, parents, &whole)? {
        Some(Covered { parent, subst }) => Ok(Some(SplitJust::Split {
            parent,
            definitions: numbers,
            subst,
        })),
        None => Ok(None),
    }
}

// The line together with what its names stand for.
fn unfolded(
    alloc: Global,
    sig: &Signature,
    line: Clause,
    parts: List<Clause>,
) -> Result<Clause, Memory>
    requires { AllByRecursion (IsFit sig.now) (line ∷ parts) }
    ensures { IfOk result (λ whole. (whole ≡ unfolded_line line parts) × IsFit sig.now whole) }
{
    let mut clauses = List::new(alloc);
    clauses.push(line)?;
    clauses.append(parts)?;
    together(alloc, sig, clauses.as_slice())
}
