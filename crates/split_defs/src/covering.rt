//! A parent that the line covers together with what its names stand for.
ghost use Rattle.std.specs.Prelude.{IfOk};
ghost use Rattle.clause_rules.specs.Settled.{IsFit};
ghost use Rattle.clause_rules.specs.Steps.{AreReady, IsReady};
ghost use Rattle.split_defs.specs.code.SplitSearch.{IsCoveredAmong, IsCovering};
ghost use Rattle.clause_form.specs.Paths.{forms_of};

use clause_form::{Clause, Parent, as_clause};
use fof_terms::{Form, Signature};
use rule_steps::cover_clause;
use std::alloc::Global;
use tptp_base::Memory;
use unify_terms::Subst;

/// A parent, by its number, and the substitution that covers it.
#[derive(Drop)]
pub struct Covered {
    pub parent: usize,
    pub subst: Subst,
}

/// A parent that is a clause, and a substitution that covers it; None exactly where there is none.
pub fn covered_among(
    alloc: Global,
    sig: &Signature,
    parents: &[Parent],
    whole: &Clause,
) -> Result<Option<Covered>, Memory>
    requires parents { AreReady sig.now parents.now }
    requires whole { IsFit sig.now whole.now }
    ensures { IfOk result (IsCoveredAmong sig.now (forms_of parents.now) whole.now) }
{
    for n in 0..parents.len() {
        let found = covering_of(alloc, sig, &parents[n].form, whole)?;
        if let Some(subst) = found {
            return Ok(Some(Covered { parent: n, subst }));
        }
    }
    Ok(None)
}

// A substitution that covers the clause that the formula is.
fn covering_of(
    alloc: Global,
    sig: &Signature,
    form: &Form,
    whole: &Clause,
) -> Result<Option<Subst>, Memory>
    requires form { IsReady sig.now form.now }
    requires whole { IsFit sig.now whole.now }
    ensures { IfOk result (IsCovering sig.now whole.now form.now) }
{
    match as_clause(alloc, form)? {
        Some(clause) => cover_clause(alloc, sig, &clause, whole),
        None => Ok(None),
    }
}
