// The rules of normal forms.
ghost use Rattle.clause_form.specs.Covers.{CoversBy, scope_of};
ghost use Rattle.clause_rules.specs.Answers.{IsAnswer, cover, norm as by_norm};
ghost use Rattle.clause_rules.specs.NormRule.{IsFirstNorm, IsNormStep};
ghost use Rattle.clause_rules.specs.Settled.{IsFit, Settles};
ghost use Rattle.clause_rules.specs.Steps.{AreReady, IsReady};
ghost use Rattle.std.specs.Prelude.{IfOk, MatchOption};

use crate::{Control, Probe};
use clause_form::{Clause, Parent};
use clause_rules::Just;
use fof_terms::{Form, Signature};
use rule_steps::{cover_clause, cover_step, first_norm, norm_step};
use std::alloc::Global;
use tptp_base::Memory;
use unify_terms::Subst;

/// Looks for justifications by normal forms.
pub trait Norms {
    /// A justification by the rule `norm`: a parent has the line's flat form.
    fn norm_step(
        alloc: Global,
        sig: &Signature,
        parents: &[Parent],
        line: &Form,
    ) -> Result<Option<Just>, Memory>
        requires parents { AreReady sig.now parents.now }
        requires line { IsReady sig.now line.now }
        ensures { IfOk result (λ answer. IsAnswer sig.now parents.now line.now by_norm answer) };

    /// A justification by the rule `cover`: the line covers what some path reaches in a parent's normal form.
    fn cover_step(
        alloc: Global,
        sig: &Signature,
        parents: &[Parent],
        line: &Form,
    ) -> Result<Option<Just>, Memory>
        requires parents { AreReady sig.now parents.now }
        requires line { IsReady sig.now line.now }
        ensures { IfOk result (λ answer. IsAnswer sig.now parents.now line.now cover answer) };

    /// A substitution that covers the clause by the line; None exactly where there is none.
    fn cover_clause(
        alloc: Global,
        sig: &Signature,
        clause: &Clause,
        line: &Clause,
    ) -> Result<Option<Subst>, Memory>
        requires clause { IsFit sig.now clause.now }
        requires line { IsFit sig.now line.now }
        ensures { IfOk result (λ found. Settles sig.now line.now (scope_of clause.now)
            (CoversBy sig.now (scope_of clause.now) clause.now.lits line.now) found) };

    /// The number in the list, counted from 0, of the first parent with the line's flat form.
    fn first_norm(
        alloc: Global,
        sig: &Signature,
        parents: &[Parent],
        line: &Form,
    ) -> Result<Option<usize>, Memory>
        requires parents { AreReady sig.now parents.now }
        requires line { IsReady sig.now line.now }
        ensures { IfOk result (λ found. MatchOption found (IsNormStep parents.now line.now →
            ⊥) (IsFirstNorm parents.now line.now)) };
}

impl Norms for Probe {
    fn norm_step(
        alloc: Global,
        sig: &Signature,
        parents: &[Parent],
        line: &Form,
    ) -> Result<Option<Just>, Memory> {
        norm_step(alloc, sig, parents, line)
    }

    fn cover_step(
        alloc: Global,
        sig: &Signature,
        parents: &[Parent],
        line: &Form,
    ) -> Result<Option<Just>, Memory> {
        cover_step(alloc, sig, parents, line)
    }

    fn cover_clause(
        alloc: Global,
        sig: &Signature,
        clause: &Clause,
        line: &Clause,
    ) -> Result<Option<Subst>, Memory> {
        cover_clause(alloc, sig, clause, line)
    }

    fn first_norm(
        alloc: Global,
        sig: &Signature,
        parents: &[Parent],
        line: &Form,
    ) -> Result<Option<usize>, Memory> {
        first_norm(alloc, sig, parents, line)
    }
}

impl Norms for Control {
    fn norm_step(
        alloc: Global,
        sig: &Signature,
        parents: &[Parent],
        line: &Form,
    ) -> Result<Option<Just>, Memory> {
        match norm_step(alloc, sig, parents, line)? {
            Some(Just::Norm { parent }) => Ok(Some(Just::Norm { parent })),
            answer => Ok(answer),
        }
    }

    fn cover_step(
        alloc: Global,
        sig: &Signature,
        parents: &[Parent],
        line: &Form,
    ) -> Result<Option<Just>, Memory> {
        match cover_step(alloc, sig, parents, line)? {
            Some(just) => Ok(Some(just)),
            None => Ok(None),
        }
    }

    fn cover_clause(
        alloc: Global,
        sig: &Signature,
        clause: &Clause,
        line: &Clause,
    ) -> Result<Option<Subst>, Memory> {
        match cover_clause(alloc, sig, clause, line)? {
            Some(subst) => Ok(Some(subst)),
            None => Ok(None),
        }
    }

    fn first_norm(
        alloc: Global,
        sig: &Signature,
        parents: &[Parent],
        line: &Form,
    ) -> Result<Option<usize>, Memory> {
        match first_norm(alloc, sig, parents, line)? {
            Some(number) => Ok(Some(number)),
            None => Ok(None),
        }
    }
}
