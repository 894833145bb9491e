// The rules of clauses.
ghost use Rattle.clause_rules.specs.Answers.{IsAnswer, IsFirst, cover, eqfactor, paramodulation};
ghost use Rattle.clause_rules.specs.Answers.{resolution, rewrite, tautology};
ghost use Rattle.clause_rules.specs.Steps.{AreReady, IsReady};
ghost use Rattle.std.specs.Prelude.{IfOk, IsTrue, ◌↔◌};

use crate::{Control, Probe};
use clause_form::Parent;
use clause_rules::{Just, is_ready};
use fof_terms::{Form, Signature};
use rule_steps::{
    eqfactor_step, paramodulation_step, recognise, resolution_step, rewrite_step, tautology_step,
};
use std::alloc::Global;
use tptp_base::Memory;

/// Looks for justifications.
pub trait Steps {
    /// A justification by the rule `tautology`: the line is a clause that is true by its form.
    fn tautology_step(
        alloc: Global,
        sig: &Signature,
        parents: &[Parent],
        line: &Form,
    ) -> Result<Option<Just>, Memory>
        ensures { IfOk result (λ answer. IsAnswer sig.now parents.now line.now tautology answer) };

    /// A justification by the rule `resolution`: two literals of two parents become complementary, and what
    /// else the parents have is covered by the line.
    fn resolution_step(
        alloc: Global,
        sig: &Signature,
        parents: &[Parent],
        line: &Form,
    ) -> Result<Option<Just>, Memory>
        requires parents { AreReady sig.now parents.now }
        requires line { IsReady sig.now line.now }
        ensures { IfOk result (λ answer. IsAnswer sig.now parents.now line.now resolution answer) };

    /// A justification by the rule `paramodulation`: the left side of a positive equation of one parent, as it
    /// is read, becomes the term at a place of another, and the right side takes that place.
    fn paramodulation_step(
        alloc: Global,
        sig: &Signature,
        parents: &[Parent],
        line: &Form,
    ) -> Result<Option<Just>, Memory>
        requires parents { AreReady sig.now parents.now }
        requires line { IsReady sig.now line.now }
        ensures { IfOk result (λ answer. IsAnswer sig.now parents.now line.now paramodulation answer) };

    /// A justification by the rule `eqfactor`: two equations of a parent get one side in common, and their
    /// other sides are denied to be equal in place of the first.
    fn eqfactor_step(
        alloc: Global,
        sig: &Signature,
        parents: &[Parent],
        line: &Form,
    ) -> Result<Option<Just>, Memory>
        requires parents { AreReady sig.now parents.now }
        requires line { IsReady sig.now line.now }
        ensures { IfOk result (λ answer. IsAnswer sig.now parents.now line.now eqfactor answer) };

    /// A justification by the rule `rewrite`: an instance of the left side of a parent that is one positive
    /// equation, as it is read, stands in another parent, and each occurrence gives way to the right side.
    fn rewrite_step(
        alloc: Global,
        sig: &Signature,
        parents: &[Parent],
        line: &Form,
    ) -> Result<Option<Just>, Memory>
        requires parents { AreReady sig.now parents.now }
        requires line { IsReady sig.now line.now }
        ensures { IfOk result (λ answer. IsAnswer sig.now parents.now line.now rewrite answer) };

    /// A justification by the first of the rules norm, cover, tautology, resolution, paramodulation, eqfactor
    /// and rewrite that gives the line from the parents.
    fn recognise(
        alloc: Global,
        sig: &Signature,
        parents: &[Parent],
        line: &Form,
    ) -> Result<Option<Just>, Memory>
        requires parents { AreReady sig.now parents.now }
        requires line { IsReady sig.now line.now }
        ensures { IfOk result (λ answer. IsFirst sig.now parents.now line.now answer) };

    /// Whether the rules may be asked about the formula: it is closed and well-sorted, with at most
    /// 1,000,000,000 quantifiers inside each other.
    fn is_ready(sig: &Signature, form: &Form) -> bool
        ensures { IsTrue result ↔ IsReady sig.now form.now };
}

impl Steps for Probe {
    fn tautology_step(
        alloc: Global,
        sig: &Signature,
        parents: &[Parent],
        line: &Form,
    ) -> Result<Option<Just>, Memory> {
        tautology_step(alloc, sig, parents, line)
    }

    fn resolution_step(
        alloc: Global,
        sig: &Signature,
        parents: &[Parent],
        line: &Form,
    ) -> Result<Option<Just>, Memory> {
        resolution_step(alloc, sig, parents, line)
    }

    fn paramodulation_step(
        alloc: Global,
        sig: &Signature,
        parents: &[Parent],
        line: &Form,
    ) -> Result<Option<Just>, Memory> {
        paramodulation_step(alloc, sig, parents, line)
    }

    fn eqfactor_step(
        alloc: Global,
        sig: &Signature,
        parents: &[Parent],
        line: &Form,
    ) -> Result<Option<Just>, Memory> {
        eqfactor_step(alloc, sig, parents, line)
    }

    fn rewrite_step(
        alloc: Global,
        sig: &Signature,
        parents: &[Parent],
        line: &Form,
    ) -> Result<Option<Just>, Memory> {
        rewrite_step(alloc, sig, parents, line)
    }

    fn recognise(
        alloc: Global,
        sig: &Signature,
        parents: &[Parent],
        line: &Form,
    ) -> Result<Option<Just>, Memory> {
        recognise(alloc, sig, parents, line)
    }

    fn is_ready(sig: &Signature, form: &Form) -> bool {
        is_ready(sig, form)
    }
}

impl Steps for Control {
    fn tautology_step(
        alloc: Global,
        sig: &Signature,
        parents: &[Parent],
        line: &Form,
    ) -> Result<Option<Just>, Memory> {
        match tautology_step(alloc, sig, parents, line)? {
            Some(just) => Ok(Some(just)),
            None => Ok(None),
        }
    }

    fn resolution_step(
        alloc: Global,
        sig: &Signature,
        parents: &[Parent],
        line: &Form,
    ) -> Result<Option<Just>, Memory> {
        match resolution_step(alloc, sig, parents, line)? {
            Some(
                Just::Resolution {
                    left,
                    right,
                    left_lit,
                    right_lit,
                    subst,
                },
            ) => Ok(Some(Just::Resolution {
                left,
                right,
                left_lit,
                right_lit,
                subst,
            })),
            answer => Ok(answer),
        }
    }

    fn paramodulation_step(
        alloc: Global,
        sig: &Signature,
        parents: &[Parent],
        line: &Form,
    ) -> Result<Option<Just>, Memory> {
        match paramodulation_step(alloc, sig, parents, line)? {
            Some(
                Just::Paramodulation {
                    into,
                    from,
                    into_lit,
                    at,
                    from_lit,
                    flipped,
                    subst,
                },
            ) => Ok(Some(Just::Paramodulation {
                into,
                from,
                into_lit,
                at,
                from_lit,
                flipped,
                subst,
            })),
            answer => Ok(answer),
        }
    }

    fn eqfactor_step(
        alloc: Global,
        sig: &Signature,
        parents: &[Parent],
        line: &Form,
    ) -> Result<Option<Just>, Memory> {
        match eqfactor_step(alloc, sig, parents, line)? {
            Some(
                Just::EqFactor {
                    parent,
                    first,
                    first_flipped,
                    second,
                    second_flipped,
                    subst,
                },
            ) => Ok(Some(Just::EqFactor {
                parent,
                first,
                first_flipped,
                second,
                second_flipped,
                subst,
            })),
            answer => Ok(answer),
        }
    }

    fn rewrite_step(
        alloc: Global,
        sig: &Signature,
        parents: &[Parent],
        line: &Form,
    ) -> Result<Option<Just>, Memory> {
        match rewrite_step(alloc, sig, parents, line)? {
            Some(
                Just::Rewrite {
                    into,
                    by,
                    target,
                    flipped,
                    by_subst,
                    subst,
                },
            ) => Ok(Some(Just::Rewrite {
                into,
                by,
                target,
                flipped,
                by_subst,
                subst,
            })),
            answer => Ok(answer),
        }
    }

    fn recognise(
        alloc: Global,
        sig: &Signature,
        parents: &[Parent],
        line: &Form,
    ) -> Result<Option<Just>, Memory> {
        match recognise(alloc, sig, parents, line)? {
            Some(just) => Ok(Some(just)),
            None => Ok(None),
        }
    }

    fn is_ready(sig: &Signature, form: &Form) -> bool {
        if is_ready(sig, form) {
            return true;
        }
        false
    }
}
