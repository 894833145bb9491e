//! Proofs of lines by what shows that a rule gives them.
ghost use Rattle.std.specs.Prelude.{IfOk};
ghost use Rattle.clause_proofs.specs.Shown.{ShowsLine};
ghost use Rattle.clause_rules.specs.Answers.{rule_of};
ghost use Rattle.clause_rules.specs.Justified.{Shows};
ghost use Rattle.clause_rules.specs.Steps.{AreReady, IsReady};
ghost use Rattle.rule_proofs.specs.ByRule.{GoesByClauses};

use crate::eqfactor::{Factor, factored};
use crate::paramodulation::{Change as Place, paramodulated};
use crate::resolution::resolved;
use crate::rewrite::{Change as Replacing, rewritten};
use crate::tautology::trivial;
use clause_form::Parent;
use clause_rules::Just;
use derive_kit::Part;
use fof_terms::{Form, Signature};
use std::alloc::Global;
use tptp_base::Memory;

/// A proof of the line by the justification, which is by a rule that goes by clauses alone: none of `norm` and `cover`.
pub fn clause_proof(
    alloc: Global,
    signature: &Signature,
    parents: &[Parent],
    line: &Form,
    just: Just,
) -> Result<Part, Memory>
    requires ready { AreReady signature.now parents.now }
    requires line { IsReady signature.now line.now }
    requires shown { Shows signature.now parents.now line.now just }
    requires clauses { GoesByClauses (rule_of just) }
    ensures { IfOk result (ShowsLine signature.now parents.now line.now) }
{
    match just {
        Just::Norm { .. } => unreachable!(),
        Just::Cover { .. } => unreachable!(),
        Just::Tautology => trivial(alloc, signature, line),
        Just::Resolution {
            left,
            right,
            left_lit,
            right_lit: _,
            subst,
        } => resolved(
            alloc, signature, parents, line, left, right, left_lit, &subst,
        ),
        Just::Paramodulation {
            into,
            from,
            into_lit,
            at,
            from_lit,
            flipped,
            subst,
        } => {
            let place = Place {
                into_lit,
                at,
                from_lit,
                flipped,
            };
            paramodulated(alloc, signature, parents, line, into, from, &place, &subst)
        }
        Just::EqFactor {
            parent,
            first,
            first_flipped,
            second,
            second_flipped,
            subst,
        } => {
            let factor = Factor {
                first,
                first_flipped,
                second,
                second_flipped,
            };
            factored(alloc, signature, parents, line, parent, factor, &subst)
        }
        Just::Rewrite {
            into,
            by,
            target,
            flipped,
            by_subst,
            subst,
        } => {
            let replacing = Replacing {
                target,
                flipped,
                matching: by_subst,
            };
            rewritten(
                alloc, signature, parents, line, into, by, &replacing, &subst,
            )
        }
    }
}
