//! Lines that follow by a rule, as what an inference gives does.
ghost use Rattle.std.specs.Prelude.{IfOk};
ghost use Rattle.clause_proofs.specs.Shown.{ShowsLine};
ghost use Rattle.clause_rules.specs.Steps.{AreReady, IsReady};
ghost use Rattle.inference_proofs.specs.Inferred.{IsRuleStep};

use crate::covering::by_covering;
use clause_form::Parent;
use derive_kit::Part;
use fof_terms::{Form, Signature};
use rule_proofs::clause_proof;
use rule_steps::{eqfactor_step, paramodulation_step, resolution_step};
use std::alloc::Global;
use tptp_base::Memory;

/// A proof of the line, which follows by one of the rules `resolution`, `paramodulation` and `eqfactor`, or covers the
/// clause of a parent.
///
/// So does what an inference gives: resolution, superposition and equality factoring are steps by these rules. The
/// conclusion of factoring or of equality resolution covers the premise itself, so its proof needs no normal form.
pub fn step_proof(
    alloc: Global,
    signature: &Signature,
    parents: &[Parent],
    line: &Form,
) -> Result<Part, Memory>
    requires ready { AreReady signature.now parents.now }
    requires line { IsReady signature.now line.now }
    requires step { IsRuleStep signature.now parents.now line.now }
    ensures { IfOk result (ShowsLine signature.now parents.now line.now) }
{
    if let Some(just) = resolution_step(alloc, signature, parents, line)? {
        return clause_proof(alloc, signature, parents, line, just);
    }
    if let Some(just) = paramodulation_step(alloc, signature, parents, line)? {
        return clause_proof(alloc, signature, parents, line, just);
    }
    if let Some(just) = eqfactor_step(alloc, signature, parents, line)? {
        return clause_proof(alloc, signature, parents, line, just);
    }
    match by_covering(alloc, signature, parents, line)? {
        Some(proof) => Ok(proof),
        None => unreachable!(),
    }
}
