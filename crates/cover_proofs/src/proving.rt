//! Proofs of lines by what shows that a rule gives them.
ghost use Rattle.std.specs.Prelude.{IfOk};
ghost use Rattle.clause_proofs.specs.Shown.{ShowsLine};
ghost use Rattle.clause_rules.specs.Justified.{Shows};
ghost use Rattle.clause_rules.specs.Steps.{AreReady, IsReady};

use crate::cover::covered;
use crate::norm::normed_in;
use clause_form::Parent;
use clause_rules::Just;
use derive_kit::Part;
use fof_terms::{Form, Signature};
use rule_proofs::clause_proof;
use std::alloc::Global;
use tptp_base::Memory;

/// A proof of the line from its parents, by the justification that shows a rule to give it.
pub fn prove(
    alloc: Global,
    signature: &Signature,
    parents: &[Parent],
    line: &Form,
    just: Just,
) -> Result<Part, Memory>
    requires ready { AreReady signature.now parents.now }
    requires line { IsReady signature.now line.now }
    requires shown { Shows signature.now parents.now line.now just }
    ensures { IfOk result (ShowsLine signature.now parents.now line.now) }
{
    match just {
        Just::Norm { parent } => normed_in(alloc, signature, parents, line, parent),
        Just::Cover {
            parent,
            path,
            subst,
        } => covered(alloc, signature, parents, line, parent, &path, &subst),
        rest => clause_proof(alloc, signature, parents, line, rest),
    }
}
