//! The proof of a stretch.
ghost use Rattle.std.specs.Prelude.{◌≡◌, IfOk};
ghost use Rattle.chain_proofs.specs.Known.{AreKept};
ghost use Rattle.chain_proofs.specs.Stretches.{IsStretchProof};
ghost use Rattle.chain_proofs.specs.code.Steps.{wrapped as around};

use crate::fact::{Fact, all_false};
use crate::refuting::refuted_by;
use crate::stretching::{Step, Stretch};
use derive_kit::{Part, imp_e, imp_i, not_i};
use std::alloc::Global;
use tptp_base::{List, Memory};

/// That not all of the stretch's literals are false, by a fact all of whose literals are known to be false at its end.
pub fn stretch_proof(alloc: Global, stretch: Stretch, last: &Fact) -> Result<Part, Memory>
    requires { AreKept stretch.known }
    ensures { IfOk result (IsStretchProof stretch last.now) }
{
    let denied = all_false(alloc, stretch.lits.as_slice())?;
    let base = stretch.lits.len();
    let count = stretch.known.lits.len();
    let refuted = refuted_by(alloc, &stretch.known, base, count, last)?;
    let part = wrapped(alloc, stretch.steps, refuted)?;
    not_i(alloc, denied, part)
}

// What the part shows under all steps, by the steps.
fn wrapped(alloc: Global, steps: List<Step>, part: Part) -> Result<Part, Memory>
    ensures { IfOk result (λ made. made ≡ around steps part) }
{
    let mut left = steps;
    let mut made = part;
    while let Some(step) = left.pop() {
        let Step { fact, part } = step;
        let under = imp_i(alloc, fact, made)?;
        made = imp_e(alloc, under, part)?;
    }
    Ok(made)
}
