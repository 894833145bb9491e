//! Falsehood, by a fact whose literals are known to be false.
ghost use Rattle.std.specs.Prelude.{IfOk};
ghost use Rattle.chain_proofs.specs.Known.{AreKept};
ghost use Rattle.chain_proofs.specs.code.Parts.{IsRefutedBy};

use crate::context::false_at;
use crate::fact::Fact;
use crate::known::Known;
use clause_proofs::line;
use derive_kit::{Part, and_i, not_e};
use std::alloc::Global;
use tptp_base::{List, Memory};

/// Falsehood by the fact, where `count` literals are known, the first `base` together. A literal of the fact that is not
/// among the known ones stands behind them.
pub fn refuted_by(
    alloc: Global,
    known: &Known,
    base: usize,
    count: usize,
    fact: &Fact,
) -> Result<Part, Memory>
    requires { AreKept known.now }
    ensures { IfOk result (IsRefutedBy known.now.lits base count fact.now) }
{
    let mut parts = List::new(alloc);
    let lits = fact.lits.as_slice();
    for lit in lits {
        let place = known.place_or_next(alloc, lit)?;
        let part = false_at(alloc, base, count, place)?;
        parts.push(part.into_inner())?;
    }
    let all = and_i(alloc, parts)?;
    not_e(alloc, line(alloc, fact.number)?, all)
}
