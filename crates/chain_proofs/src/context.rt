//! What is known to be false, in a proof.
ghost use Rattle.std.specs.Prelude.{◌≡◌, IfOk};
ghost use Rattle.chain_proofs.specs.code.Parts.{false_tree};

use clause_proofs::number;
use derive_kit::{Part, and_e, hyp};
use std::alloc::Global;
use tptp_base::Memory;

/// That the known literal at the place is false, where so many are known: the first `base` by a hypothesis that denies
/// all of them, and each further one by a hypothesis of its own.
pub fn false_at(alloc: Global, base: usize, count: usize, place: usize) -> Result<Part, Memory>
    ensures { IfOk result (λ part. part ≡ false_tree base count place) }
{
    if place < base {
        let whole = hyp(alloc, number(count.saturating_sub(base))?)?;
        return and_e(alloc, number(place)?, whole);
    }
    let last = count.saturating_sub(1);
    hyp(alloc, number(last.saturating_sub(place))?)
}
