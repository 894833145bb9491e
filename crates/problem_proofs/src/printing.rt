// The items of a derivation, where it can be printed.
ghost use Rattle.std.specs.Prelude.{ℕ, ◌≤◌, ◌+◌, length, IfOk, IfErr};
ghost use Rattle.std.specs.List.{All as Each};
ghost use Rattle.fof_terms.specs.Vocabulary.{IsDeclared};
ghost use Rattle.limited_items.specs.Limits.{IfLimit};
ghost use Rattle.problem_proofs.specs.Found.{IsFound};
ghost use Rattle.problem_proofs.specs.Posed.{HasSymbols};
ghost use Rattle.problem_proofs.specs.Proved.{IsProved, MayBeOver};

use crate::proved::{Proved, Why};
use crate::refuting::with_symbols;
use fof_terms::Signature;
use limited_items::{ProveFault, have_small_premises, items_within};
use refutation_lines::Derivation;
use sort_check::GivenEntry;
use std::alloc::Global;

/// What comes of a derivation that is found.
pub(crate) fn printed(
    alloc: Global,
    sig: &Signature,
    given: &[GivenEntry],
    file: &[u8],
    derivation: &Derivation,
) -> Result<Proved, ProveFault>
    requires room { length sig.now.symbols + length derivation.now.functions ≤ 16777216 }
    requires declared { Each (IsDeclared (length sig.now.sorts)) derivation.now.functions }
    ensures proved { (limit : ℕ) → IsFound sig.now given.now limit derivation.now
        → IfOk result (IsProved sig.now given.now file.now limit) }
    ensures limit { (limit : ℕ) → HasSymbols sig.now given.now → IsFound sig.now given.now limit derivation.now
        → IfErr result (IfLimit (MayBeOver sig.now given.now limit)) }
{
    let lines = derivation.lines.as_slice();
    let small = have_small_premises(alloc, lines)?;
    if !small {
        return Ok(Proved::Open(Why::Wide));
    }
    let signature = with_symbols(alloc, sig, derivation.functions.as_slice())?;
    let items = items_within(alloc, file, &signature, sig.symbol_count(), given, lines)?;
    Ok(Proved::Proof(items))
}
