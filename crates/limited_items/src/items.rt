// The items of a derivation within the limits.
ghost use Rattle.std.specs.Prelude.{◌≡◌, ◌+◌, ◌-◌, ◌^◌, min, length, IfOk, IfErr};
ghost use Rattle.std.specs.List.{AllZip};
ghost use Rattle.limited_items.specs.Limits.{AreWithin, IfLimit, IsLineOver, IsOver, IsSomeOver};
ghost use Rattle.limited_items.specs.Printed.{IsPrinted};

use crate::fault::ProveFault;
use crate::room::have_room;
use derivation_items::{ProofLine, line_item, typing_items};
use derivation_limits::{MAX_BOUND, bound_count, nests_within};
use fof_terms::{Signature, SymId};
use prove_out::surface_of;
use sort_check::GivenEntry;
use std::alloc::Global;
use tptp_base::{Item, LimitName, List};

/// How many formulas a derivation may have, type lines included.
const MAX_LINES: usize = 1_048_576;

/// The items of the lines, in a derivation from the problem of that file that gives these formulas. Before them stand
/// type lines of the sorts and of the symbols from `first` on. `Limit` where a limit on derivations is passed: first
/// that on formulas, then those on variables and on nesting, at the first line that is over one of them, and then that
/// on symbols.
pub fn items_within(
    alloc: Global,
    file: &[u8],
    sig: &Signature,
    first: SymId,
    given: &[GivenEntry],
    lines: &[ProofLine],
) -> Result<List<Item>, ProveFault>
    ensures items { IfOk result (AreWithin file.now sig.now first given.now lines.now) }
    ensures limit { IfErr result (IfLimit (IsOver sig.now first given.now lines.now)) }
{
    let mut items = typing_items(alloc, sig, first)?;
    if count_of(&items, lines) > MAX_LINES {
        return Err(ProveFault::Limit(LimitName::Lines));
    }
    items.append(items_of_lines(alloc, file, sig, lines)?)?;
    let symbols = sig.symbol_count();
    let room = have_room(alloc, u64::from(symbols), given, lines)?;
    if !room {
        return Err(ProveFault::Limit(LimitName::Symbols));
    }
    Ok(items)
}

// How many formulas there are with these lines, up to the greatest value.
fn count_of(items: &List<Item>, lines: &[ProofLine]) -> usize
    ensures { result ≡ min (length items.now + length lines.now) (2 ^ 64 - 1) }
{
    items.len().saturating_add(lines.len())
}

// The items of the lines alone.
fn items_of_lines(
    alloc: Global,
    file: &[u8],
    sig: &Signature,
    lines: &[ProofLine],
) -> Result<List<Item>, ProveFault>
    ensures items { IfOk result (AllZip (IsPrinted file.now sig.now) lines.now) }
    ensures limit { IfErr result (IfLimit (IsSomeOver sig.now lines.now)) }
{
    let mut items = List::new(alloc);
    for line in lines {
        items.push(item_of_line(alloc, file, sig, line)?)?;
    }
    Ok(items)
}

// The item of a line.
fn item_of_line(
    alloc: Global,
    file: &[u8],
    sig: &Signature,
    line: &ProofLine,
) -> Result<Item, ProveFault>
    ensures item { IfOk result (IsPrinted file.now sig.now line.now) }
    ensures limit { IfErr result (IfLimit (IsLineOver sig.now line.now)) }
{
    if bound_count(&line.form) > MAX_BOUND {
        return Err(ProveFault::Limit(LimitName::Variables));
    }
    let formula = surface_of(alloc, sig, &line.form)?;
    if !nests_within(&formula) {
        return Err(ProveFault::Limit(LimitName::Nesting));
    }
    Ok(line_item(alloc, file, line.name.as_slice(), formula, &line.source)?)
}
