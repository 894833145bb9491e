// Room for the symbols that searches for the lines may bring in.
ghost use Rattle.std.specs.Prelude.{◌↔◌, ◌+◌, ◌≤◌, IfOk, IsTrue};
ghost use Rattle.fof_terms.specs.declared.form.Form.{Not};
ghost use Rattle.step_clauses.specs.Room.{wanted as wanted_of};
ghost use Rattle.limited_items.specs.Room.{HaveRoom};
ghost use Rattle.limited_items.specs.code.Amounts.{wanted_by as wanted_by_tables};

use crate::wanted::{Wanted, wanted_by, wanted_by_given};
use derivation_items::ProofLine;
use derivation_limits::Totals;
use fof_terms::MAX_SYMBOLS;
use sort_check::GivenEntry;
use std::alloc::Global;
use step_clauses::wanted;
use tptp_base::Memory;

/// Whether, beside so many symbols, there is room for each line, in a derivation from these given formulas.
pub(crate) fn have_room(
    alloc: Global,
    symbols: u64,
    given: &[GivenEntry],
    lines: &[ProofLine],
) -> Result<bool, Memory>
    ensures { IfOk result (λ room. IsTrue room ↔ HaveRoom symbols given.now lines.now) }
{
    let by_given = wanted_by_given(alloc, given)?;
    let mut by_lines = Totals::new(alloc);
    for line in lines {
        let has = has_room(alloc, symbols, &by_given, &by_lines, line)?;
        if !has {
            return Ok(false);
        }
        let amount = wanted(alloc, &line.form, true)?;
        by_lines.add(alloc, line.name.as_slice(), amount)?;
    }
    Ok(true)
}

// Whether there is room for the line, by the tables of what is given and of the lines before.
fn has_room(
    alloc: Global,
    symbols: u64,
    by_given: &Wanted,
    by_lines: &Totals,
    line: &ProofLine,
) -> Result<bool, Memory>
    ensures { IfOk result (λ room. IsTrue room
        ↔ (symbols + (wanted_by_tables by_given.now by_lines.now line.now.source + wanted_of (Not line.now.form))
        ≤ 16777216)) }
{
    let beside = symbols.saturating_add(wanted_by(by_given, by_lines, &line.source));
    let own = wanted(alloc, &line.form, false)?;
    Ok(beside.saturating_add(own) <= MAX_SYMBOLS as u64)
}
