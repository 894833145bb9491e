// New symbols of a line.
ghost use Rattle.std.specs.Prelude.{IfOk, OnOk};
ghost use Rattle.function_choices.specs.NewSymbols.{AreNewSymbols};
ghost use Rattle.function_choices.specs.code.Offered.{IsAdded};

use crate::order::is_among;
use fof_terms::{Form, SymId, symbols_of};
use proof_check::Theory;
use std::alloc::Global;
use tptp_base::{List, Memory};

/// The most new symbols of a line that are looked at.
const MAX_SYMBOLS: usize = 100;

// Symbols of the line that are new to the theory: all, or as many as are looked at.
pub(crate) fn new_symbols(
    alloc: Global,
    theory: &Theory,
    line: &Form,
) -> Result<List<SymId>, Memory>
    ensures { IfOk result (AreNewSymbols theory.now line.now) }
{
    let mut all = List::new(alloc);
    symbols_of(line, &mut all)?;
    let listed = all.as_slice();
    let mut found = List::new(alloc);
    for symbol in listed {
        add_new(theory, *symbol, &mut found)?;
    }
    Ok(found)
}

// Adds the symbol, if it is new to the theory, is not there yet, and not as many are as are looked at.
fn add_new(theory: &Theory, symbol: SymId, found: &mut List<SymId>) -> Result<(), Memory>
    ensures { OnOk result (IsAdded theory.now symbol found.old found.new) }
{
    if found.len() >= MAX_SYMBOLS {
        return Ok(());
    }
    if theory.uses(symbol) {
        return Ok(());
    }
    if is_among(found.as_slice(), symbol) {
        return Ok(());
    }
    found.push(symbol)?;
    Ok(())
}
