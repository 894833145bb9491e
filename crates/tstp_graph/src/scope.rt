// What names mean in a derivation.
ghost use Rattle.std.specs.Prelude.{◌≡◌, ◌+◌, ◌<◌, ◌≤◌, ◌^◌, [], length, IfOk, OnOk};
ghost use Rattle.tstp_graph.specs.code.Tables.{Holds, IsAdded};
ghost use Rattle.tstp_graph.specs.Lines.{names_in, formula_of, with_formula_name};
ghost use Rattle.tstp_graph.specs.code.Meaning.{means_in};
ghost use Rattle.tstp_graph.specs.Meaning.{means_of};

use crate::lines::formula_of;
use crate::names::NameTable;
use std::alloc::Global;
use tptp_base::{Item, Memory, Name};

/// The names of a derivation: of its lines, of its type lines, and of the given formulas.
#[derive(Drop)]
pub struct Scope {
    pub lines: NameTable,
    pub types: NameTable,
    pub given: NameTable,
}

/// The names of a derivation.
pub fn scope_of(alloc: Global, items: &[Item], given: &[Name]) -> Result<Scope, Memory>
    requires items { length items.now < 2 ^ 32 }
    requires given { length given.now < 2 ^ 32 }
    ensures { IfOk result (λ scope. means_in scope ≡ means_of items.now given.now) }
{
    let lines = formula_names(alloc, items, false)?;
    let types = formula_names(alloc, items, true)?;
    let given = given_names(alloc, given)?;
    Ok(Scope {
        lines,
        types,
        given,
    })
}

// The names of the formulas that have role type, or of those that haven't.
fn formula_names(alloc: Global, items: &[Item], is_type: bool) -> Result<NameTable, Memory>
    requires { length items.now < 2 ^ 32 }
    ensures { IfOk result (λ table. Holds table (names_in is_type items.now)) }
{
    let mut table = NameTable::new(alloc);
    for item in items {
        add_item(alloc, &mut table, item, is_type)?;
    }
    Ok(table)
}

// Adds the name of an item, if it is a formula that has role type or hasn't.
fn add_item(alloc: Global, table: &mut NameTable, item: &Item, is_type: bool) -> Result<(), Memory>
    requires { table.old.count + 1 < 2 ^ 32 }
    ensures count { OnOk result (table.new.count ≤ table.old.count + 1) }
    ensures holds { OnOk result (IsAdded table.old (with_formula_name (formula_of is_type item.now) []) table.new) }
{
    match formula_of(item, is_type) {
        Some(formula) => table.add(alloc, &formula.name),
        None => Ok(()),
    }
}

// The names of the given formulas.
fn given_names(alloc: Global, given: &[Name]) -> Result<NameTable, Memory>
    requires { length given.now < 2 ^ 32 }
    ensures { IfOk result (λ table. Holds table given.now) }
{
    let mut table = NameTable::new(alloc);
    for name in given {
        table.add(alloc, name)?;
    }
    Ok(table)
}
