// How many symbols searches may bring in.
ghost use Rattle.std.specs.Prelude.{◌≡◌, ◌++◌, ◌∷◌, [], if◌then◌else◌, List as list, IfOk, OnOk, map, sum};
ghost use Rattle.sort_check.specs.declared.line.GivenEntry.{GivenEntry as given_entry};
ghost use Rattle.derivation_limits.specs.Names.{total_of_name};
ghost use Rattle.derivation_limits.specs.Totals.{capped, total_of};
ghost use Rattle.limited_items.specs.Sources.{is_unknown as is_unknown_name};
ghost use Rattle.limited_items.specs.code.Amounts.{AreWanted, wanted_by as wanted_by_tables};

use derivation_items::LineSource;
use derivation_limits::{NameTotals, Totals};
use sort_check::GivenEntry;
use std::alloc::Global;
use step_clauses::wanted;
use tptp_base::{Memory, Name, Text};

// The symbols that the given formulas of each name may bring in, and those that all of them may.
#[derive(Drop)]
pub struct Wanted {
    pub names: NameTotals,
    pub all: u64,
}

/// The symbols that these formulas may bring in.
pub(crate) fn wanted_by_given(alloc: Global, given: &[GivenEntry]) -> Result<Wanted, Memory>
    ensures { IfOk result (AreWanted given.now) }
{
    let mut by_given = Wanted {
        names: NameTotals::new(alloc),
        all: 0,
    };
    for entry in given {
        add_entry(alloc, entry, &mut by_given)?;
    }
    Ok(by_given)
}

// Adds those that a further formula may bring in.
fn add_entry(alloc: Global, entry: &GivenEntry, by_given: &mut Wanted) -> Result<(), Memory>
    ensures { OnOk result ((given : list given_entry) → AreWanted given by_given.old
        → AreWanted (given ++ entry.now ∷ []) by_given.new) }
{
    let amount = wanted(alloc, &entry.form, true)?;
    by_given.names.add(alloc, &entry.name, amount)?;
    let all = by_given.all.saturating_add(amount);
    by_given.all = all;
    Ok(())
}

/// The symbols that the formulas from which a line is to follow may bring in, by the tables of what is given and of the
/// lines before.
pub(crate) fn wanted_by(by_given: &Wanted, by_lines: &Totals, source: &LineSource) -> u64
    ensures { result ≡ wanted_by_tables by_given.now by_lines.now source.now }
{
    match source {
        LineSource::Given(name) => wanted_by_name(by_given, name),
        LineSource::Skolemized(line) | LineSource::ClauseOf(line) => {
            by_lines.total(line.as_slice())
        }
        LineSource::Inferred(lines) => total_of_all(by_lines, lines.as_slice()),
    }
}

// Those that the given formulas may bring in that a leaf of this name names.
fn wanted_by_name(by_given: &Wanted, name: &Name) -> u64
    ensures { result ≡ (if is_unknown_name name.now then by_given.now.all
        else total_of_name by_given.now.names name.now) }
{
    if is_unknown(name) {
        by_given.all
    } else {
        by_given.names.total(name)
    }
}

// Whether the name says nothing of where a formula is from.
fn is_unknown(name: &Name) -> bool
    ensures { result ≡ is_unknown_name name.now }
{
    match name {
        Name::Word(word) => word.as_slice() == b"unknown".as_slice(),
        Name::Integer(_) => false,
    }
}

// The totals of these names together.
fn total_of_all(totals: &Totals, names: &[Text]) -> u64
    ensures { result ≡ capped (sum (map (total_of totals.now) names.now)) }
{
    let mut total: u64 = 0;
    for name in names {
        total = total.saturating_add(totals.total(name.as_slice()));
    }
    total
}
