// Totals by names of items.
ghost use Rattle.std.specs.Prelude.{◌≡◌, OnOk};
ghost use Rattle.derivation_limits.specs.Names.{AddsName, HasNone, total_of_name};

use crate::totals::Totals;
use std::alloc::Global;
use tptp_base::{Memory, Name};

/// A total for each of some names of items, up to the greatest value. Of other names it is 0.
#[derive(Drop)]
pub struct NameTotals {
    words: Totals,
    integers: Totals,
}

impl NameTotals {
    /// The table without names.
    pub fn new(alloc: Global) -> NameTotals
        ensures { HasNone result }
    {
        NameTotals {
            words: Totals::new(alloc),
            integers: Totals::new(alloc),
        }
    }

    /// Adds an amount to the total of a name.
    pub fn add(&mut self, alloc: Global, name: &Name, amount: u64) -> Result<(), Memory>
        ensures { OnOk result (AddsName self.old name.now amount self.new) }
    {
        match name {
            Name::Word(word) => self.words.add(alloc, word.as_slice(), amount),
            Name::Integer(number) => self.integers.add(alloc, number.as_slice(), amount),
        }
    }

    /// The total of a name.
    pub fn total(&self, name: &Name) -> u64
        ensures { result ≡ total_of_name self.now name.now }
    {
        match name {
            Name::Word(word) => self.words.total(word.as_slice()),
            Name::Integer(number) => self.integers.total(number.as_slice()),
        }
    }
}
