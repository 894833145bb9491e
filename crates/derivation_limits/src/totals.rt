// Totals by name.
ghost use Rattle.std.specs.Prelude.{◌≡◌, OnOk};
ghost use Rattle.derivation_limits.specs.Totals.{Adds, IsEmpty, total_of};

use indexmap::IndexMap;
use std::alloc::Global;
use tptp_base::Memory;

/// A total for each of some names, up to the greatest value. Of other names it is 0.
#[derive(Drop)]
pub struct Totals {
    totals: IndexMap<Vec<u8>, u64>,
}

impl Totals {
    /// The table without names.
    #[tactic(auto, unfolding(crate::specs::Totals::total_of))]
    pub fn new(alloc: Global) -> Totals
        ensures { IsEmpty result }
    {
        Totals {
            totals: IndexMap::new(alloc),
        }
    }

    /// Adds an amount to the total of a name.
    pub fn add(&mut self, alloc: Global, name: &[u8], amount: u64) -> Result<(), Memory>
        ensures { OnOk result (Adds self.old name.now amount self.new) }
    {
        let total = self.total(name).saturating_add(amount);
        self.totals.insert(Vec::from_slice(alloc, name)?, total)?;
        Ok(())
    }

    /// The total of a name.
    pub fn total(&self, name: &[u8]) -> u64
        ensures { result ≡ total_of self.now name.now }
    {
        match self.totals.get(name) {
            Some(total) => *total,
            None => 0,
        }
    }
}
