// The names that the type lines of a text declare.
ghost use Rattle.std.specs.Prelude.{◌≡◌, [], OnOk};
ghost use Rattle.sort_check.specs.Symbols.{is_among, with_name};

use indexmap::IndexSet;
use std::alloc::Global;
use std::marker::Model;
use tptp_base::Memory;

/// Names in the order in which they came, each once. Looking one up takes time that does not grow with their number.
#[derive(Drop)]
pub struct Names {
    known: IndexSet<Vec<u8>>,
}

impl Model for Names {
    ghost use Rattle.std.specs.Prelude.{ℕ, List, map};

    ghost Value = { List (List ℕ) };

    ghost view = { λ names. map (λ k. k.items) names.known.keys };
}

impl Names {
    /// No names yet.
    pub fn new(alloc: Global) -> Names
        ensures { result ≡ [] }
    {
        Names {
            known: IndexSet::new(alloc),
        }
    }

    /// Adds a name, unless it is there.
    pub fn add(&mut self, alloc: Global, name: &[u8]) -> Result<(), Memory>
        ensures { OnOk result (self.new ≡ with_name name.now self.old) }
    {
        let name = Vec::from_slice(alloc, name)?;
        self.known.insert(name)?;
        Ok(())
    }

    /// Whether the name is there.
    pub fn has(&self, name: &[u8]) -> bool
        ensures { result ≡ is_among name.now self.now }
    {
        self.known.contains(name)
    }
}
