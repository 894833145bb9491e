// Where symbols and sorts are found by name.
ghost use Rattle.std.specs.Prelude.{◌≡◌, ℕ, List, None, OnOk, OnErr};
ghost use Rattle.fof_terms.specs.Directory.{entered};
ghost use Rattle.fof_terms.specs.code.Directory.{Enters, HasSameEntries};

use indexmap::IndexMap;
use std::alloc::Global;
use tptp_base::Memory;

/// Numbers, each under a name and a number of arguments.
#[derive(Drop)]
pub struct Directory {
    parts: IndexMap<usize, IndexMap<Vec<u8>, u32>>,
}

impl Directory {
    /// The directory without entries.
    pub fn new(alloc: Global) -> Directory
        ensures { (name : List ℕ) (arity : ℕ) → entered result name arity ≡ None }
    {
        Directory {
            parts: IndexMap::new(alloc),
        }
    }

    /// The number under the name and the number of arguments.
    pub fn find(&self, name: &[u8], arity: usize) -> Option<u32>
        ensures { result ≡ entered self.now name.now arity }
    {
        match self.parts.get(&arity) {
            Some(part) => part.get(name).copied(),
            None => None,
        }
    }

    /// Puts the number under the name and the number of arguments.
    pub fn enter(
        &mut self,
        alloc: Global,
        name: Vec<u8>,
        arity: usize,
        number: u32,
    ) -> Result<(), Memory>
        ensures ok { OnOk result (Enters self.old name.items arity number self.new) }
        ensures err { OnErr result (HasSameEntries self.old self.new) }
    {
        match self.parts.get_mut(&arity) {
            Some(part) => {
                part.insert(name, number)?;
            }
            None => {
                let mut part = IndexMap::new(alloc);
                part.insert(name, number)?;
                self.parts.insert(arity, part)?;
            }
        }
        Ok(())
    }
}
