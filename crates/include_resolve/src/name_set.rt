// Sets of names.
ghost use Rattle.std.specs.Prelude.{◌≡◌, ◌||◌, false, List, ℕ, OnOk, IfErr};
ghost use Rattle.std.specs.Str.{bytes_eq};
ghost use Rattle.tptp_base.specs.declared.name.Name.{Name as NameOf};
ghost use Rattle.include_resolve.specs.Selection.{is_same_name};
ghost use Rattle.include_resolve.specs.code.NameSet.{knows, has};

use crate::IncludeFault;
use indexmap::IndexSet;
use std::alloc::Global;
use tptp_base::Name;

/// Names, of which each is found in a time that doesn't grow with their number.
#[derive(Drop)]
pub struct NameSet {
    pub words: IndexSet<Vec<u8>>,
    pub integers: IndexSet<Vec<u8>>,
}

impl NameSet {
    /// No names.
    pub fn new(alloc: Global) -> NameSet
        ensures { (other : NameOf) → knows result other ≡ false }
    {
        NameSet {
            words: IndexSet::new(alloc),
            integers: IndexSet::new(alloc),
        }
    }

    /// Adds a name, where it is not there yet.
    pub fn add(&mut self, alloc: Global, name: &Name) -> Result<(), IncludeFault>
        ensures ok { OnOk result ((other : NameOf)
            → knows self.new other ≡ (is_same_name other name.now || knows self.old other)) }
        ensures err { IfErr result (λ fault. fault ≡ IncludeFault.Memory) }
    {
        match name {
            Name::Word(text) => insert(alloc, &mut self.words, text.as_slice()),
            Name::Integer(text) => insert(alloc, &mut self.integers, text.as_slice()),
        }
    }

    /// Whether the name is there.
    pub fn contains(&self, name: &Name) -> bool
        ensures { result ≡ knows self.now name.now }
    {
        match name {
            Name::Word(text) => self.words.contains(text.as_slice()),
            Name::Integer(text) => self.integers.contains(text.as_slice()),
        }
    }
}

// Adds a text, where it is not there yet.
fn insert(alloc: Global, known: &mut IndexSet<Vec<u8>>, text: &[u8]) -> Result<(), IncludeFault>
    ensures ok { OnOk result ((other : List ℕ)
        → has known.new.keys other ≡ (bytes_eq other text.now || has known.old.keys other)) }
    ensures err { IfErr result (λ fault. fault ≡ IncludeFault.Memory) }
{
    let key = Vec::from_slice(alloc, text)?;
    known.insert(key)?;
    Ok(())
}
