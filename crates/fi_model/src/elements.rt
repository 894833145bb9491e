// The elements of a sort.
ghost use Rattle.std.specs.Prelude.{◌≡◌, ◌++◌, [], ◌∷◌, not, position, length, IfOk};
ghost use Rattle.std.specs.Bool.{OnTrue};
ghost use Rattle.std.specs.List.{list_any};
ghost use Rattle.std.specs.Str.{bytes_eq};

use indexmap::IndexSet;
use std::alloc::Global;
use std::marker::Model;
use tptp_base::Memory;

/// The elements of a sort, each once, in order. Finding the place of one takes time that does not grow with their
/// number.
#[derive(Drop)]
pub struct Elements {
    known: IndexSet<Vec<u8>>,
}

impl Model for Elements {
    ghost use Rattle.std.specs.Prelude.{ℕ, List, map};

    ghost Value = { List (List ℕ) };

    ghost view = { λ elements. map (λ k. k.items) elements.known.keys };
}

impl Elements {
    /// No elements.
    pub fn new(alloc: Global) -> Elements
        ensures { result ≡ [] }
    {
        Elements {
            known: IndexSet::new(alloc),
        }
    }

    /// Adds an element behind the others, and answers whether it was not there.
    pub fn add(&mut self, alloc: Global, name: &[u8]) -> Result<bool, Memory>
        ensures told { IfOk result (λ added. added ≡ not (list_any (bytes_eq name.now) self.old)) }
        ensures added { IfOk result (λ added. OnTrue added (self.new ≡ self.old ++ name.now ∷ [])) }
    {
        let name = Vec::from_slice(alloc, name)?;
        let (_, added) = self.known.insert_full(name)?;
        Ok(added)
    }

    /// The place of an element; None where it is not there.
    pub fn place(&self, name: &[u8]) -> Option<usize>
        ensures { result ≡ position (bytes_eq name.now) self.now }
    {
        self.known.get_index_of(name)
    }

    /// How many there are.
    pub fn len(&self) -> usize
        ensures { result ≡ length self.now }
    {
        self.known.len()
    }
}
