// Where names stand in a list of names.
ghost use Rattle.std.specs.Prelude.{◌≡◌, ◌+◌, ◌<◌, ◌^◌, ◌∷◌, [], OnOk};
ghost use Rattle.tstp_graph.specs.code.Tables.{found_text, found, Puts, AddsText, Adds, Holds, IsAdded, IsEmpty};

use indexmap::IndexMap;
use std::alloc::Global;
use tptp_base::{List, Memory, Name};

// Some places of each of some texts.
#[derive(Drop)]
pub struct TextTable {
    places: IndexMap<Vec<u8>, List<u32>>,
}

impl TextTable {
    // The table without texts.
    #[tactic(auto, unfolding(crate::specs::code::Tables::found_text))]
    fn new(alloc: Global) -> TextTable
        ensures { IsEmpty result }
    {
        TextTable {
            places: IndexMap::new(alloc),
        }
    }

    // Takes the places of a text out.
    fn take(&mut self, alloc: Global, text: &[u8]) -> List<u32>
        ensures taken { result ≡ found_text self.old text.now }
        ensures left { Puts self.old text.now [] self.new }
    {
        match self.places.swap_remove(text) {
            Some(places) => places,
            None => List::new(alloc),
        }
    }

    // Puts the places of a text.
    fn put(&mut self, alloc: Global, text: &[u8], places: List<u32>) -> Result<(), Memory>
        ensures { OnOk result (Puts self.old text.now places self.new) }
    {
        self.places.insert(Vec::from_slice(alloc, text)?, places)?;
        Ok(())
    }

    // Adds a place of a text, behind those that it has.
    fn add(&mut self, alloc: Global, text: &[u8], place: u32) -> Result<(), Memory>
        ensures { OnOk result (AddsText self.old text.now place self.new) }
    {
        let mut places = self.take(alloc, text);
        places.push(place)?;
        self.put(alloc, text, places)
    }

    // The places of a text, in the order in which they were added.
    fn places(&self, text: &[u8]) -> &[u32]
        ensures { result.now ≡ found_text self.now text.now }
    {
        match self.places.get(text) {
            Some(places) => places.as_slice(),
            None => &[],
        }
    }
}

/// Where each of some names stands among them.
#[derive(Drop)]
pub struct NameTable {
    words: TextTable,
    integers: TextTable,
    pub count: u32,
}

impl NameTable {
    /// The table without names.
    pub fn new(alloc: Global) -> NameTable
        ensures holds { Holds result [] }
        ensures count { result.count ≡ 0 }
    {
        NameTable {
            words: TextTable::new(alloc),
            integers: TextTable::new(alloc),
            count: 0,
        }
    }

    /// Adds a name behind those that are there.
    pub fn add(&mut self, alloc: Global, name: &Name) -> Result<(), Memory>
        requires { self.old.count + 1 < 2 ^ 32 }
        ensures count { OnOk result (self.new.count ≡ self.old.count + 1) }
        ensures holds { OnOk result (IsAdded self.old (name.now ∷ []) self.new) }
    {
        let place = self.count;
        self.note(alloc, name, place)?;
        self.count = place + 1;
        Ok(())
    }

    // Adds a place of a name, behind those that it has.
    fn note(&mut self, alloc: Global, name: &Name, place: u32) -> Result<(), Memory>
        ensures adds { OnOk result (Adds self.old name.now place self.new) }
        ensures count { self.new.count ≡ self.old.count }
    {
        match name {
            Name::Word(word) => self.words.add(alloc, word.as_slice(), place),
            Name::Integer(number) => self.integers.add(alloc, number.as_slice(), place),
        }
    }

    /// The places of a name.
    pub fn places(&self, name: &Name) -> &[u32]
        ensures { result.now ≡ found self.now name.now }
    {
        match name {
            Name::Word(word) => self.words.places(word.as_slice()),
            Name::Integer(number) => self.integers.places(number.as_slice()),
        }
    }
}
