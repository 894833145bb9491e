// An index by the symbols at the heads of terms.
ghost use Rattle.std.specs.Prelude.{◌≡◌, ◌++◌, [], ◌∷◌, true, IfOk, OnOk, OnErr};
ghost use Rattle.clause_index.specs.Entries.{ArePlaces};
ghost use Rattle.clause_index.specs.Heads.{IsFiled};

use crate::entry::Entry;
use crate::heads::Heads;
use crate::keys::{Key, Keys, keys_of};
use crate::partners::Partners;
use crate::places::{once_each, push_numbered, push_places};
use fof_terms::Term;
use std::alloc::Global;
use std::marker::Model;
use tptp_base::{List, Memory};

/// A whole index. Where a term has a symbol at its head it looks only at entries with that symbol, and at those with
/// a variable there.
#[derive(Drop)]
pub struct Index {
    alloc: Global,
    entries: List<Entry>,
    positive: Heads,
    negative: Heads,
}

impl Model for Index {
    ghost use Rattle.std.specs.Prelude.{List, true, false};
    ghost use Rattle.clause_index.specs.declared.entry.Entry.{Entry as Kept};
    ghost use Rattle.clause_index.specs.Heads.{IsFiled};

    ghost Value = { List Kept };

    ghost view = { λ s. s.entries };

    ghost invariant = { λ s. IsFiled true s.entries s.positive × IsFiled false s.entries s.negative };
}

impl Index {
    /// The index without entries.
    pub fn new(alloc: Global) -> Index
        ensures { result ≡ [] }
    {
        Index {
            alloc,
            entries: List::new(alloc),
            positive: Heads::new(alloc),
            negative: Heads::new(alloc),
        }
    }
}

impl Partners for Index {
    ghost entries = { λ s. s };

    ghost is_whole = { λ _. true };

    fn add(&mut self, place: u32, positive: bool, term: &Term) -> Result<(), Memory> {
        let entry = Entry {
            place,
            positive,
            keys: keys_of(term),
        };
        if positive {
            file(self.alloc, entry, &mut self.entries, &mut self.positive)
        } else {
            file(self.alloc, entry, &mut self.entries, &mut self.negative)
        }
    }

    fn candidates(&self, alloc: Global, positive: bool, term: &Term) -> Result<List<u32>, Memory> {
        let keys = keys_of(term);
        if positive {
            places_in(alloc, &self.entries, &self.positive, true, &keys)
        } else {
            places_in(alloc, &self.entries, &self.negative, false, &keys)
        }
    }
}

// Puts the entry behind the others, and its number under its head.
fn file(
    alloc: Global,
    entry: Entry,
    entries: &mut List<Entry>,
    heads: &mut Heads,
) -> Result<(), Memory>
    requires filed { IsFiled entry.positive entries.old heads.old }
    ensures added { OnOk result (entries.new ≡ entries.old ++ entry ∷ []) }
    ensures err { OnErr result (entries.new ≡ entries.old) }
    ensures filed { IsFiled entry.positive entries.new heads.new }
{
    let number = entries.len();
    entries.push(entry)?;
    match heads.put(alloc, entry.keys.whole, number) {
        Ok(()) => Ok(()),
        Err(_) => {
            entries.pop();
            Err(Memory)
        }
    }
}

// The places of the partners among the entries, whose numbers stand under these heads.
fn places_in(
    alloc: Global,
    entries: &List<Entry>,
    heads: &Heads,
    positive: bool,
    keys: &Keys,
) -> Result<List<u32>, Memory>
    requires { IsFiled positive entries.now heads.now }
    ensures { IfOk result (λ places. ArePlaces entries.now positive keys.now places) }
{
    let mut places = Vec::new(alloc);
    match keys.whole {
        Key::Open => push_places(entries.as_slice(), positive, keys, &mut places)?,
        Key::Head(symbol) => {
            push_numbered(entries, heads.under(symbol), positive, keys, &mut places)?;
            push_numbered(entries, heads.open(), positive, keys, &mut places)?;
        }
    }
    Ok(once_each(places))
}
