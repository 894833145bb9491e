// Symbols of one name.
ghost use Rattle.std.specs.Prelude.{◌≡◌, ◌+◌, ◌<◌, [], length, take, slice_get, Some, IfOk, OnOk};
ghost use Rattle.std.specs.List.{list_any};
ghost use Rattle.sort_check.specs.Namesakes as spec;
ghost use Rattle.sort_check.specs.code.Namesakes.{Puts, noted, unlike_at};
ghost use Rattle.sort_check.specs.Texts as texts;

use crate::declarations::{differs, is_other};
use fof_terms::{Signature, SymId, Symbol};
use indexmap::IndexMap;
use std::alloc::Global;
use tptp_base::Memory;

/// The first symbol of a name, and whether a further one has another kind, arity or type.
#[derive(Clone, Copy, Drop)]
pub struct Namesake {
    pub first: SymId,
    pub is_mixed: bool,
}

/// What is known of the symbols of each name. Looking it up takes time that does not grow with their number.
#[derive(Drop)]
pub struct Namesakes {
    entries: IndexMap<Vec<u8>, Namesake>,
}

impl Namesakes {
    // Those of no symbols.
    #[tactic(auto, unfolding(crate::specs::Namesakes::found))]
    fn new(alloc: Global) -> Namesakes
        ensures { spec.Knows result [] }
    {
        Namesakes {
            entries: IndexMap::new(alloc),
        }
    }

    /// Those of the symbols of a signature.
    pub fn of(alloc: Global, signature: &Signature) -> Result<Namesakes, Memory>
        ensures { IfOk result (λ namesakes. spec.Knows namesakes signature.now.symbols) }
    {
        let mut namesakes = Namesakes::new(alloc);
        for number in 0..signature.symbol_count() {
            namesakes.add(alloc, signature, number)?;
        }
        Ok(namesakes)
    }

    /// Adds the symbol of this number, behind those that are known.
    pub fn add(&mut self, alloc: Global, signature: &Signature, number: SymId) -> Result<(), Memory>
        requires within { number < length signature.now.symbols }
        requires known { spec.Knows self.old (take number signature.now.symbols) }
        ensures { OnOk result (spec.Knows self.new (take (number + 1) signature.now.symbols)) }
    {
        match signature.symbol(number) {
            Some(symbol) => self.add_symbol(alloc, signature, number, symbol),
            None => unreachable!(),
        }
    }

    // Adds a symbol, which has this number.
    fn add_symbol(
        &mut self,
        alloc: Global,
        signature: &Signature,
        number: SymId,
        symbol: &Symbol,
    ) -> Result<(), Memory>
        requires at { slice_get signature.now.symbols number ≡ Some symbol.now }
        requires known { spec.Knows self.old (take number signature.now.symbols) }
        ensures { OnOk result (spec.Knows self.new (take (number + 1) signature.now.symbols)) }
    {
        let entry = self.entry_of(signature, number, symbol);
        self.put(alloc, symbol.name.as_slice(), entry)
    }

    // What is known of the name of a symbol that is added, which has this number.
    fn entry_of(&self, signature: &Signature, number: SymId, symbol: &Symbol) -> Namesake
        ensures { result ≡ noted (spec.found self.now symbol.now.name) signature.now.symbols number symbol.now }
    {
        match self.find(symbol.name.as_slice()) {
            None => Namesake {
                first: number,
                is_mixed: false,
            },
            Some(Namesake { first, is_mixed }) => Namesake {
                first,
                is_mixed: is_mixed || is_unlike(signature, first, symbol),
            },
        }
    }

    // Notes what is known of the symbols of a name.
    fn put(&mut self, alloc: Global, name: &[u8], entry: Namesake) -> Result<(), Memory>
        ensures { OnOk result (Puts self.old name.now entry self.new) }
    {
        self.entries.insert(Vec::from_slice(alloc, name)?, entry)?;
        Ok(())
    }

    // What is known of the symbols of a name.
    #[tactic(auto, unfolding(crate::specs::Namesakes::found))]
    fn find(&self, name: &[u8]) -> Option<Namesake>
        ensures { result ≡ spec.found self.now name.now }
    {
        match self.entries.get(name) {
            Some(entry) => Some(*entry),
            None => None,
        }
    }

    /// Whether the signature has a symbol of this name with another kind, arity or type.
    #[tactic(auto, using(crate::proofs::Alike::none_differs))]
    pub fn is_elsewise(&self, signature: &Signature, symbol: &Symbol) -> bool
        requires { spec.Knows self.now signature.now.symbols }
        ensures { result ≡ list_any (texts.differs symbol.now) signature.now.symbols }
    {
        match self.find(symbol.name.as_slice()) {
            Some(Namesake { first, is_mixed }) => is_mixed || is_other(signature, symbol, first),
            None => false,
        }
    }
}

// Whether the symbol differs from that of this number.
fn is_unlike(signature: &Signature, first: SymId, symbol: &Symbol) -> bool
    ensures { result ≡ unlike_at (slice_get signature.now.symbols first) symbol.now }
{
    match signature.symbol(first) {
        Some(first) => differs(first, symbol),
        None => false,
    }
}
