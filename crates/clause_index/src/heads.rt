// The numbers of entries, by what stands at their heads.
ghost use Rattle.std.specs.Prelude.{◌≡◌, [], OnOk, OnErr};
ghost use Rattle.clause_index.specs.declared.keys.Key.{Key as Sample};
ghost use Rattle.clause_index.specs.declared.keys.Key.TheVariants.{Head, Open};
ghost use Rattle.clause_index.specs.Heads.{numbers_at};
ghost use Rattle.clause_index.specs.code.Filing.{Puts, HasSameNumbers};

use crate::keys::Key;
use fof_terms::SymId;
use indexmap::IndexMap;
use std::alloc::Global;
use tptp_base::{List, Memory};

/// Numbers, each under a symbol or under none.
#[derive(Drop)]
pub struct Heads {
    by_symbol: IndexMap<SymId, List<usize>>,
    open: List<usize>,
}

impl Heads {
    /// Without numbers.
    pub fn new(alloc: Global) -> Heads
        ensures { (key : Sample) → numbers_at result key ≡ [] }
    {
        Heads {
            by_symbol: IndexMap::new(alloc),
            open: List::new(alloc),
        }
    }

    /// The numbers under the symbol.
    pub fn under(&self, symbol: SymId) -> &[usize]
        ensures { result.now ≡ numbers_at self.now (Head symbol) }
    {
        match self.by_symbol.get(&symbol) {
            Some(numbers) => numbers.as_slice(),
            None => &[],
        }
    }

    /// The numbers under no symbol.
    pub fn open(&self) -> &[usize]
        ensures { result.now ≡ numbers_at self.now Open }
    {
        self.open.as_slice()
    }

    /// Puts the number behind the others under this key.
    pub fn put(&mut self, alloc: Global, key: Key, number: usize) -> Result<(), Memory>
        ensures ok { OnOk result (Puts self.old key number self.new) }
        ensures err { OnErr result (HasSameNumbers self.old self.new) }
    {
        match key {
            Key::Head(symbol) => match self.by_symbol.get_mut(&symbol) {
                Some(numbers) => numbers.push(number)?,
                None => {
                    let mut numbers = List::new(alloc);
                    numbers.push(number)?;
                    self.by_symbol.insert(symbol, numbers)?;
                }
            },
            Key::Open => self.open.push(number)?,
        }
        Ok(())
    }
}
