ghost use Rattle.std.specs.Prelude.{◌≡◌, ◌↔◌, ◌<◌, ◌≤◌, ◌++◌, [], ◌∷◌, length, codes, slice_get, IfOk, OnOk, OnErr};
ghost use Rattle.std.specs.Prelude.{IsErrOf};
ghost use Rattle.std.specs.Option.{option_copied};
ghost use Rattle.tptp_base.specs.declared.limit.LimitName.{LimitName as limit_name};
ghost use Rattle.tptp_base.specs.declared.limit.LimitName.TheVariants.{Symbols, Sorts};
ghost use Rattle.fof_terms.specs.declared.signature.SigFault.TheVariants.{Memory as wanting};
ghost use Rattle.fof_terms.specs.Found.{FindsSymbols, FindsSorts};
ghost use Rattle.fof_terms.specs.Vocabulary.{IsDeclared, IsVocabulary, found_symbol, found_sort};

use crate::directory::Directory;
use crate::form::SortId;
use crate::term::SymId;
use std::alloc::{AllocError, Global};
use std::marker::Model;
use thiserror::Error;
use tptp_base::{LimitName, List, Memory, Text};

/// The most symbols of a signature.
pub const MAX_SYMBOLS: usize = 16_777_216;

/// The most sorts of a signature, sort 0 included.
pub const MAX_SORTS: usize = 65_536;

/// What a symbol makes: a term or a formula.
#[derive(Clone, Copy, PartialEq, Eq)]
pub enum Kind {
    /// Its applications are terms.
    Function,
    /// Its applications are atoms.
    Predicate,
}

/// A symbol, with the sorts of its arguments. The result of a predicate is 0.
#[derive(Drop)]
pub struct Symbol {
    pub name: Text,
    pub kind: Kind,
    pub args: List<SortId>,
    pub result: SortId,
}

impl Symbol {
    /// The same symbol, in memory of its own.
    pub fn copy(&self, alloc: Global) -> Result<Symbol, Memory>
        ensures { IfOk result (λ copy. copy ≡ self.now) }
    {
        let name = Text::from_slice(alloc, self.name.as_slice())?;
        let args = List::from_slice(alloc, self.args.as_slice())?;
        Ok(Symbol {
            name,
            kind: self.kind,
            args,
            result: self.result,
        })
    }
}

/// Why a signature didn't take a sort or a symbol.
#[derive(Clone, Copy, Debug, PartialEq, Eq, Error)]
pub enum SigFault {
    /// It has as many as the limit of this name allows.
    #[error("limit {0}")]
    Limit(LimitName),
    #[error("out of memory")]
    Memory,
}

impl From<AllocError> for SigFault {
    ghost from_gives = { λ _ e. e ≡ wanting };

    fn from(_: AllocError) -> Self {
        SigFault::Memory
    }
}

impl From<Memory> for SigFault {
    ghost from_gives = { λ _ e. e ≡ wanting };

    fn from(_: Memory) -> Self {
        SigFault::Memory
    }
}

/// The sorts and the symbols that formulas speak of, by number, both counted from 0. Sort 0 is `$i`.
/// Directories tell the number of each name.
#[derive(Drop)]
pub struct Signature {
    alloc: Global,
    sorts: List<Text>,
    symbols: List<Symbol>,
    sort_numbers: Directory,
    functions: Directory,
    predicates: Directory,
}

impl Model for Signature {
    ghost use Rattle.fof_terms.specs.Found.{IsIndexed};
    ghost use Rattle.fof_terms.specs.Vocabulary.{Vocabulary, IsVocabulary};

    ghost Value = { Vocabulary };

    ghost view = { λ s. record { sorts = s.sorts; symbols = s.symbols } };

    ghost invariant = { λ s. IsVocabulary (record { sorts = s.sorts; symbols = s.symbols })
        × IsIndexed (record { sorts = s.sorts; symbols = s.symbols }) s.sort_numbers s.functions s.predicates };
}

impl Signature {
    /// The signature with sort 0 alone.
    pub fn new(alloc: Global) -> Result<Signature, Memory>
        ensures { IfOk result (λ signature. signature ≡ record { sorts = codes "$i" ∷ []; symbols = [] }) }
    {
        let mut sorts = List::new(alloc);
        sorts.push(Text::from_slice(alloc, b"$i")?)?;
        Ok(Signature {
            alloc,
            sorts,
            symbols: List::new(alloc),
            sort_numbers: Directory::new(alloc),
            functions: Directory::new(alloc),
            predicates: Directory::new(alloc),
        })
    }

    /// What holds of every signature: sort 0 is that of individuals, and the sorts of each symbol are there.
    pub fn is_vocabulary(&self)
        ensures { IsVocabulary self.now }
    {
        let _ = &self.sorts;
    }

    /// Adds a sort, and answers its number. `Limit(Sorts)` exactly where 65,536 sorts are there. After a refusal
    /// the signature is as it was.
    pub fn add_sort(&mut self, name: Text) -> Result<SortId, SigFault>
        ensures number { IfOk result (λ number. number ≡ length self.old.sorts) }
        ensures room { OnOk result (length self.old.sorts < 65536) }
        ensures added { OnOk result (self.new ≡ record self.old { sorts = self.old.sorts ++ name ∷ [] }) }
        ensures limit { (limit : limit_name)
            → IsErrOf result (SigFault.Limit limit) ↔ ((limit ≡ Sorts) × (length self.old.sorts ≡ 65536)) }
        ensures err { OnErr result (self.new ≡ self.old) }
    {
        let number = self.sorts.len();
        if number >= MAX_SORTS {
            return Err(SigFault::Limit(LimitName::Sorts));
        }
        Ok(put_sort(self.alloc, name, &mut self.sorts, &mut self.sort_numbers)?)
    }

    /// Adds a symbol, and answers its number. `Limit(Symbols)` exactly where 16,777,216 symbols are there. After
    /// a refusal the signature is as it was.
    pub fn add(&mut self, symbol: Symbol) -> Result<SymId, SigFault>
        requires { IsDeclared (length self.old.sorts) symbol }
        ensures number { IfOk result (λ number. number ≡ length self.old.symbols) }
        ensures room { OnOk result (length self.old.symbols < 16777216) }
        ensures added { OnOk result (self.new ≡ record self.old { symbols = self.old.symbols ++ symbol ∷ [] }) }
        ensures limit { (limit : limit_name)
            → IsErrOf result (SigFault.Limit limit) ↔ ((limit ≡ Symbols) × (length self.old.symbols ≡ 16777216)) }
        ensures err { OnErr result (self.new ≡ self.old) }
    {
        let number = self.symbols.len();
        if number >= MAX_SYMBOLS {
            return Err(SigFault::Limit(LimitName::Symbols));
        }
        match symbol.kind {
            Kind::Function => Ok(put_symbol(
                self.alloc,
                symbol,
                &mut self.symbols,
                &mut self.functions,
            )?),
            Kind::Predicate => Ok(put_symbol(
                self.alloc,
                symbol,
                &mut self.symbols,
                &mut self.predicates,
            )?),
        }
    }

    /// The symbol of that number; None exactly where the number isn't there.
    pub fn symbol(&self, id: SymId) -> Option<&Symbol>
        ensures { option_copied result ≡ slice_get self.now.symbols id }
    {
        self.symbols.get(id as usize)
    }

    /// The first symbol of that name, kind and number of arguments; None exactly where there is none.
    pub fn find(&self, name: &[u8], kind: Kind, arity: usize) -> Option<SymId>
        ensures { result ≡ found_symbol self.now name.now kind arity }
    {
        match kind {
            Kind::Function => self.functions.find(name, arity),
            Kind::Predicate => self.predicates.find(name, arity),
        }
    }

    /// The name of the sort of that number; None exactly where the number isn't there.
    pub fn sort(&self, id: SortId) -> Option<&Text>
        ensures { option_copied result ≡ slice_get self.now.sorts id }
    {
        self.sorts.get(id as usize)
    }

    /// The first sort of that name other than sort 0; None exactly where there is none.
    pub fn find_sort(&self, name: &[u8]) -> Option<SortId>
        ensures { result ≡ found_sort self.now name.now }
    {
        self.sort_numbers.find(name, 0)
    }

    /// How many sorts there are: at least sort 0, and at most 65,536.
    pub fn sort_count(&self) -> u32
        ensures value { result ≡ length self.now.sorts }
        ensures some { 0 < length self.now.sorts }
        ensures few { length self.now.sorts ≤ 65536 }
    {
        self.sorts.len() as u32
    }

    /// How many symbols there are: at most 16,777,216.
    pub fn symbol_count(&self) -> u32
        ensures value { result ≡ length self.now.symbols }
        ensures few { length self.now.symbols ≤ 16777216 }
    {
        self.symbols.len() as u32
    }
}

// Adds a sort behind the others, and answers its number. The directory tells the sorts before and after.
fn put_sort(
    alloc: Global,
    name: Text,
    sorts: &mut List<Text>,
    directory: &mut Directory,
) -> Result<SortId, Memory>
    requires few { length sorts.old < 65536 }
    requires some { 0 < length sorts.old }
    requires finds { FindsSorts sorts.old directory.old }
    ensures number { IfOk result (λ number. number ≡ length sorts.old) }
    ensures added { OnOk result (sorts.new ≡ sorts.old ++ name ∷ []) }
    ensures err { OnErr result (sorts.new ≡ sorts.old) }
    ensures finds { FindsSorts sorts.new directory.new }
{
    let number = sorts.len() as u32;
    if directory.find(name.as_slice(), 0).is_some() {
        sorts.push(name)?;
        return Ok(number);
    }
    let key = Vec::from_slice(alloc, name.as_slice())?;
    sorts.push(name)?;
    match directory.enter(alloc, key, 0, number) {
        Ok(()) => Ok(number),
        Err(_) => {
            sorts.pop();
            Err(Memory)
        }
    }
}

// Adds a symbol behind the others, and answers its number. The directory tells the symbols of its kind before and
// after.
fn put_symbol(
    alloc: Global,
    symbol: Symbol,
    symbols: &mut List<Symbol>,
    directory: &mut Directory,
) -> Result<SymId, Memory>
    requires few { length symbols.old < 16777216 }
    requires finds { FindsSymbols symbol.kind symbols.old directory.old }
    ensures number { IfOk result (λ number. number ≡ length symbols.old) }
    ensures added { OnOk result (symbols.new ≡ symbols.old ++ symbol ∷ []) }
    ensures err { OnErr result (symbols.new ≡ symbols.old) }
    ensures finds { FindsSymbols symbol.kind symbols.new directory.new }
{
    let number = symbols.len() as u32;
    let arity = symbol.args.len();
    if directory.find(symbol.name.as_slice(), arity).is_some() {
        symbols.push(symbol)?;
        return Ok(number);
    }
    let key = Vec::from_slice(alloc, symbol.name.as_slice())?;
    symbols.push(symbol)?;
    match directory.enter(alloc, key, arity, number) {
        Ok(()) => Ok(number),
        Err(_) => {
            symbols.pop();
            Err(Memory)
        }
    }
}
