// Signatures in memory of their own: the front of one, or all of it.
ghost use Rattle.std.specs.Prelude.{◌≡◌, ◌<◌, ◌≤◌, ◌++◌, [], ◌∷◌, IfOk, OnOk, codes, length};
ghost use Rattle.fof_terms.specs.Vocabulary.{IsDeclared, IsVocabulary};
ghost use Rattle.sort_check.specs.code.Fronts.{front};

use fof_terms::{SigFault, Signature, Symbol};
use std::alloc::Global;
use tptp_base::{Memory, Text};

/// So many sorts and symbols of a signature, from its front on.
#[derive(Clone, Copy, Drop)]
pub struct Extent {
    pub sorts: u32,
    pub symbols: u32,
}

impl Extent {
    /// All sorts and symbols of a signature.
    pub fn of(signature: &Signature) -> Extent
        ensures sorts { result.sorts ≡ length signature.now.sorts }
        ensures symbols { result.symbols ≡ length signature.now.symbols }
    {
        Extent {
            sorts: signature.sort_count(),
            symbols: signature.symbol_count(),
        }
    }
}

/// The same signature, in memory of its own.
#[tactic(auto, using(crate::proofs::Fronting::whole_front, crate::proofs::Fronting::whole_vocabulary))]
pub fn copy_signature(alloc: Global, signature: &Signature) -> Result<Signature, Memory>
    ensures { IfOk result (λ copy. copy ≡ signature.now) }
{
    signature.is_vocabulary();
    copy_front(alloc, signature, Extent::of(signature))
}

/// The signature of so many sorts and symbols from the front of another one, in memory of its own.
pub fn copy_front(alloc: Global, signature: &Signature, extent: Extent) -> Result<Signature, Memory>
    requires sorts { extent.sorts ≤ length signature.now.sorts }
    requires symbols { extent.symbols ≤ length signature.now.symbols }
    requires whole { IsVocabulary (front extent signature.now) }
    ensures { IfOk result (λ copy. copy ≡ front extent signature.now) }
{
    let mut copy = Signature::new(alloc)?;
    copy_sorts(alloc, signature, extent, &mut copy)?;
    copy_symbols(alloc, signature, extent, &mut copy)?;
    Ok(copy)
}

// Gives a new signature the sorts in front.
fn copy_sorts(
    alloc: Global,
    signature: &Signature,
    extent: Extent,
    copy: &mut Signature,
) -> Result<(), Memory>
    requires new { copy.old ≡ record { sorts = codes "$i" ∷ []; symbols = [] } }
    requires within { extent.sorts ≤ length signature.now.sorts }
    requires whole { IsVocabulary (front extent signature.now) }
    ensures { OnOk result (copy.new ≡ record (front extent signature.now) { symbols = [] }) }
{
    signature.is_vocabulary();
    for number in 1..extent.sorts {
        let Some(name) = signature.sort(number) else {
            unreachable!()
        };
        let name = Text::from_slice(alloc, name.as_slice())?;
        add_sort(copy, name)?;
    }
    Ok(())
}

// Gives a signature that has the sorts alone the symbols in front.
fn copy_symbols(
    alloc: Global,
    signature: &Signature,
    extent: Extent,
    copy: &mut Signature,
) -> Result<(), Memory>
    requires sorts { copy.old ≡ record (front extent signature.now) { symbols = [] } }
    requires within { extent.symbols ≤ length signature.now.symbols }
    requires whole { IsVocabulary (front extent signature.now) }
    ensures { OnOk result (copy.new ≡ front extent signature.now) }
{
    for number in 0..extent.symbols {
        let Some(symbol) = signature.symbol(number) else {
            unreachable!()
        };
        let symbol = symbol.copy(alloc)?;
        add(copy, symbol)?;
    }
    Ok(())
}

// Adds a sort to a signature that has room for it.
fn add_sort(signature: &mut Signature, name: Text) -> Result<(), Memory>
    requires { length signature.old.sorts < 65536 }
    ensures { OnOk result (signature.new ≡ record signature.old { sorts = signature.old.sorts ++ name ∷ [] }) }
{
    match signature.add_sort(name) {
        Ok(_) => Ok(()),
        Err(SigFault::Limit(_)) => unreachable!(),
        Err(SigFault::Memory) => Err(Memory),
    }
}

// Adds a symbol to a signature that has room for it.
fn add(signature: &mut Signature, symbol: Symbol) -> Result<(), Memory>
    requires room { length signature.old.symbols < 16777216 }
    requires declared { IsDeclared (length signature.old.sorts) symbol }
    ensures { OnOk result (signature.new ≡ record signature.old { symbols = signature.old.symbols ++ symbol ∷ [] }) }
{
    match signature.add(symbol) {
        Ok(_) => Ok(()),
        Err(SigFault::Limit(_)) => unreachable!(),
        Err(SigFault::Memory) => Err(Memory),
    }
}
