//! Declarations of the functions of a step.
ghost use Rattle.std.specs.Prelude.{◌≡◌, ◌<◌, ◌≤◌, ◌++◌, length, take, slice_get, IfOk, Some};
ghost use Rattle.fof_terms.specs.declared.signature.Symbol.{Symbol};
ghost use Rattle.kernel.specs.declared.entry.Decl.TheVariants.{Symbol as NewSymbol};
ghost use Rattle.kernel.specs.declared.entry.Entry.TheVariants.{Declare};
ghost use Rattle.search_proofs.specs.Searched.{declare_all};

use fof_terms::Signature;
use kernel::{Decl, Entry};
use std::alloc::Global;
use tptp_base::{List, Memory};

/// Declares the symbols that the signature has behind so many.
pub fn declarations(alloc: Global, signature: &Signature, known: u32) -> Result<List<Entry>, Memory>
    requires { known ≤ length signature.now.symbols }
    ensures { IfOk result (λ entries. declare_all signature.now.symbols
        ≡ declare_all (take known signature.now.symbols) ++ entries) }
{
    let mut entries = List::new(alloc);
    for id in known..signature.symbol_count() {
        entries.push(declaration(alloc, signature, id)?)?;
    }
    Ok(entries)
}

// Declares the symbol of this number.
fn declaration(alloc: Global, signature: &Signature, id: u32) -> Result<Entry, Memory>
    requires { id < length signature.now.symbols }
    ensures { IfOk result (λ entry. (symbol : Symbol) × (slice_get signature.now.symbols id ≡ Some symbol)
        × (entry ≡ Declare (NewSymbol symbol))) }
{
    match signature.symbol(id) {
        Some(symbol) => Ok(Entry::Declare(Decl::Symbol(symbol.copy(alloc)?))),
        None => unreachable!(),
    }
}
