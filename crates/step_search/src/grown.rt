// A signature with the functions of a step.
ghost use Rattle.std.specs.Prelude.{◌≡◌, ◌≤◌, ◌<◌, ◌+◌, ◌++◌, [], ◌∷◌, IfOk, OnOk, codes, length, map};
ghost use Rattle.std.specs.List.{All as Each};
ghost use Rattle.fof_terms.specs.Vocabulary.{IsDeclared};

use fof_terms::{SigFault, Signature, Symbol};
use std::alloc::Global;
use step_clauses::Skolem;
use tptp_base::{List, Memory, Text};

/// The signature, in memory of its own, with the functions behind its symbols.
pub fn with_functions(
    alloc: Global,
    signature: &Signature,
    skolems: &[Skolem],
) -> Result<Signature, Memory>
    requires room { length signature.now.symbols + length skolems.now ≤ 16777216 }
    requires declared { Each (λ k. IsDeclared (length signature.now.sorts) k.symbol) skolems.now }
    ensures { IfOk result (λ grown.
        grown ≡ record signature.now { symbols = signature.now.symbols ++ map (λ k. k.symbol) skolems.now }) }
{
    let mut grown = Signature::new(alloc)?;
    grow(alloc, signature, skolems, &mut grown)?;
    Ok(grown)
}

// Gives a new signature the sorts and symbols of the signature, and the functions behind them. A signature that is
// lent is not dropped on each way out.
fn grow(
    alloc: Global,
    signature: &Signature,
    skolems: &[Skolem],
    grown: &mut Signature,
) -> Result<(), Memory>
    requires new { grown.old ≡ record { sorts = codes "$i" ∷ []; symbols = [] } }
    requires room { length signature.now.symbols + length skolems.now ≤ 16777216 }
    requires declared { Each (λ k. IsDeclared (length signature.now.sorts) k.symbol) skolems.now }
    ensures { OnOk result (grown.new
        ≡ record signature.now { symbols = signature.now.symbols ++ map (λ k. k.symbol) skolems.now }) }
{
    copy_sorts(alloc, signature, grown)?;
    copy_symbols(alloc, signature, grown)?;
    add_functions(alloc, skolems, grown)
}

// Gives a new signature the sorts of the signature.
fn copy_sorts(alloc: Global, signature: &Signature, copy: &mut Signature) -> Result<(), Memory>
    requires { copy.old ≡ record { sorts = codes "$i" ∷ []; symbols = [] } }
    ensures { OnOk result (copy.new ≡ record signature.now { symbols = [] }) }
{
    signature.is_vocabulary();
    for number in 1..signature.sort_count() {
        let Some(name) = signature.sort(number) else {
            unreachable!()
        };
        let name = Text::from_slice(alloc, name.as_slice())?;
        add_sort(copy, name)?;
    }
    Ok(())
}

// Gives a signature that has the sorts alone the symbols of the signature.
fn copy_symbols(alloc: Global, signature: &Signature, copy: &mut Signature) -> Result<(), Memory>
    requires { copy.old ≡ record signature.now { symbols = [] } }
    ensures { OnOk result (copy.new ≡ signature.now) }
{
    signature.is_vocabulary();
    for number in 0..signature.symbol_count() {
        let Some(symbol) = signature.symbol(number) else {
            unreachable!()
        };
        let symbol = symbol.copy(alloc)?;
        add(copy, symbol)?;
    }
    Ok(())
}

// Adds the functions behind the symbols of a signature.
fn add_functions(alloc: Global, skolems: &[Skolem], grown: &mut Signature) -> Result<(), Memory>
    requires room { length grown.old.symbols + length skolems.now ≤ 16777216 }
    requires declared { Each (λ k. IsDeclared (length grown.old.sorts) k.symbol) skolems.now }
    ensures { OnOk result (grown.new
        ≡ record grown.old { symbols = grown.old.symbols ++ map (λ k. k.symbol) skolems.now }) }
{
    for skolem in skolems {
        let symbol = skolem.symbol.copy(alloc)?;
        add(grown, symbol)?;
    }
    Ok(())
}

// Adds a sort to a signature that has room for it.
fn add_sort(signature: &mut Signature, name: Text) -> Result<(), Memory>
    requires { length signature.old.sorts < 65536 }
    ensures { OnOk result (signature.new ≡ record signature.old { sorts = signature.old.sorts ++ name ∷ [] }) }
{
    match signature.add_sort(name) {
        Ok(_) => Ok(()),
        Err(SigFault::Limit(_)) => unreachable!(),
        Err(SigFault::Memory) => Err(Memory),
    }
}

// Adds a symbol to a signature that has room for it.
fn add(signature: &mut Signature, symbol: Symbol) -> Result<(), Memory>
    requires room { length signature.old.symbols < 16777216 }
    requires declared { IsDeclared (length signature.old.sorts) symbol }
    ensures { OnOk result (signature.new ≡ record signature.old { symbols = signature.old.symbols ++ symbol ∷ [] }) }
{
    match signature.add(symbol) {
        Ok(_) => Ok(()),
        Err(SigFault::Limit(_)) => unreachable!(),
        Err(SigFault::Memory) => Err(Memory),
    }
}
