// How variables, symbols and sorts are named.
ghost use Rattle.std.specs.Prelude.{◌≡◌, IfOk, slice_get};
ghost use Rattle.prove_out.specs.Variables.{variable_name as name_of_binder};
ghost use Rattle.prove_out.specs.code.Named.{IsNameOf, sort_written, variable_of};

use fof_terms::{Signature, SortId, SymId};
use itoa::Buffer;
use std::alloc::Global;
use tptp_base::{BoundVar, Memory, SortName, Text};

/// The variable of the binder of that number, counted from the outside: `X` and the number.
pub(crate) fn variable_name(alloc: Global, binder: u32) -> Result<Text, Memory>
    ensures { IfOk result (λ name. name ≡ name_of_binder binder) }
{
    let mut buffer = Buffer::new();
    let mut name = Text::from_slice(alloc, b"X")?;
    name.append(Text::from_slice(alloc, buffer.format(binder).as_bytes())?)?;
    Ok(name)
}

/// The name of the symbol of that number, if it is there.
pub(crate) fn symbol_name(alloc: Global, sig: &Signature, id: SymId) -> Result<Text, Memory>
    ensures { IfOk result (λ name. IsNameOf (slice_get sig.now.symbols id) name) }
{
    match sig.symbol(id) {
        Some(symbol) => Ok(Text::from_slice(alloc, symbol.name.as_slice())?),
        None => Ok(Text::new(alloc)),
    }
}

/// How the sort of that number is written, if it is there.
pub(crate) fn sort_name(alloc: Global, sig: &Signature, id: SortId) -> Result<SortName, Memory>
    ensures { IfOk result (λ name. name ≡ sort_written id (slice_get sig.now.sorts id)) }
{
    if id == 0 {
        return Ok(SortName::Individual);
    }
    match sig.sort(id) {
        Some(name) => Ok(SortName::Word(Text::from_slice(alloc, name.as_slice())?)),
        None => Ok(SortName::Individual),
    }
}

/// The variable of the binder of that number, with its sort.
pub(crate) fn bound_variable(
    alloc: Global,
    sig: &Signature,
    sort: SortId,
    binder: u32,
) -> Result<BoundVar, Memory>
    ensures { IfOk result (λ variable. variable ≡ variable_of sig.now sort binder) }
{
    let name = variable_name(alloc, binder)?;
    let sort = sort_name(alloc, sig, sort)?;
    Ok(BoundVar {
        name,
        sort: Some(sort),
    })
}
