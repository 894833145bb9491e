// The new functions that take the places of existential variables.
ghost use Rattle.std.specs.Prelude.{◌≡◌, ◌+◌, ◌<◌, ◌^◌, IfOk, decimal, length, map};
ghost use Rattle.step_clauses.specs.Skolems.{skolem_symbol, skolems_from, nearest as nearest_of, use_of as use_for};

use crate::existentials::Existential;
use fof_terms::{Kind, SymId, Symbol};
use itoa::Buffer;
use skolem_fresh::Use;
use std::alloc::Global;
use tptp_base::{List, Memory, Text};

/// A new function in place of an existential variable.
#[derive(Drop)]
pub struct Skolem {
    /// The function, named `sk` and its number.
    pub symbol: Symbol,
    /// Its number.
    pub id: SymId,
}

/// A function for each of the existential quantifiers, numbered from `next` on.
pub fn skolems_of(
    alloc: Global,
    next: SymId,
    existentials: &[Existential],
) -> Result<List<Skolem>, Memory>
    requires { next + length existentials.now < 2 ^ 32 }
    ensures { IfOk result (λ skolems. skolems ≡ skolems_from next existentials.now) }
{
    let mut skolems = List::new(alloc);
    let mut id = next;
    for existential in existentials {
        skolems.push(Skolem {
            symbol: symbol_of(alloc, id, existential)?,
            id,
        })?;
        id += 1;
    }
    Ok(skolems)
}

// The function of that number for the existential quantifier.
fn symbol_of(alloc: Global, id: SymId, existential: &Existential) -> Result<Symbol, Memory>
    ensures { IfOk result (λ symbol. symbol ≡ skolem_symbol id existential.now) }
{
    let mut name = Text::from_slice(alloc, b"sk")?;
    name.append(digits(alloc, id)?)?;
    let args = List::from_slice(alloc, existential.around.as_slice())?;
    Ok(Symbol {
        name,
        kind: Kind::Function,
        args,
        result: existential.sort,
    })
}

// A number in decimal.
fn digits(alloc: Global, number: u32) -> Result<Text, Memory>
    ensures { IfOk result (λ text. text ≡ decimal number) }
{
    let mut buffer = Buffer::new();
    Ok(Text::from_slice(alloc, buffer.format(number).as_bytes())?)
}

/// How each of the functions takes the place of its variable: applied to all universal variables around it.
pub fn uses_of(alloc: Global, skolems: &[Skolem]) -> Result<List<Use>, Memory>
    ensures { IfOk result (λ uses. uses ≡ map use_for skolems.now) }
{
    let mut uses = List::new(alloc);
    for skolem in skolems {
        uses.push(use_of(alloc, skolem)?)?;
    }
    Ok(uses)
}

// How the function takes the place of its variable.
fn use_of(alloc: Global, skolem: &Skolem) -> Result<Use, Memory>
    ensures { IfOk result (λ own. own ≡ use_for skolem.now) }
{
    let Ok(count) = u32::try_from(skolem.symbol.args.len()) else {
        // Variables have no greater numbers, and no memory holds so many quantifiers.
        return Err(Memory);
    };
    Ok(Use {
        function: skolem.id,
        variables: nearest(alloc, count)?,
        sort: skolem.symbol.result,
    })
}

// So many of the nearest variables, the outermost first.
fn nearest(alloc: Global, count: u32) -> Result<List<u32>, Memory>
    ensures { IfOk result (λ variables. variables ≡ nearest_of count) }
{
    let mut variables = List::new(alloc);
    let mut left = count;
    while left > 0 {
        left -= 1;
        variables.push(left)?;
    }
    Ok(variables)
}
