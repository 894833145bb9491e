// Lists that are made of parts.
ghost use Rattle.std.specs.Prelude.{◌≡◌, [], ◌∷◌, IfOk};
ghost use Rattle.tptp_grammar.specs.code.Adding.{IsAdded};

use crate::stop::Stop;
use std::alloc::{AllocError, Global};
use tptp_base::List;

/// An empty list. Where memory allows, it has room for two members, as few lists have more.
pub fn short_list<T: Drop>(alloc: Global) -> List<T>
    ensures { result ≡ [] }
{
    match Vec::with_capacity(alloc, 2) {
        Ok(members) => List::from_vec(members),
        Err(_) => List::new(alloc),
    }
}

/// Adds what was read behind what was found, if it was read.
pub fn push_read<T: Drop>(found: &mut List<T>, read: Result<T, Stop>) -> Result<(), Stop>
    ensures { IsAdded read found.old result found.new }
{
    found.push(read?)?;
    Ok(())
}

/// The list of the first and the others.
pub fn in_front<T: Drop>(alloc: Global, first: T, others: List<T>) -> Result<List<T>, AllocError>
    ensures { IfOk result (λ all. all ≡ first ∷ others) }
{
    let mut all = List::from_vec(Vec::with_capacity(alloc, others.len().saturating_add(1))?);
    all.push(first)?;
    all.append(others)?;
    Ok(all)
}

/// The list of one.
pub fn one_of<T: Drop>(alloc: Global, only: T) -> Result<List<T>, AllocError>
    ensures { IfOk result (λ all. all ≡ only ∷ []) }
{
    let mut all = List::from_vec(Vec::with_capacity(alloc, 1)?);
    all.push(only)?;
    Ok(all)
}
