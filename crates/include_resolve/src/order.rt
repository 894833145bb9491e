ghost use Rattle.std.specs.Prelude.{◌≡◌, reverse, IfOk};

use std::alloc::{AllocError, Global};
use tptp_base::{Item, List};

/// The items, the last one first.
pub fn reversed(alloc: Global, items: List<Item>) -> Result<List<Item>, AllocError>
    ensures { IfOk result (λ list. list ≡ reverse items) }
{
    let mut list = List::new(alloc);
    let mut left = items;
    while let Some(last) = left.pop() {
        list.push(last)?;
    }
    Ok(list)
}
