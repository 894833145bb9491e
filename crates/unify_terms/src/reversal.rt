ghost use Rattle.std.specs.Prelude.{◌≡◌, reverse, IfOk};

use std::alloc::Global;
use tptp_base::{List, Memory};

/// The list, the last member first.
pub fn reversed<T: Drop>(alloc: Global, items: List<T>) -> Result<List<T>, Memory>
    ensures { IfOk result (λ list. list ≡ reverse items) }
{
    let mut list = List::new(alloc);
    let mut left = items;
    while let Some(last) = left.pop() {
        list.push(last)?;
    }
    Ok(list)
}
