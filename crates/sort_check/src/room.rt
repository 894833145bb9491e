// Lists that are made with little growth.
ghost use Rattle.std.specs.Prelude.{◌≡◌, ◌++◌, [], IfOk, OnOk, OnErr};

use std::alloc::{AllocError, Global};
use tptp_base::List;

/// An empty list with room for so many.
pub fn with_room<T: Drop>(alloc: Global, count: usize) -> Result<List<T>, AllocError>
    ensures { IfOk result (λ list. list ≡ []) }
{
    Ok(List::from_vec(Vec::with_capacity(alloc, count)?))
}

/// Adds the items of another list. Where memory runs out none are left.
pub fn add_behind<T: Drop>(
    alloc: Global,
    list: &mut List<T>,
    more: List<T>,
) -> Result<(), AllocError>
    ensures ok { OnOk result (list.new ≡ list.old ++ more) }
    ensures err { OnErr result (list.new ≡ []) }
{
    if list.is_empty() {
        *list = more;
        return Ok(());
    }
    let mut all = std::mem::replace(list, List::new(alloc));
    all.append(more)?;
    *list = all;
    Ok(())
}
