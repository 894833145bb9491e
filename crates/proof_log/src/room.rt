// Lists whose length is written before their members.
ghost use Rattle.std.specs.Prelude.{◌≡◌, [], ◌∷◌, ◌++◌, IfOk, OnOk};

use std::alloc::{AllocError, Global};
use tptp_base::{Boxed, List};

// The greatest number of members for which there is room at once: a text may name a length and have no such members.
const FIRST_ROOM: u64 = 4;

/// An empty list, with room for the first of so many members.
#[inline(always)]
pub fn list_for<T: Drop>(alloc: Global, count: u64) -> Result<List<T>, AllocError>
    ensures { IfOk result (λ found. found ≡ []) }
{
    let room = count.min(FIRST_ROOM);
    Ok(List::from_vec(Vec::with_capacity(alloc, room as usize)?))
}

/// Appends a member. It is not inlined, so that those that read trees, of which as many calls may be open as trees may
/// nest, take little stack.
#[inline(never)]
pub fn add<T: Drop>(found: &mut List<T>, member: Boxed<T>) -> Result<(), AllocError>
    ensures { OnOk result (found.new ≡ found.old ++ member ∷ []) }
{
    found.push(member.into_inner())
}
