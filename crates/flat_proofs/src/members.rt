//! What is pulled out of the members of a node: the closed formulas, and the sorts and bodies over the variables of all.
ghost use Rattle.std.specs.Prelude.{◌≡◌, ◌≤◌, ◌++◌, map, length, IfOk, OnOk};
ghost use Rattle.flat_form.specs.Flat.{sorts_of, bodies_of};
ghost use Rattle.flat_proofs.specs.code.Loose.{closed_of};
ghost use Rattle.flat_proofs.specs.code.Members.{seen, HaveRoom};

use flat_form::{Pulled, closed_by};
use fof_terms::{Form, SortId, lift};
use std::alloc::Global;
use tptp_base::{Boxed, List, Memory};

// The quantifiers over the body.
pub(crate) fn closed(alloc: Global, member: &Pulled) -> Result<Boxed<Form>, Memory>
    ensures { IfOk result (λ made. made ≡ closed_of (seen member.now)) }
{
    let body = Boxed::new(alloc, member.body.copy(alloc)?)?;
    closed_by(alloc, member.sorts.as_slice(), body)
}

// The same of each member.
pub(crate) fn closed_all(alloc: Global, members: &[Pulled]) -> Result<List<Form>, Memory>
    ensures { IfOk result (λ made. made ≡ map closed_of (map seen members.now)) }
{
    let mut made = List::new(alloc);
    for member in members {
        made.push(closed(alloc, member)?.into_inner())?;
    }
    Ok(made)
}

// The sorts of all, one after the other.
pub(crate) fn sorts_of_all(alloc: Global, members: &[Pulled]) -> Result<List<SortId>, Memory>
    ensures { IfOk result (λ made. made ≡ sorts_of (map seen members.now)) }
{
    let mut made = List::new(alloc);
    for member in members {
        add_sorts(&mut made, member.sorts.as_slice())?;
    }
    Ok(made)
}

// Adds the sorts.
fn add_sorts(made: &mut List<SortId>, sorts: &[SortId]) -> Result<(), Memory>
    ensures { OnOk result (made.new ≡ made.old ++ sorts.now) }
{
    for sort in sorts {
        made.push(*sort)?;
    }
    Ok(())
}

// The bodies over the variables of all, of which there are so many.
pub(crate) fn bodies_of_all(
    alloc: Global,
    members: &[Pulled],
    count: usize,
) -> Result<List<Form>, Memory>
    requires many { length members.now ≤ 100000 }
    requires few { count ≤ 100000 }
    requires room { HaveRoom (map seen members.now) }
    requires count { count ≡ length (sorts_of (map seen members.now)) }
    ensures { IfOk result (λ made. made ≡ bodies_of 0 (map seen members.now)) }
{
    let mut made = List::new(alloc);
    let mut before: usize = 0;
    for number in 0..members.len() {
        let member = &members[number];
        let own = member.sorts.len();
        let after = count - before - own;
        let inner = lift(alloc, &member.body, before as u32, own as u32)?;
        made.push(lift(alloc, &inner, after as u32, 0)?)?;
        before += own;
    }
    Ok(made)
}
