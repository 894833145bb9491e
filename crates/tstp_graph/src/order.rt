// The order in which lines can be checked.
ghost use Rattle.std.specs.Prelude.{◌≡◌, ℕ, ◌<◌, ◌^◌, length, not, false, IfOk};
ghost use Rattle.tstp_graph.specs.Order.{is_taken, first_left, IsOrder};
ghost use Rattle.tstp_graph.specs.code.Flags.{flag_at};

use crate::queue::Queue;
use crate::shape::Node;
use std::alloc::Global;
use tptp_base::{List, Memory};

/// An order of nodes, and the first node that it does not take.
#[derive(Drop)]
pub struct Ordered {
    pub order: List<u32>,
    pub left: Option<u32>,
}

/// Takes repeatedly the first node whose parents are all taken.
pub fn order_of(alloc: Global, nodes: &[Node]) -> Result<Ordered, Memory>
    requires { length nodes.now < 2 ^ 32 }
    ensures order { IfOk result (λ o. IsOrder nodes.now o.order) }
    ensures left { IfOk result (λ o. o.left ≡ first_left (is_taken o.order) 0 nodes.now) }
{
    let mut taken = no_flags(alloc, nodes.len())?;
    let mut queue = Queue::of(alloc, nodes, &taken)?;
    let mut order = List::new(alloc);
    'take: while let Some(number) = queue.next() {
        taken[number as usize] = true;
        order.push(number)?;
        queue.free(alloc, nodes, &taken, number)?;
    }
    Ok(Ordered {
        left: next_left(nodes, &taken),
        order,
    })
}

// So many nodes, none of which is taken.
fn no_flags(alloc: Global, count: usize) -> Result<Vec<bool>, Memory>
    ensures none { IfOk result (λ flags. (number : ℕ) → flag_at flags.items number ≡ false) }
    ensures len { IfOk result (λ flags. length flags.items ≡ count) }
{
    let mut flags = Vec::new(alloc);
    'flags: while flags.len() < count {
        flags.push(false)?;
    }
    Ok(flags)
}

// The first node that is not taken.
fn next_left(nodes: &[Node], taken: &[bool]) -> Option<u32>
    requires { length nodes.now < 2 ^ 32 }
    ensures { result ≡ first_left (flag_at taken.now) 0 nodes.now }
{
    for number in 0..nodes.len() {
        if is_left(taken, number) {
            return Some(number as u32);
        }
    }
    None
}

// Whether the node of this number is not taken.
fn is_left(taken: &[bool], number: usize) -> bool
    ensures { result ≡ not (flag_at taken.now number) }
{
    !is_flagged(taken, number)
}

/// Whether the node of this number is taken.
pub fn is_flagged(taken: &[bool], number: usize) -> bool
    ensures { result ≡ flag_at taken.now number }
{
    match taken.get(number) {
        Some(flag) => *flag,
        None => false,
    }
}
