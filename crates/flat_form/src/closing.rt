//! Universal quantifiers over a body, in the order in which their variables occur in it.
ghost use Rattle.std.specs.Prelude.{◌≡◌, ◌<◌, ◌≤◌, ℕ, map, length, position, nat_eq, IfOk};
ghost use Rattle.std.specs.List.{All as Each};
ghost use Rattle.clause_form.specs.ClauseView.{closed_by as closed};
ghost use Rattle.fof_terms.specs.Sorts.{binder_depth};
ghost use Rattle.flat_form.specs.Flat.{close_over as closing, sort_of, new_number, place_in};
ghost use Rattle.flat_form.specs.Numbers.{listed};

use crate::numbering::renumber;
use crate::ordering::order_of;
use fof_terms::{Form, SortId};
use indexmap::IndexSet;
use std::alloc::Global;
use tptp_base::{Boxed, List, Memory};

/// All of these sorts over the formula, the first outermost.
pub fn closed_by(alloc: Global, sorts: &[SortId], body: Boxed<Form>) -> Result<Boxed<Form>, Memory>
    ensures { IfOk result (λ whole. whole ≡ closed sorts.now body) }
{
    let mut whole = body;
    for number in 0..sorts.len() {
        let sort = sorts[sorts.len() - 1 - number];
        whole = Boxed::new(alloc, Form::All(sort, whole))?;
    }
    Ok(whole)
}

/// All, over the body, of those of the sorts whose variable stands in it, in the order in which the variables occur first.
/// The last sort is that of variable 0.
pub fn close_over(alloc: Global, sorts: &[SortId], body: &Form) -> Result<Boxed<Form>, Memory>
    requires few { length sorts.now ≤ 100000 }
    requires depth { binder_depth body.now < 2147483648 }
    ensures { IfOk result (λ whole. whole ≡ closing sorts.now body.now) }
{
    let order = order_of(alloc, sorts.len() as u32, body)?;
    let numbers = numbers_of(alloc, &order, sorts.len())?;
    let inner = renumber(alloc, numbers.as_slice(), order.len() as u32, body, 0)?;
    let outer = sorts_in(alloc, &order, sorts)?;
    closed_by(alloc, outer.as_slice(), Boxed::new(alloc, inner)?)
}

/// The new numbers of so many variables, the last of which is that of variable 0: the places in the order, counted from
/// the last.
pub fn numbers_of(alloc: Global, order: &IndexSet<u32>, count: usize) -> Result<List<u32>, Memory>
    requires few { length order.now.keys ≤ 100000 }
    requires count { count ≤ 100000 }
    ensures length { IfOk result (λ numbers. length numbers ≡ count) }
    ensures small { IfOk result (λ numbers. Each (λ n. n < 2147483648) numbers) }
    ensures numbers { IfOk result (λ numbers. (k : ℕ)
        → listed numbers (length order.now.keys) k ≡ new_number order.now.keys count k) }
{
    let mut numbers = List::new(alloc);
    for place in 0..count {
        numbers.push(number_of(order, count - 1 - place))?;
    }
    Ok(numbers)
}

// The place of the variable in the order, counted from the last.
fn number_of(order: &IndexSet<u32>, variable: usize) -> u32
    requires few { length order.now.keys ≤ 100000 }
    requires variable { variable < 100000 }
    ensures number { result ≡ place_in order.now.keys (position (nat_eq variable) order.now.keys) }
    ensures small { result < 2147483648 }
{
    match order.get_index_of(&(variable as u32)) {
        Some(place) => (order.len() - 1 - place) as u32,
        None => 0,
    }
}

/// The sorts of the variables, in their order.
pub fn sorts_in(
    alloc: Global,
    order: &IndexSet<u32>,
    sorts: &[SortId],
) -> Result<List<SortId>, Memory>
    requires { Each (λ k. k < length sorts.now) order.now.keys }
    ensures { IfOk result (λ made. made ≡ map (sort_of sorts.now) order.now.keys) }
{
    let mut made = List::new(alloc);
    let variables = order.as_slice();
    for variable in variables {
        made.push(sorts[sorts.len() - 1 - *variable as usize])?;
    }
    Ok(made)
}
