//! Proofs between quantifiers in their own order and those in the order of their variables.
ghost use Rattle.std.specs.Prelude.{◌≡◌, ◌<◌, ◌≤◌, ◌+◌, ℕ, nat_eq, true, map, length, IfOk};
ghost use Rattle.std.specs.List.{All as Each, list_any};
ghost use Rattle.clause_form.specs.ClauseView.{closed_by as closing};
ghost use Rattle.fof_terms.specs.Sorts.{binder_depth};
ghost use Rattle.flat_form.specs.Flat.{order_of as order_in, new_number, sort_of};
ghost use Rattle.flat_form.specs.Numbers.{listed};
ghost use Rattle.fof_terms.specs.declared.form.Form.{Form as Formula};
ghost use Rattle.norm_proofs.specs.code.Steps.{Between};
ghost use Rattle.flat_proofs.specs.code.Leading.{Leads};
ghost use Rattle.flat_proofs.specs.code.Permuting.{down, turned_by, turned_tree};

use crate::instances::at_numbers;
use crate::members::closed;
use derive_kit::{Part, hyp, imp_i};
use flat_form::{Pulled, closed_by, numbers_of, order_of, renumber, sorts_in};
use fof_terms::{Form, SortId, equal};
use indexmap::IndexSet;
use norm_proofs::general;
use std::alloc::Global;
use tptp_base::{Boxed, List, Memory};

// The order in which the variables of quantifiers occur first in a body, their new numbers from the outermost one on, and
// their sorts in that order.
#[derive(Drop)]
struct Turn {
    order: IndexSet<u32>,
    numbers: List<u32>,
    sorts: List<SortId>,
}

/// A formula, and the proof between another one and it. There is none where they are one formula.
#[derive(Drop)]
pub(crate) struct Led {
    pub(crate) form: Boxed<Form>,
    pub(crate) part: Option<Part>,
}

// The turn of quantifiers of these sorts over the body, the last of which is that of variable 0.
fn turn_of(alloc: Global, sorts: &[SortId], body: &Form) -> Result<Turn, Memory>
    requires few { length sorts.now ≤ 100000 }
    requires depth { binder_depth body.now < 2147483648 }
    ensures order { IfOk result (λ made. made.order.keys ≡ order_in (length sorts.now) body.now) }
    ensures numbers { IfOk result (λ made. made.numbers
        ≡ map (new_number made.order.keys (length sorts.now)) (down (length sorts.now))) }
    ensures listed { IfOk result (λ made. (k : ℕ)
        → listed made.numbers (length made.order.keys) k ≡ new_number made.order.keys (length sorts.now) k) }
    ensures small { IfOk result (λ made. Each (λ n. n < 2147483648) made.numbers) }
    ensures sorts { IfOk result (λ made. made.sorts ≡ map (sort_of sorts.now) made.order.keys) }
{
    let order = order_of(alloc, sorts.len() as u32, body)?;
    let numbers = numbers_of(alloc, &order, sorts.len())?;
    let sorts = sorts_in(alloc, &order, sorts)?;
    Ok(Turn {
        order,
        numbers,
        sorts,
    })
}

// The quantifiers that are pulled out, in the order of their variables in that body, over the rest.
pub(crate) fn turned(
    alloc: Global,
    forth: bool,
    pulled: &Pulled,
    body: &Form,
) -> Result<Led, Memory>
    requires few { length pulled.now.sorts ≤ 100000 }
    requires own { binder_depth pulled.now.body < 2147483648 }
    requires depth { binder_depth body.now < 2147483648 }
    requires stand { (k : ℕ) → k < length pulled.now.sorts
        → list_any (nat_eq k) (order_in (length pulled.now.sorts) body.now) ≡ true }
    ensures form { IfOk result (λ made. made.form
        ≡ turned_by (order_in (length pulled.now.sorts) body.now) pulled.now.sorts pulled.now.body) }
    ensures part { IfOk result (λ made. (n : ℕ) → binder_depth pulled.now.body + length pulled.now.sorts ≤ n
        → Leads forth n made.part (closing pulled.now.sorts pulled.now.body) made.form) }
{
    let turn = turn_of(alloc, pulled.sorts.as_slice(), body)?;
    let numbers = turn.numbers.as_slice();
    let inner = renumber(alloc, numbers, turn.order.len() as u32, &pulled.body, 0)?;
    let form = closed_by(alloc, turn.sorts.as_slice(), Boxed::new(alloc, inner)?)?;
    let first = closed(alloc, pulled)?;
    let part = turn_or_none(
        alloc,
        forth,
        pulled.sorts.as_slice(),
        &turn,
        first.get(),
        form.get(),
    )?;
    Ok(Led { form, part })
}

// Between the quantifiers of these sorts and those of the turn, if these aren't the same.
fn turn_or_none(
    alloc: Global,
    forth: bool,
    sorts: &[SortId],
    turn: &Turn,
    first: &Form,
    last: &Form,
) -> Result<Option<Part>, Memory>
    requires numbers { turn.now.numbers
        ≡ map (new_number turn.now.order.keys (length sorts.now)) (down (length sorts.now)) }
    requires sorts { turn.now.sorts ≡ map (sort_of sorts.now) turn.now.order.keys }
    ensures { IfOk result (λ made. (n : ℕ) (body : Formula) → first.now ≡ closing sorts.now body
        → last.now ≡ turned_by turn.now.order.keys sorts.now body
        → Between forth n (turned_tree forth sorts.now turn.now.order.keys body) first.now last.now
        → Leads forth n made first.now last.now) }
{
    if equal(first, last) {
        return Ok(None);
    }
    Ok(Some(turn_part(alloc, forth, sorts, turn, first, last)?))
}

// The same where they aren't.
fn turn_part(
    alloc: Global,
    forth: bool,
    sorts: &[SortId],
    turn: &Turn,
    first: &Form,
    last: &Form,
) -> Result<Part, Memory>
    requires numbers { turn.now.numbers
        ≡ map (new_number turn.now.order.keys (length sorts.now)) (down (length sorts.now)) }
    requires sorts { turn.now.sorts ≡ map (sort_of sorts.now) turn.now.order.keys }
    ensures { IfOk result (λ made. (body : Formula) → first.now ≡ closing sorts.now body
        → last.now ≡ turned_by turn.now.order.keys sorts.now body
        → made ≡ turned_tree forth sorts.now turn.now.order.keys body) }
{
    let own = hyp(alloc, 0)?;
    if forth {
        let found = at_numbers(alloc, turn.numbers.as_slice(), own)?;
        let all = general(alloc, turn.sorts.as_slice(), found)?;
        return imp_i(alloc, first.copy(alloc)?, all);
    }
    let found = at_numbers(alloc, turn.order.as_slice(), own)?;
    imp_i(alloc, last.copy(alloc)?, general(alloc, sorts, found)?)
}
