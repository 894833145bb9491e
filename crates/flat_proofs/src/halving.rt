//! Proofs between a node of closed bodies and all quantifiers over the node of the bodies. From all over a conjunction each
//! half of the members is shown over its own variables alone, and then the same is done of the halves.
ghost use Rattle.std.specs.Prelude.{◌≡◌, ◌+◌, ◌≤◌, true, false, map, length, IfOk};
ghost use Rattle.clause_form.specs.ClauseView.{closed_by as closing};
ghost use Rattle.fof_terms.specs.declared.form.Form.{And};
ghost use Rattle.flat_form.specs.Flat.{sorts_of, bodies_of};
ghost use Rattle.flat_proofs.specs.code.Halving.{picks as pick_trees, segment as segment_tree, freed as freed_tree};
ghost use Rattle.flat_proofs.specs.code.Halving.{front_tree, rear_tree, both_tree, joined_tree, Gathers};
ghost use Rattle.flat_proofs.specs.code.Loose.{closed_of};
ghost use Rattle.flat_proofs.specs.code.Members.{seen, HaveRoom};

use crate::gathering::{backwards, forwards, inhabited};
use crate::members::{bodies_of_all, closed_all, sorts_of_all};
use derive_kit::{Part, and_e, and_i, hyp, imp_e, imp_i, not_e, raa};
use flat_form::{Pulled, closed_by};
use fof_terms::{Form, SortId, copy_all};
use kernel::Proof;
use norm_proofs::{general, near};
use std::alloc::Global;
use tptp_base::{Boxed, List, Memory};

// Up to so many variables all members are shown at once, each for itself.
const FEW: usize = 8;

// What is pulled out of members of a node: the sorts and the bodies over the variables of all, and the closed bodies.
#[derive(Drop)]
struct Group {
    sorts: List<SortId>,
    bodies: List<Form>,
    closed: List<Form>,
}

// What is pulled out of the members.
fn grouped(alloc: Global, members: &[Pulled]) -> Result<Group, Memory>
    requires { HaveRoom (map seen members.now) }
    ensures sorts { IfOk result (λ made. made.sorts ≡ sorts_of (map seen members.now)) }
    ensures bodies { IfOk result (λ made. made.bodies ≡ bodies_of 0 (map seen members.now)) }
    ensures closed { IfOk result (λ made. made.closed ≡ map closed_of (map seen members.now)) }
{
    let sorts = sorts_of_all(alloc, members)?;
    let bodies = bodies_of_all(alloc, members, sorts.len())?;
    let closed = closed_all(alloc, members)?;
    Ok(Group {
        sorts,
        bodies,
        closed,
    })
}

// So many members, from the first number on, of the conjunction that is the hypothesis of that number.
fn picks(alloc: Global, hypothesis: u32, first: usize, count: usize) -> Result<List<Proof>, Memory>
    requires { first + count ≤ 100000 }
    ensures { IfOk result (λ made. made ≡ pick_trees hypothesis first count) }
{
    let mut made = List::new(alloc);
    for place in 0..count {
        let own = hyp(alloc, hypothesis)?;
        let member = and_e(alloc, (first + place) as u32, own)?;
        made.push(member.into_inner())?;
    }
    Ok(made)
}

// So many of the bodies, from the first number on, at their variables, by hypothesis 1, which is all over their conjunction.
fn segment(
    alloc: Global,
    bodies: &[Form],
    variables: usize,
    first: usize,
    count: usize,
) -> Result<Part, Memory>
    requires variables { variables ≤ 100000 }
    requires members { first + count ≤ 100000 }
    ensures { IfOk result (λ made. made ≡ segment_tree bodies.now variables first count) }
{
    let arms = and_i(alloc, picks(alloc, 0, first, count)?)?;
    let picked = imp_i(alloc, Form::And(copy_all(alloc, bodies)?), arms)?;
    let whole = near(alloc, 0, variables, hyp(alloc, 1)?)?;
    imp_e(alloc, picked, whole)
}

// What the part shows over variables of these sorts, of which the goal doesn't speak. There the goal is denied.
fn freed(alloc: Global, sorts: &[SortId], goal: Form, part: Part) -> Result<Part, Memory>
    requires { length sorts.now ≤ 100000 }
    ensures { IfOk result (λ made. made ≡ freed_tree sorts.now goal part) }
{
    let clash = not_e(alloc, hyp(alloc, 0)?, part)?;
    let absurd = inhabited(alloc, sorts, &Form::Or(List::new(alloc)), clash)?;
    raa(alloc, goal, absurd)
}

// All over the bodies of the left group, by all over the bodies of both, which hypothesis 0 is.
fn front_half(alloc: Global, left: &Group, right: &Group, bodies: &[Form]) -> Result<Part, Memory>
    requires variables { length left.now.sorts + length right.now.sorts ≤ 100000 }
    requires members { length left.now.bodies + length right.now.bodies ≤ 100000 }
    ensures { IfOk result (λ made. made ≡ front_tree left.now.sorts right.now.sorts left.now.bodies bodies.now) }
{
    let variables = left.sorts.len() + right.sorts.len();
    let part = segment(alloc, bodies, variables, 0, left.bodies.len())?;
    let goal = Form::And(copy_all(alloc, left.bodies.as_slice())?);
    let free = freed(alloc, right.sorts.as_slice(), goal, part)?;
    general(alloc, left.sorts.as_slice(), free)
}

// The same of the right group.
fn rear_half(alloc: Global, left: &Group, right: &Group, bodies: &[Form]) -> Result<Part, Memory>
    requires variables { length left.now.sorts + length right.now.sorts ≤ 100000 }
    requires members { length left.now.bodies + length right.now.bodies ≤ 100000 }
    ensures { IfOk result (λ made. made
        ≡ rear_tree left.now.sorts right.now.sorts left.now.bodies right.now.bodies bodies.now) }
{
    let variables = left.sorts.len() + right.sorts.len();
    let part = segment(
        alloc,
        bodies,
        variables,
        left.bodies.len(),
        right.bodies.len(),
    )?;
    let all = general(alloc, right.sorts.as_slice(), part)?;
    let goal = over_bodies(alloc, right)?;
    freed(alloc, left.sorts.as_slice(), goal.into_inner(), all)
}

// All over the conjunction of the bodies.
fn over_bodies(alloc: Global, members: &Group) -> Result<Boxed<Form>, Memory>
    ensures { IfOk result (λ made. made ≡ closing members.now.sorts (And members.now.bodies)) }
{
    let bodies = Form::And(copy_all(alloc, members.bodies.as_slice())?);
    closed_by(alloc, members.sorts.as_slice(), Boxed::new(alloc, bodies)?)
}

// The conjunction of the members of both conjunctions, by these.
fn of_both(alloc: Global, left: &[Form], right: &[Form]) -> Result<Part, Memory>
    requires { length left.now + length right.now ≤ 100000 }
    ensures { IfOk result (λ made. made ≡ both_tree left.now right.now) }
{
    let mut arms = picks(alloc, 1, 0, left.len())?;
    arms.append(picks(alloc, 0, 0, right.len())?)?;
    let under = imp_i(
        alloc,
        Form::And(copy_all(alloc, right)?),
        and_i(alloc, arms)?,
    )?;
    imp_i(alloc, Form::And(copy_all(alloc, left)?), under)
}

// The conjunction of the closed bodies of both groups, by all over the bodies of both and the parts that do so of each.
fn joined(
    alloc: Global,
    whole: &Group,
    left: &Group,
    right: &Group,
    first: Part,
    last: Part,
) -> Result<Part, Memory>
    requires variables { length left.now.sorts + length right.now.sorts ≤ 100000 }
    requires members { length left.now.bodies + length right.now.bodies ≤ 100000 }
    requires closed { length left.now.closed + length right.now.closed ≤ 100000 }
    ensures { IfOk result (λ made. made ≡ joined_tree whole.now left.now right.now first last) }
{
    let bodies = whole.bodies.as_slice();
    let one = imp_e(alloc, first, front_half(alloc, left, right, bodies)?)?;
    let other = imp_e(alloc, last, rear_half(alloc, left, right, bodies)?)?;
    let pair = of_both(alloc, left.closed.as_slice(), right.closed.as_slice())?;
    let inner = imp_e(alloc, imp_e(alloc, pair, one)?, other)?;
    imp_i(alloc, over_bodies(alloc, whole)?.into_inner(), inner)
}

// The conjunction of the closed bodies, by all over the conjunction of the bodies.
fn halved(alloc: Global, members: &[Pulled]) -> Result<Part, Memory>
    requires { HaveRoom (map seen members.now) }
    ensures { IfOk result (λ made. Gathers true false (map seen members.now) made) }
{
    let whole = grouped(alloc, members)?;
    if members.len() < 2 {
        return at_once(alloc, members, &whole);
    }
    if whole.sorts.len() <= FEW {
        return at_once(alloc, members, &whole);
    }
    let (front, rear) = members.split_at(members.len() / 2);
    let first = halved(alloc, front)?;
    let last = halved(alloc, rear)?;
    let left = grouped(alloc, front)?;
    let right = grouped(alloc, rear)?;
    joined(alloc, &whole, &left, &right, first, last)
}

// The same, each of the members for itself.
fn at_once(alloc: Global, members: &[Pulled], whole: &Group) -> Result<Part, Memory>
    requires room { HaveRoom (map seen members.now) }
    requires sorts { whole.now.sorts ≡ sorts_of (map seen members.now) }
    requires bodies { whole.now.bodies ≡ bodies_of 0 (map seen members.now) }
    requires closed { whole.now.closed ≡ map closed_of (map seen members.now) }
    ensures { IfOk result (λ made. Gathers true false (map seen members.now) made) }
{
    let sorts = whole.sorts.as_slice();
    let bodies = whole.bodies.as_slice();
    backwards(alloc, true, members, sorts, bodies, whole.closed.as_slice())
}

// From the node of the closed bodies to all quantifiers over the node of the bodies, or back.
pub(crate) fn gather(
    alloc: Global,
    kind: bool,
    forth: bool,
    members: &[Pulled],
    sorts: &[SortId],
    bodies: &[Form],
    closed: &[Form],
) -> Result<Part, Memory>
    requires many { length members.now ≤ 100000 }
    requires few { length sorts.now ≤ 100000 }
    requires room { HaveRoom (map seen members.now) }
    requires sorts { sorts.now ≡ sorts_of (map seen members.now) }
    requires bodies { bodies.now ≡ bodies_of 0 (map seen members.now) }
    requires closed { closed.now ≡ map closed_of (map seen members.now) }
    ensures { IfOk result (λ made. Gathers kind forth (map seen members.now) made) }
{
    if forth {
        return forwards(alloc, kind, members, sorts, bodies, closed);
    }
    if kind {
        return halved(alloc, members);
    }
    backwards(alloc, kind, members, sorts, bodies, closed)
}
