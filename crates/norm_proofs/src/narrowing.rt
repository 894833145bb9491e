// Members of conjunctions under universal quantifiers.
ghost use Rattle.std.specs.Prelude.{◌≡◌, ◌≤◌, ◌<◌, IfOk, IfSome, length};
ghost use Rattle.clause_form.specs.ClauseView.{closed_by};
ghost use Rattle.norm_proofs.specs.Narrowing.{LeadsTo};
ghost use Rattle.norm_proofs.specs.code.Narrowing.{picked_tree};

use crate::steps::{Whole, copy};
use crate::widening::{general, near};
use clause_form::{FormFault, Path, norm, own_members};
use derive_kit::{Part, and_e};
use fof_terms::{Form, SortId};
use std::alloc::Global;
use tptp_base::{Boxed, List, Memory};

/// What is left of a path: under so many universal quantifiers it goes on, where a number is given to the member of that
/// number of a conjunction first.
#[derive(Clone, Copy)]
pub struct Rest<'a> {
    pub under: usize,
    pub pick: Option<u32>,
    pub path: &'a Path,
}

/// A formula that follows from another one, and a part that shows it, which needs room for so many variables more; and
/// what is left of a path.
#[derive(Drop)]
pub struct Narrowed<'a> {
    pub form: Whole,
    pub part: Part,
    pub more: usize,
    pub rest: Rest<'a>,
}

// A member of a conjunction, and what is left of a path from it on.
#[derive(Clone, Copy)]
struct Place<'a> {
    member: u32,
    rest: Rest<'a>,
}

/// The whole path.
pub fn whole_path(path: &Path) -> Rest<'_> {
    Rest {
        under: 0,
        pick: None,
        path,
    }
}

/// What the closed formula says on the way that the path goes in its normal form, through universal quantifiers and to
/// members of conjunctions, as far as they stand in the formula itself; by a part that shows the formula.
pub fn narrow_along<'a>(
    alloc: Global,
    form: &Form,
    rest: Rest<'a>,
    part: Part,
) -> Result<Narrowed<'a>, Memory>
    ensures leads { IfOk result (λ made. LeadsTo 0 form.now part made.more made.form made.part) }
    ensures few { IfOk result (λ made. made.more ≤ 2000000) }
{
    narrow(alloc, List::new(alloc), form, rest, part, 0)
}

// The same under quantifiers of these sorts.
#[cycle(narrow)]
fn narrow<'a>(
    alloc: Global,
    sorts: List<SortId>,
    body: &Form,
    rest: Rest<'a>,
    part: Part,
    more: usize,
) -> Result<Narrowed<'a>, Memory>
    requires { more ≤ 2000000 }
    ensures leads { IfOk result (λ made.
        LeadsTo more (closed_by sorts body.now) part made.more made.form made.part) }
    ensures few { IfOk result (λ made. made.more ≤ 2000000) }
{
    match body {
        Form::All(sort, inner) => match below(rest) {
            Some(below) => {
                let mut sorts = sorts;
                sorts.push(*sort)?;
                narrow(alloc, sorts, inner.get(), below, part, more)
            }
            None => kept(alloc, sorts, body, rest, part, more),
        },
        Form::And(members) => {
            let members = members.as_slice();
            if more > 1_000_000 || sorts.len() > 1000 {
                return kept(alloc, sorts, body, rest, part, more);
            }
            match place_of(alloc, members, rest)? {
                Some(Place { member, rest }) => {
                    let after = more + sorts.len();
                    let part = member_under(alloc, sorts.as_slice(), member, part)?;
                    narrow(alloc, sorts, &members[member as usize], rest, part, after)
                }
                None => kept(alloc, sorts, body, rest, part, more),
            }
        }
        _ => kept(alloc, sorts, body, rest, part, more),
    }
}

// The formula under the quantifiers itself.
fn kept<'a>(
    alloc: Global,
    sorts: List<SortId>,
    body: &Form,
    rest: Rest<'a>,
    part: Part,
    more: usize,
) -> Result<Narrowed<'a>, Memory>
    ensures form { IfOk result (λ made. made.form ≡ closed_by sorts body.now) }
    ensures part { IfOk result (λ made. made.part ≡ part) }
    ensures more { IfOk result (λ made. made.more ≡ more) }
{
    let rest = again_under(rest, sorts.len());
    let form = closed(alloc, sorts, body)?;
    Ok(Narrowed {
        form,
        part,
        more,
        rest,
    })
}

// The formula under quantifiers of these sorts, the first outermost.
fn closed(alloc: Global, sorts: List<SortId>, body: &Form) -> Result<Whole, Memory>
    ensures { IfOk result (λ made. made ≡ closed_by sorts body.now) }
{
    let mut form = copy(alloc, body)?;
    let mut left = sorts;
    while let Some(sort) = left.pop() {
        form = Boxed::new(alloc, Form::All(sort, form))?;
    }
    Ok(form)
}

// What is left, under so many quantifiers once more.
fn again_under(rest: Rest<'_>, count: usize) -> Rest<'_> {
    let under = rest.under.saturating_add(count);
    Rest {
        under,
        pick: rest.pick,
        path: rest.path,
    }
}

// The member of the conjunction under the quantifiers, by a part that shows the whole.
fn member_under(alloc: Global, sorts: &[SortId], number: u32, part: Part) -> Result<Part, Memory>
    requires { length sorts.now ≤ 100000 }
    ensures { IfOk result (λ made. made ≡ picked_tree sorts.now number part) }
{
    let inner = near(alloc, 0, sorts.len(), part)?;
    general(alloc, sorts, and_e(alloc, number, inner)?)
}

// What is left behind a universal quantifier, if the path goes through one.
fn below(rest: Rest<'_>) -> Option<Rest<'_>> {
    let Rest { under, pick, path } = rest;
    if under > 0 {
        let under = under - 1;
        return Some(Rest { under, pick, path });
    }
    match (pick, path) {
        (None, Path::Under(path)) => Some(whole_path(path.get())),
        _ => None,
    }
}

// The member of the conjunction to which the path goes in the joined conjunction of the members' normal forms.
fn place_of<'a>(
    alloc: Global,
    members: &[Form],
    rest: Rest<'a>,
) -> Result<Option<Place<'a>>, Memory>
    ensures { IfOk result (λ found. IfSome found (λ place. place.member < length members.now)) }
{
    if rest.under > 0 {
        return Ok(None);
    }
    match (rest.pick, rest.path) {
        (Some(number), path) => place_at(alloc, members, number, path),
        (None, Path::Pick(number, path)) => place_at(alloc, members, *number, path.get()),
        _ => Ok(None),
    }
}

// The member with the one of that number in the joined conjunction of the members' normal forms.
fn place_at<'a>(
    alloc: Global,
    members: &[Form],
    number: u32,
    path: &'a Path,
) -> Result<Option<Place<'a>>, Memory>
    ensures { IfOk result (λ found. IfSome found (λ place. place.member < length members.now)) }
{
    let mut left = number as usize;
    for member in 0..members.len() {
        let Some(share) = share_in(alloc, &members[member])? else {
            return Ok(None);
        };
        if left < share.count {
            return Ok(numbered_place(member, share.joined, left, path));
        }
        left -= share.count;
    }
    Ok(None)
}

// The place, if numbers reach so far.
fn numbered_place(member: usize, joined: bool, left: usize, path: &Path) -> Option<Place<'_>>
    ensures { IfSome result (λ place. place.member ≡ member) }
{
    match (u32::try_from(member), u32::try_from(left)) {
        (Ok(member), Ok(left)) => {
            let pick = if joined { Some(left) } else { None };
            let rest = Rest {
                under: 0,
                pick,
                path,
            };
            Some(Place { member, rest })
        }
        _ => None,
    }
}

// How many members a formula's normal form has in a joined conjunction, and whether it is one itself.
#[derive(Clone, Copy)]
struct Share {
    count: usize,
    joined: bool,
}

// That of the formula, if it has a normal form.
fn share_in(alloc: Global, form: &Form) -> Result<Option<Share>, Memory> {
    match norm(alloc, form) {
        Ok(made) => Ok(Some(share_of(&made))),
        Err(FormFault::Wide) => Ok(None),
        Err(FormFault::Memory) => Err(Memory),
    }
}

// That of the normal form.
fn share_of(norm: &Form) -> Share {
    match own_members(true, norm) {
        Some(inner) => Share {
            count: inner.len(),
            joined: true,
        },
        None => Share {
            count: 1,
            joined: false,
        },
    }
}
