// What a formula is without its existential quantifiers, with functions in place of their variables.
ghost use Rattle.std.specs.Prelude.{◌≡◌, ◌≤◌, ◌<◌, ◌+◌, ◌^◌, List as Listed, [], IfOk, length, drop};
ghost use Rattle.std.specs.List.{AllByRecursion as Each};
ghost use Rattle.fof_terms.specs.Scope.{scope_sorts};
ghost use Rattle.fof_terms.specs.Sorts.{binder_depth};
ghost use Rattle.skolem_fresh.specs.Choosing.{IsWithin};
ghost use Rattle.skolem_fresh.specs.declared.leaves.Leaf.{Leaf as Terms};
ghost use Rattle.skolem_fresh.specs.code.Leaves.{leaves_of};
ghost use Rattle.skolem_fresh.specs.code.Skolemizing.{IsPassed, IsWalked, AreWalked};

use crate::just::Use;
use crate::leaves::{Leaf, push_leaves};
use crate::replacing::replaced;
use fof_terms::{Form, Scope, Signature};
use std::alloc::Global;
use tptp_base::{Boxed, List, Memory};

// The formula, which stands under so many universal quantifiers, without its existential ones. The functions are read
// off the terms from `at` on, which is moved past the formula's own, and are added. None where there are no such
// functions.
#[cycle(skolemize)]
pub(crate) fn skolemize(
    alloc: Global,
    sig: &Signature,
    scope: &Scope<'_>,
    outer: u32,
    form: &Form,
    leaves: &[Leaf],
    at: &mut usize,
    uses: &mut List<Use>,
) -> Result<Option<Form>, Memory>
    requires within { IsWithin sig.now (scope_sorts scope.now) form.now }
    requires outer { outer ≡ length (scope_sorts scope.now) }
    requires at { at.now ≤ length leaves.now }
    ensures at { at.new ≤ length leaves.now }
    ensures walked { IfOk result (λ made.
        IsWalked sig.now (scope_sorts scope.now) form.now (drop at.old leaves.now)
        (drop at.new leaves.now) uses.old uses.new made) }
{
    match form {
        Form::Atom(_, _) => passed(alloc, outer, form, leaves, at),
        Form::Eq(_, _) => passed(alloc, outer, form, leaves, at),
        Form::Not(_) => passed(alloc, outer, form, leaves, at),
        Form::And(members) => {
            let members = members.as_slice();
            match skolemize_all(alloc, sig, scope, outer, members, leaves, at, uses)? {
                Some(made) => Ok(Some(Form::And(made))),
                None => Ok(None),
            }
        }
        Form::Or(members) => {
            let members = members.as_slice();
            match skolemize_all(alloc, sig, scope, outer, members, leaves, at, uses)? {
                Some(made) => Ok(Some(Form::Or(made))),
                None => Ok(None),
            }
        }
        Form::All(sort, body) => {
            let under = Scope::Under(*sort, &*scope);
            let body = body.get();
            match skolemize(alloc, sig, &under, outer + 1, body, leaves, at, uses)? {
                Some(made) => Ok(Some(Form::All(*sort, Boxed::new(alloc, made)?))),
                None => Ok(None),
            }
        }
        Form::Ex(sort, body) => {
            let own = &leaves[*at..];
            match replaced(alloc, sig, scope, outer, *sort, body.get(), own, uses)? {
                Some(next) => skolemize(alloc, sig, scope, outer, next.get(), leaves, at, uses),
                None => Ok(None),
            }
        }
        Form::Imp(_, _) => Ok(None),
        Form::Iff(_, _) => Ok(None),
    }
}

// The same of each of the formulas.
#[cycle(skolemize)]
fn skolemize_all(
    alloc: Global,
    sig: &Signature,
    scope: &Scope<'_>,
    outer: u32,
    forms: &[Form],
    leaves: &[Leaf],
    at: &mut usize,
    uses: &mut List<Use>,
) -> Result<Option<List<Form>>, Memory>
    requires within { Each (IsWithin sig.now (scope_sorts scope.now)) forms.now }
    requires outer { outer ≡ length (scope_sorts scope.now) }
    requires at { at.now ≤ length leaves.now }
    ensures at { at.new ≤ length leaves.now }
    ensures walked { IfOk result (λ made.
        AreWalked sig.now (scope_sorts scope.now) forms.now (drop at.old leaves.now)
        (drop at.new leaves.now) uses.old uses.new made) }
{
    let mut made = List::new(alloc);
    for form in forms {
        let next = skolemize(alloc, sig, scope, outer, form, leaves, at, uses)?;
        let Some(next) = next else {
            return Ok(None);
        };
        made.push(next)?;
    }
    Ok(Some(made))
}

// The formula itself, whose terms are passed. None where there are too few.
fn passed(
    alloc: Global,
    outer: u32,
    form: &Form,
    leaves: &[Leaf],
    at: &mut usize,
) -> Result<Option<Form>, Memory>
    requires room { outer + binder_depth form.now < 2 ^ 32 }
    requires at { at.now ≤ length leaves.now }
    ensures at { at.new ≤ length leaves.now }
    ensures passed { IfOk result (λ made.
        IsPassed (leaves_of outer form.now) (drop at.old leaves.now) (drop at.new leaves.now) made form.now) }
{
    let mut own = List::new(alloc);
    push_leaves(alloc, form, outer, &mut own)?;
    let left = leaves.len() - *at;
    if own.len() > left {
        return Ok(None);
    }
    let copy = form.copy(alloc)?;
    *at += own.len();
    Ok(Some(copy))
}

// The normal form without its existential quantifiers, by functions that are read off these terms, and are added.
pub(crate) fn skolemize_whole(
    alloc: Global,
    sig: &Signature,
    norm: &Form,
    leaves: &[Leaf],
    uses: &mut List<Use>,
) -> Result<Option<Form>, Memory>
    requires { IsWithin sig.now [] norm.now }
    ensures { IfOk result (λ made. (left : Listed Terms)
        × IsWalked sig.now [] norm.now leaves.now left uses.old uses.new made) }
{
    let mut at = 0;
    skolemize(
        alloc,
        sig,
        &Scope::Outside(&[]),
        0,
        norm,
        leaves,
        &mut at,
        uses,
    )
}
