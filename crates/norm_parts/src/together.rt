//! A normal form that is a conjunction under quantifiers, from one parent's: that is opened once, and each member comes
//! from one of its members. Each step is tried as it is taken, so lines of another shape are told by None.
ghost use Rattle.std.specs.Prelude.{◌≤◌, ◌+◌, [], ◌∷◌, length, List as ListOf, IfOk, IfSome};
ghost use Rattle.std.specs.List.{AllByRecursion};
ghost use Rattle.clause_proofs.specs.Refuting.{theory_of};
ghost use Rattle.clause_proofs.specs.Shown.{ShowsLine};
ghost use Rattle.clause_rules.specs.Steps.{AreReady, IsReady};
ghost use Rattle.derive_kit.specs.Derived.{AreOfTheory};
ghost use Rattle.fof_terms.specs.declared.form.Form.{Form as Formula, And};
ghost use Rattle.fof_terms.specs.Scope.{scope_sorts};
ghost use Rattle.fof_terms.specs.Sorts.{Sorted, binder_depth};
ghost use Rattle.kernel.specs.Proves.{Proves};
ghost use Rattle.norm_parts.specs.code.Together.{IsSource, ShowMembers, ShowsHere, ShowsUnder};

use crate::choosing::{Choice, outer_terms, own_images, place_on, quantifiers, source_of};
use crate::deciding::norm_within;
use crate::instances::{Shown, instances};
use crate::members::{Way, by_other, by_shared};
use clause_form::Parent;
use clause_proofs::line as formula;
use clause_rules::Just;
use derive_kit::{Part, all_i, and_i, cut_under};
use fof_terms::{Form, Scope, Signature};
use kernel::Proof;
use norm_proofs::{apply, norm_forth};
use std::alloc::Global;
use tptp_base::{List, Memory};

/// A proof of the normal form from its parents, by what shows each part, if its parts are the members of one
/// conjunction under quantifiers and come from the members of one parent's.
pub(crate) fn at_once(
    alloc: Global,
    signature: &Signature,
    parents: &[Parent],
    norm: &Form,
    justs: &[Just],
) -> Result<Option<Part>, Memory>
    requires parents { AreReady signature.now parents.now }
    requires norm { IsReady signature.now norm.now }
    ensures { IfOk result (λ found. IfSome found (ShowsLine signature.now parents.now norm.now)) }
{
    let Some(source) = source_of(justs) else {
        return Ok(None);
    };
    match source_shown(alloc, signature, parents, source)? {
        Some(shown) => {
            let scope = Scope::Outside(&[]);
            let choice = Choice {
                justs,
                source,
                depth: 0,
            };
            quantified(norm, alloc, signature, &scope, parents, choice, shown)
        }
        None => Ok(None),
    }
}

// The normal form of the parent of that number, if its norm size is not over the limit.
fn source_shown(
    alloc: Global,
    signature: &Signature,
    parents: &[Parent],
    number: usize,
) -> Result<Option<Shown>, Memory>
    requires { AreReady signature.now parents.now }
    ensures { IfOk result (λ found. IfSome found (IsSource signature.now parents.now)) }
{
    if number >= parents.len() {
        return Ok(None);
    }
    let parent = &parents[number];
    match norm_within(alloc, &parent.form)? {
        Some(form) => {
            let forth = norm_forth(alloc, &parent.form)?;
            let part = apply(alloc, forth, formula(alloc, parent.number)?)?;
            Ok(Some(Shown { form, part }))
        }
        None => Ok(None),
    }
}

// The formula over the variables in reach, if it is a conjunction under quantifiers.
#[cycle(quantified)]
fn quantified(
    form: &Form,
    alloc: Global,
    signature: &Signature,
    scope: &Scope<'_>,
    parents: &[Parent],
    choice: Choice<'_>,
    shown: Shown,
) -> Result<Option<Part>, Memory>
    requires parents { AreReady signature.now parents.now }
    requires form { Sorted signature.now (scope_sorts scope.now) form.now }
    requires room { length (scope_sorts scope.now) + binder_depth form.now ≤ 1000000000 }
    requires source { IsSource signature.now parents.now shown }
    ensures { IfOk result (λ found.
        IfSome found (ShowsHere signature.now parents.now (scope_sorts scope.now) form.now)) }
{
    match form {
        Form::All(sort, body) => {
            let inner = Scope::Under(*sort, &*scope);
            let deeper = Choice {
                justs: choice.justs,
                source: choice.source,
                depth: choice.depth.saturating_add(1),
            };
            match quantified(body.get(), alloc, signature, &inner, parents, deeper, shown)? {
                Some(part) => Ok(Some(all_i(alloc, *sort, part)?)),
                None => Ok(None),
            }
        }
        Form::And(members) => {
            let members = members.as_slice();
            conjunction(alloc, signature, scope, parents, choice, shown, members)
        }
        _ => Ok(None),
    }
}

// The conjunction of the members over the variables in reach.
fn conjunction(
    alloc: Global,
    signature: &Signature,
    scope: &Scope<'_>,
    parents: &[Parent],
    choice: Choice<'_>,
    shown: Shown,
    members: &[Form],
) -> Result<Option<Part>, Memory>
    requires parents { AreReady signature.now parents.now }
    requires line { Sorted signature.now (scope_sorts scope.now) (And members.now) }
    requires room { length (scope_sorts scope.now) + binder_depth (And members.now) ≤ 1000000000 }
    requires source { IsSource signature.now parents.now shown }
    ensures { IfOk result (λ found.
        IfSome found (ShowsHere signature.now parents.now (scope_sorts scope.now) (And members.now))) }
{
    if members.len() != choice.justs.len() {
        return Ok(None);
    }
    let outer = quantifiers(shown.form.get());
    let terms = outer_terms(alloc, signature, scope, choice, members, outer)?;
    match instances(alloc, signature, scope, shown, terms.as_slice())? {
        Some(shared) => {
            under_shared(
                alloc, signature, scope, parents, choice, outer, shared, members,
            )
        }
        None => Ok(None),
    }
}

// The conjunction, by what the parent says at these variables.
fn under_shared(
    alloc: Global,
    signature: &Signature,
    scope: &Scope<'_>,
    parents: &[Parent],
    choice: Choice<'_>,
    outer: usize,
    shared: Shown,
    members: &[Form],
) -> Result<Option<Part>, Memory>
    requires parents { AreReady signature.now parents.now }
    requires line { Sorted signature.now (scope_sorts scope.now) (And members.now) }
    requires room { length (scope_sorts scope.now) + binder_depth (And members.now) ≤ 1000000000 }
    requires shared { Sorted signature.now (scope_sorts scope.now) shared.form }
    ensures { IfOk result (λ found. IfSome found (λ made. (formulas h : ListOf Formula)
        → AreOfTheory (theory_of signature.now formulas) parents.now
        → Proves (theory_of signature.now formulas) (scope_sorts scope.now) h shared.part shared.form
        → Proves (theory_of signature.now formulas) (scope_sorts scope.now) h made (And members.now))) }
{
    let Shown { form, part } = shared;
    let made = each_member(
        alloc,
        signature,
        scope,
        parents,
        choice,
        outer,
        form.get(),
        members,
    )?;
    match made {
        Some(proofs) => {
            let all = and_i(alloc, proofs)?;
            Ok(Some(cut_under(alloc, part, form.into_inner(), all)?))
        }
        None => Ok(None),
    }
}

// Each of the members, by what is shared as hypothesis 0.
fn each_member(
    alloc: Global,
    signature: &Signature,
    scope: &Scope<'_>,
    parents: &[Parent],
    choice: Choice<'_>,
    outer: usize,
    shared: &Form,
    members: &[Form],
) -> Result<Option<List<Proof>>, Memory>
    requires parents { AreReady signature.now parents.now }
    requires members { AllByRecursion (Sorted signature.now (scope_sorts scope.now)) members.now }
    requires room { length (scope_sorts scope.now) + binder_depth (And members.now) ≤ 1000000000 }
    requires shared { Sorted signature.now (scope_sorts scope.now) shared.now }
    ensures { IfOk result (λ found.
        IfSome found (ShowMembers signature.now parents.now (scope_sorts scope.now) shared.now members.now)) }
{
    let mut proofs = List::new(alloc);
    for at in 0..members.len() {
        let member = &members[at];
        match one_member(
            alloc, signature, scope, parents, choice, outer, shared, member, at,
        )? {
            Some(proof) => proofs.push(proof.into_inner())?,
            None => return Ok(None),
        }
    }
    Ok(Some(proofs))
}

// The member by what shows the part of that number.
fn one_member(
    alloc: Global,
    signature: &Signature,
    scope: &Scope<'_>,
    parents: &[Parent],
    choice: Choice<'_>,
    outer: usize,
    shared: &Form,
    member: &Form,
    at: usize,
) -> Result<Option<Part>, Memory>
    requires parents { AreReady signature.now parents.now }
    requires member { Sorted signature.now (scope_sorts scope.now) member.now }
    requires room { length (scope_sorts scope.now) + binder_depth member.now ≤ 1000000000 }
    requires shared { Sorted signature.now (scope_sorts scope.now) shared.now }
    ensures { IfOk result (λ found.
        IfSome found (ShowsUnder signature.now parents.now (scope_sorts scope.now) shared.now member.now)) }
{
    match choice.justs.get(at) {
        Some(
            Just::Cover {
                parent,
                path,
                subst,
            },
        ) => {
            let images = subst.images.as_slice();
            if *parent != choice.source {
                let terms = own_images(images, choice.depth, 0);
                return by_other(
                    alloc, signature, scope, parents, shared, member, *parent, path, terms,
                );
            }
            match place_on(path) {
                Some(place) => {
                    let way = Way {
                        path: place.rest,
                        images,
                        outer,
                    };
                    let number = place.number;
                    by_shared(
                        alloc,
                        signature,
                        scope,
                        parents,
                        choice.depth,
                        shared,
                        member,
                        number,
                        way,
                    )
                }
                None => Ok(None),
            }
        }
        _ => Ok(None),
    }
}
