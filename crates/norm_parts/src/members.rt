//! Members of a conjunction: each by a member of a parent's normal form, or by another parent.
ghost use Rattle.std.specs.Prelude.{◌≤◌, ◌+◌, length, IfOk, IfSome};
ghost use Rattle.clause_rules.specs.Steps.{AreReady};
ghost use Rattle.fof_terms.specs.Scope.{scope_sorts};
ghost use Rattle.fof_terms.specs.Sorts.{Sorted, binder_depth};
ghost use Rattle.norm_parts.specs.code.Together.{ShowsFrom, ShowsUnder};

use crate::choosing::own_images;
use crate::instances::{Shown, along, by_literals};
use clause_form::{Parent, Path};
use clause_proofs::line as formula;
use derive_kit::{Part, all_i, and_e, cut_under, hyp};
use fof_terms::{Form, Scope, Signature, Term, lift};
use std::alloc::Global;
use tptp_base::{Boxed, Memory};

/// The rest of a path, and the images of the variables of its clause, the last ones of so many quantifiers before.
#[derive(Clone, Copy)]
pub(crate) struct Way<'a> {
    pub path: &'a Path,
    pub images: &'a [Term],
    pub outer: usize,
}

/// The member by the parent of that number.
pub(crate) fn by_other(
    alloc: Global,
    signature: &Signature,
    scope: &Scope<'_>,
    parents: &[Parent],
    shared: &Form,
    member: &Form,
    number: usize,
    path: &Path,
    terms: &[Term],
) -> Result<Option<Part>, Memory>
    requires parents { AreReady signature.now parents.now }
    requires member { Sorted signature.now (scope_sorts scope.now) member.now }
    ensures { IfOk result (λ found.
        IfSome found (ShowsUnder signature.now parents.now (scope_sorts scope.now) shared.now member.now)) }
{
    if number >= parents.len() {
        return Ok(None);
    }
    let parent = &parents[number];
    let shown = Shown {
        form: Boxed::new(alloc, parent.form.copy(alloc)?)?,
        part: formula(alloc, parent.number)?,
    };
    match along(path, alloc, signature, scope, shown, terms)? {
        Some(made) => by_literals(alloc, made, member),
        None => Ok(None),
    }
}

/// The member by that member of what is shared.
pub(crate) fn by_shared(
    alloc: Global,
    signature: &Signature,
    scope: &Scope<'_>,
    parents: &[Parent],
    depth: usize,
    shared: &Form,
    member: &Form,
    number: u32,
    way: Way<'_>,
) -> Result<Option<Part>, Memory>
    requires member { Sorted signature.now (scope_sorts scope.now) member.now }
    requires room { length (scope_sorts scope.now) + binder_depth member.now ≤ 1000000000 }
    requires shared { Sorted signature.now (scope_sorts scope.now) shared.now }
    ensures { IfOk result (λ found.
        IfSome found (ShowsUnder signature.now parents.now (scope_sorts scope.now) shared.now member.now)) }
{
    match shared {
        Form::And(members) => {
            let members = members.as_slice();
            let place = number as usize;
            if place >= members.len() {
                return Ok(None);
            }
            let one = &members[place];
            let form = Boxed::new(alloc, one.copy(alloc)?)?;
            match under(member, alloc, signature, scope, form, way, depth)? {
                Some(rest) => {
                    let own = and_e(alloc, number, hyp(alloc, 0)?)?;
                    Ok(Some(cut_under(alloc, own, one.copy(alloc)?, rest)?))
                }
                None => Ok(None),
            }
        }
        _ => Ok(None),
    }
}

// The goal by the formula as hypothesis 0.
#[cycle(under)]
fn under(
    goal: &Form,
    alloc: Global,
    signature: &Signature,
    scope: &Scope<'_>,
    form: Boxed<Form>,
    way: Way<'_>,
    depth: usize,
) -> Result<Option<Part>, Memory>
    requires goal { Sorted signature.now (scope_sorts scope.now) goal.now }
    requires room { length (scope_sorts scope.now) + binder_depth goal.now ≤ 1000000000 }
    requires form { Sorted signature.now (scope_sorts scope.now) form }
    ensures { IfOk result (λ found. IfSome found (ShowsFrom signature.now (scope_sorts scope.now) form goal.now)) }
{
    match goal {
        Form::All(sort, body) => {
            let moved = Boxed::new(alloc, lift(alloc, form.get(), 1, 0)?)?;
            let inner = Scope::Under(*sort, &*scope);
            let deeper = depth.saturating_add(1);
            match under(body.get(), alloc, signature, &inner, moved, way, deeper)? {
                Some(part) => Ok(Some(all_i(alloc, *sort, part)?)),
                None => Ok(None),
            }
        }
        _ => at_literals(alloc, signature, scope, form, way, depth, goal),
    }
}

// The same of a goal without a quantifier outside.
fn at_literals(
    alloc: Global,
    signature: &Signature,
    scope: &Scope<'_>,
    form: Boxed<Form>,
    way: Way<'_>,
    depth: usize,
    goal: &Form,
) -> Result<Option<Part>, Memory>
    requires goal { Sorted signature.now (scope_sorts scope.now) goal.now }
    requires form { Sorted signature.now (scope_sorts scope.now) form }
    ensures { IfOk result (λ found. IfSome found (ShowsFrom signature.now (scope_sorts scope.now) form goal.now)) }
{
    let part = hyp(alloc, 0)?;
    let shown = Shown { form, part };
    let terms = own_images(way.images, depth, way.outer);
    match along(way.path, alloc, signature, scope, shown, terms)? {
        Some(made) => by_literals(alloc, made, goal),
        None => Ok(None),
    }
}
