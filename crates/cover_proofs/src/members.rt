//! Lines that cover a clause of one member of a parent's conjunction: their proofs go to that member first.
ghost use Rattle.std.specs.Prelude.{◌≡◌, ◌≤◌, [], ◌∷◌, ℕ, Some, slice_get, IfOk, IfSome};
ghost use Rattle.clause_form.specs.declared.path.Parent.{Parent as Cited};
ghost use Rattle.clause_form.specs.Sizes.{norm_size_of};
ghost use Rattle.clause_rules.specs.Steps.{AreReady, IsReady};
ghost use Rattle.cover_proofs.specs.code.Facts.{IsFact, IsFactUpTo, ShowsByParent};

use crate::cover::{covered_in, norm_fact, small_norm};
use clause_form::{Parent, Path};
use clause_proofs::line as formula;
use clause_rules::Just;
use derive_kit::Part;
use fof_terms::{Form, Signature, equal};
use norm_proofs::{Narrowed, narrow_along, whole_path};
use rule_steps::cover_step;
use std::alloc::Global;
use tptp_base::{Boxed, List, Memory};

/// A proof of the line by what the path comes to in the parent, first in the formula itself and then in the normal form
/// of what was found. None where the path goes to no member of a conjunction, or the line does not cover a clause of
/// what is found.
pub(crate) fn by_member(
    alloc: Global,
    signature: &Signature,
    parent: &Parent,
    line: &Form,
    path: &Path,
) -> Result<Option<Part>, Memory>
    requires parent { IsReady signature.now parent.now.form }
    requires small { norm_size_of parent.now.form ≤ 100000 }
    requires line { IsReady signature.now line.now }
    ensures { IfOk result (λ found. IfSome found (ShowsByParent signature.now parent.now line.now)) }
{
    if !picks(path) {
        return Ok(None);
    }
    let own = formula(alloc, parent.number)?;
    let first = narrow_along(alloc, &parent.form, whole_path(path), own)?;
    if equal(first.form.get(), line) {
        return Ok(Some(first.part));
    }
    by_norm_of(alloc, signature, parent, line, first)
}

// The same from a formula that the parent implies.
fn by_norm_of(
    alloc: Global,
    signature: &Signature,
    parent: &Parent,
    line: &Form,
    found: Narrowed<'_>,
) -> Result<Option<Part>, Memory>
    requires ready { IsReady signature.now found.form }
    requires small { norm_size_of found.form ≤ 100000 }
    requires fact { IsFactUpTo 1000000000 signature.now parent.now found.form found.part }
    requires line { IsReady signature.now line.now }
    ensures { IfOk result (λ made. IfSome made (ShowsByParent signature.now parent.now line.now)) }
{
    let Narrowed {
        form,
        part,
        rest,
        ..
    } = found;
    let own = norm_fact(alloc, signature, parent, form.get(), part)?;
    let norm = Boxed::new(alloc, small_norm(alloc, form.get())?)?;
    let last = narrow_along(alloc, norm.get(), rest, own)?;
    if equal(last.form.get(), line) {
        return Ok(Some(last.part));
    }
    let Narrowed { form, part, .. } = last;
    let cited = lone_parent(alloc, parent.number, form)?;
    by_lone(alloc, signature, parent, cited.as_slice(), part, line)
}

// The formula in the place of that number.
fn lone_parent(alloc: Global, number: u64, form: Boxed<Form>) -> Result<List<Parent>, Memory>
    ensures { IfOk result (λ made. (p : Cited) × (made ≡ p ∷ []) × (p.form ≡ form)) }
{
    let form = form.into_inner();
    let mut cited = List::new(alloc);
    cited.push(Parent { number, form })?;
    Ok(cited)
}

// A proof of the line by the one formula, if the line covers a clause of it.
fn by_lone(
    alloc: Global,
    signature: &Signature,
    parent: &Parent,
    cited: &[Parent],
    own: Part,
    line: &Form,
) -> Result<Option<Part>, Memory>
    requires ready { AreReady signature.now cited.now }
    requires line { IsReady signature.now line.now }
    requires fact { (p : Cited) (k : ℕ) → slice_get cited.now k ≡ Some p → IsFact signature.now parent.now p.form own }
    ensures { IfOk result (λ found. IfSome found (ShowsByParent signature.now parent.now line.now)) }
{
    match cover_step(alloc, signature, cited, line)? {
        Some(
            Just::Cover {
                parent: at,
                path,
                subst,
            },
        ) => {
            let form = &cited[at].form;
            let proof = covered_in(alloc, signature, parent, form, own, line, &path, &subst)?;
            Ok(Some(proof))
        }
        Some(_) => unreachable!(),
        None => Ok(None),
    }
}

// Whether the path goes to a member of a conjunction, through universal quantifiers alone.
#[cycle(picks)]
fn picks(path: &Path) -> bool {
    match path {
        Path::Pick(_, _) => true,
        Path::Under(rest) => picks(rest.get()),
        Path::Leaf | Path::Each(_) => false,
    }
}
