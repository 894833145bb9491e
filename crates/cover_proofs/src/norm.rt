//! Lines whose flat form is that of a parent.
ghost use Rattle.std.specs.Prelude.{◌≡◌, ◌≤◌, [], true, Some, slice_get, List as ListOf, IfOk};
ghost use Rattle.fof_terms.specs.declared.form.Form.{Form as Formula};
ghost use Rattle.clause_form.specs.Norm.{norm_of};
ghost use Rattle.clause_form.specs.Sizes.{norm_size_of};
ghost use Rattle.kernel.specs.Proves.{Proves};
ghost use Rattle.clause_rules.specs.NormRule.{HasLinesFlat};
ghost use Rattle.clause_rules.specs.Steps.{AreReady, IsReady};
ghost use Rattle.rule_proofs.specs.ByRule.{AreAlike};
ghost use Rattle.clause_proofs.specs.Refuting.{theory_of};
ghost use Rattle.clause_proofs.specs.Shown.{ShowsLine};
ghost use Rattle.cover_proofs.specs.code.Facts.{LeadsOn};

use crate::cover::small_norm;
use clause_form::Parent;
use clause_proofs::line as formula;
use derive_kit::Part;
use flat_proofs::{flat_back, flat_forth};
use fof_terms::{Form, Signature, equal};
use norm_proofs::{apply, norm_back, norm_forth};
use std::alloc::Global;
use tptp_base::{Boxed, Memory};

/// A proof of the line by the parent of that number in the list, which has the line's flat form, or by one that is the
/// line itself.
pub fn normed_in(
    alloc: Global,
    signature: &Signature,
    parents: &[Parent],
    line: &Form,
    parent: usize,
) -> Result<Part, Memory>
    requires ready { AreReady signature.now parents.now }
    requires line { IsReady signature.now line.now }
    requires alike { HasLinesFlat parents.now line.now parent }
    ensures { IfOk result (ShowsLine signature.now parents.now line.now) }
{
    let parent = likest(parents, parent, line);
    normed(alloc, signature, &parents[parent], line)
}

// The number of a parent that is the line itself, or else of the one given.
fn likest(parents: &[Parent], parent: usize, line: &Form) -> usize
    requires { HasLinesFlat parents.now line.now parent }
    ensures { HasLinesFlat parents.now line.now result }
{
    for number in 0..parents.len() {
        if equal(&parents[number].form, line) {
            return number;
        }
    }
    parent
}

/// A proof of the line, by a parent that has the line's flat form. A line that is the parent itself is cited, and one
/// that has the parent's normal form is proved by that, which is shorter.
pub fn normed(
    alloc: Global,
    signature: &Signature,
    parent: &Parent,
    line: &Form,
) -> Result<Part, Memory>
    requires parent { IsReady signature.now parent.now.form }
    requires line { IsReady signature.now line.now }
    requires alike { AreAlike parent.now.form line.now }
    ensures { IfOk result (λ proof. (formulas : ListOf Formula)
        → slice_get formulas parent.now.number ≡ Some parent.now.form
        → Proves (theory_of signature.now formulas) [] [] proof line.now) }
{
    let own = formula(alloc, parent.number)?;
    if equal(&parent.form, line) {
        return Ok(own);
    }
    let is_one_norm = have_one_norm(alloc, &parent.form, line)?;
    if is_one_norm {
        return by_normal_forms(alloc, signature, &parent.form, line, own);
    }
    by_flat_forms(alloc, signature, &parent.form, line, own)
}

// Whether the two formulas have one normal form.
fn have_one_norm(alloc: Global, first: &Form, second: &Form) -> Result<bool, Memory>
    requires first { norm_size_of first.now ≤ 100000 }
    requires second { norm_size_of second.now ≤ 100000 }
    ensures { IfOk result (λ found. found ≡ true → norm_of true first.now ≡ norm_of true second.now) }
{
    let one = Boxed::new(alloc, small_norm(alloc, first)?)?;
    let other = Boxed::new(alloc, small_norm(alloc, second)?)?;
    Ok(equal(one.get(), other.get()))
}

// A proof of the line by one of the parent, through the normal form that both have.
fn by_normal_forms(
    alloc: Global,
    signature: &Signature,
    parent: &Form,
    line: &Form,
    own: Part,
) -> Result<Part, Memory>
    requires parent { IsReady signature.now parent.now }
    requires line { IsReady signature.now line.now }
    requires alike { AreAlike parent.now line.now }
    requires norms { norm_of true parent.now ≡ norm_of true line.now }
    ensures { IfOk result (LeadsOn parent.now line.now own) }
{
    let forth = norm_forth(alloc, parent)?;
    let middle = apply(alloc, forth, own)?;
    let back = norm_back(alloc, line)?;
    apply(alloc, back, middle)
}

// The same through the flat form that both have.
fn by_flat_forms(
    alloc: Global,
    signature: &Signature,
    parent: &Form,
    line: &Form,
    own: Part,
) -> Result<Part, Memory>
    requires parent { IsReady signature.now parent.now }
    requires line { IsReady signature.now line.now }
    requires alike { AreAlike parent.now line.now }
    ensures { IfOk result (LeadsOn parent.now line.now own) }
{
    let forth = flat_forth(alloc, parent)?;
    let middle = apply(alloc, forth, own)?;
    let back = flat_back(alloc, line)?;
    apply(alloc, back, middle)
}
