//! Proofs between a formula and its flat form.
ghost use Rattle.std.specs.Prelude.{◌≡◌, ◌≤◌, ◌<◌, ◌^◌, ℕ, List, IfOk, true, false, length};
ghost use Rattle.clause_form.specs.Norm.{norm_of};
ghost use Rattle.clause_form.specs.Sizes.{norm_size_of};
ghost use Rattle.fof_terms.specs.declared.form.Form.{Form as Formula, Imp};
ghost use Rattle.fof_terms.specs.Sorts.{Sorted};
ghost use Rattle.kernel.specs.Proves.{Proves};
ghost use Rattle.kernel.specs.Statements.{Statements};
ghost use Rattle.norm_proofs.specs.Placed.{SortedSomewhere};
ghost use Rattle.norm_proofs.specs.code.Steps.{Between};
ghost use Rattle.flat_form.specs.Flat.{flat_of, flattened};
ghost use Rattle.flat_proofs.specs.code.Leading.{Leads};
ghost use Rattle.flat_proofs.specs.code.Permuting.{loose_flat};

use crate::leading::{chained, or_same};
use crate::moving::{Moved, out_of};
use crate::turning::{Led, turned};
use clause_form::norm_signed;
use derive_kit::Part;
use flat_form::{flatten, pull};
use fof_terms::{Form, equal};
use norm_proofs::{norm_back, norm_forth};
use std::alloc::Global;
use tptp_base::{Boxed, Memory};

/// Imp from the formula to its flat form.
pub fn flat_forth(alloc: Global, form: &Form) -> Result<Part, Memory>
    requires size { norm_size_of form.now ≤ 100000 }
    requires sorted { SortedSomewhere form.now }
    ensures { IfOk result (λ proof. (t : Statements) (v : List ℕ) (h : List Formula) → length v ≤ 1000000000
        → Sorted t.vocabulary v form.now
        → Proves t v h proof (Imp form.now (flat_of form.now))) }
{
    whole_step(alloc, form, true)
}

/// Imp from the formula's flat form to the formula.
pub fn flat_back(alloc: Global, form: &Form) -> Result<Part, Memory>
    requires size { norm_size_of form.now ≤ 100000 }
    requires sorted { SortedSomewhere form.now }
    ensures { IfOk result (λ proof. (t : Statements) (v : List ℕ) (h : List Formula) → length v ≤ 1000000000
        → Sorted t.vocabulary v form.now
        → Proves t v h proof (Imp (flat_of form.now) form.now)) }
{
    whole_step(alloc, form, false)
}

// Between the formula and its flat form, by its normal form.
fn whole_step(alloc: Global, form: &Form, forth: bool) -> Result<Part, Memory>
    requires size { norm_size_of form.now ≤ 100000 }
    requires sorted { SortedSomewhere form.now }
    ensures { IfOk result (λ made. Between forth 1147483646 made form.now (flat_of form.now)) }
{
    let norm = Boxed::new(alloc, norm_signed(alloc, form, true)?)?;
    let first = norm_or_none(alloc, form, norm.get(), forth)?;
    let Led { form: flat, part } = norm_step(alloc, norm.get(), forth)?;
    let whole = chained(alloc, forth, form, flat.get(), first, part)?;
    or_same(alloc, form, whole)
}

// Between the formula and its normal form, if these aren't the same.
fn norm_or_none(
    alloc: Global,
    form: &Form,
    norm: &Form,
    forth: bool,
) -> Result<Option<Part>, Memory>
    requires size { norm_size_of form.now ≤ 100000 }
    requires sorted { SortedSomewhere form.now }
    requires norm { norm.now ≡ norm_of true form.now }
    ensures { IfOk result (λ made. Leads forth 1147483646 made form.now norm.now) }
{
    if equal(form, norm) {
        return Ok(None);
    }
    Ok(Some(norm_part(alloc, form, forth)?))
}

// Between the formula and its normal form.
fn norm_part(alloc: Global, form: &Form, forth: bool) -> Result<Part, Memory>
    requires size { norm_size_of form.now ≤ 100000 }
    requires sorted { SortedSomewhere form.now }
    ensures { IfOk result (λ made. Between forth 1147483646 made form.now (norm_of true form.now)) }
{
    if forth {
        return norm_forth(alloc, form);
    }
    norm_back(alloc, form)
}

// The flat form of a normal form, and the proof between them.
fn norm_step(alloc: Global, norm: &Form, forth: bool) -> Result<Led, Memory>
    requires size { norm_size_of norm.now ≤ 100000 }
    requires sorted { SortedSomewhere norm.now }
    requires normal { norm_of true norm.now ≡ norm.now }
    ensures form { IfOk result (λ made. made.form ≡ flattened norm.now) }
    ensures part { IfOk result (λ made. Leads forth 1147483646 made.part norm.now made.form) }
{
    let Led { form: loose, part } = loosened(alloc, norm, forth)?;
    let form = flatten(alloc, norm)?;
    let last = norm_or_none(alloc, loose.get(), form.get(), forth)?;
    let part = chained(alloc, forth, norm, form.get(), part, last)?;
    Ok(Led { form, part })
}

// The quantifiers that are pulled out of the normal form, in the order of their variables, over the body whose nodes aren't
// joined, and the proof between the normal form and them.
fn loosened(alloc: Global, norm: &Form, forth: bool) -> Result<Led, Memory>
    requires size { norm_size_of norm.now ≤ 100000 }
    requires sorted { SortedSomewhere norm.now }
    requires normal { norm_of true norm.now ≡ norm.now }
    ensures form { IfOk result (λ made. made.form ≡ loose_flat norm.now) }
    ensures part { IfOk result (λ made. Leads forth 1147483646 made.part norm.now (loose_flat norm.now)) }
{
    let Moved { pulled, part } = out_of(alloc, forth, norm)?;
    let flat = pull(alloc, norm)?;
    let Led { form, part: turn } = turned(alloc, forth, &pulled, &flat.body)?;
    let part = chained(alloc, forth, norm, form.get(), part, turn)?;
    Ok(Led { form, part })
}
