//! Implications between two formulas, and how they are put together. Between a formula and itself no proof is needed.
ghost use Rattle.std.specs.Prelude.{◌≡◌, ℕ, Bool, IfOk};
ghost use Rattle.fof_terms.specs.declared.form.Form.{Form as Formula};
ghost use Rattle.kernel.specs.declared.proof.Proof.{ImpI};
ghost use Rattle.norm_proofs.specs.code.Steps.{Between};
ghost use Rattle.flat_proofs.specs.code.Leading.{Leads};

use derive_kit::{Part, hyp, imp_i};
use fof_terms::Form;
use norm_proofs::apply;
use std::alloc::Global;
use tptp_base::Memory;

// The implication from the formula to what the part shows under it.
fn under(alloc: Global, left: &Form, part: Part) -> Result<Part, Memory>
    ensures { IfOk result (λ made. made ≡ ImpI left.now part) }
{
    imp_i(alloc, left.copy(alloc)?, part)
}

// The part, or the implication of the formula by itself.
pub(crate) fn or_same(alloc: Global, form: &Form, part: Option<Part>) -> Result<Part, Memory>
    ensures { IfOk result (λ made. (forth : Bool) (n : ℕ) (other : Formula)
        → Leads forth n part form.now other → Between forth n made form.now other) }
{
    match part {
        Some(part) => Ok(part),
        None => under(alloc, form, hyp(alloc, 0)?),
    }
}

// From the first formula by a middle one to the last, or back.
pub(crate) fn chained(
    alloc: Global,
    forth: bool,
    first: &Form,
    last: &Form,
    before: Option<Part>,
    after: Option<Part>,
) -> Result<Option<Part>, Memory>
    ensures { IfOk result (λ made. (n : ℕ) (middle : Formula) → Leads forth n before first.now middle
        → Leads forth n after middle last.now → Leads forth n made first.now last.now) }
{
    match before {
        Some(part) => followed(alloc, forth, first, last, part, after),
        None => Ok(after),
    }
}

// The same, where the first of the two is a part.
fn followed(
    alloc: Global,
    forth: bool,
    first: &Form,
    last: &Form,
    before: Part,
    after: Option<Part>,
) -> Result<Option<Part>, Memory>
    ensures { IfOk result (λ made. (n : ℕ) (middle : Formula) → Between forth n before first.now middle
        → Leads forth n after middle last.now → Leads forth n made first.now last.now) }
{
    match after {
        Some(part) => Ok(Some(chain(alloc, forth, first, last, before, part)?)),
        None => Ok(Some(before)),
    }
}

// The same by two parts.
fn chain(
    alloc: Global,
    forth: bool,
    first: &Form,
    last: &Form,
    before: Part,
    after: Part,
) -> Result<Part, Memory>
    ensures { IfOk result (λ made. (n : ℕ) (middle : Formula) → Between forth n before first.now middle
        → Between forth n after middle last.now → Between forth n made first.now last.now) }
{
    let own = hyp(alloc, 0)?;
    if forth {
        let found = apply(alloc, before, own)?;
        return under(alloc, first, apply(alloc, after, found)?);
    }
    let found = apply(alloc, after, own)?;
    under(alloc, last, apply(alloc, before, found)?)
}
