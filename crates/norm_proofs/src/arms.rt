ghost use Rattle.std.specs.Prelude.{◌≡◌, ◌≤◌, IfOk, map, length, reverse};
ghost use Rattle.clause_form.specs.Norm.{node as node_of, norm_of};
ghost use Rattle.fof_terms.specs.Sorts.{binder_depth};
ghost use Rattle.norm_proofs.specs.code.Links.{Arms};
ghost use Rattle.norm_proofs.specs.code.Recursion.{MemberSteps};

use crate::links::{Way, arm};
use fof_terms::Form;
use kernel::Proof;
use std::alloc::Global;
use tptp_base::{Boxed, List, Memory};

// The proofs for the members, by those between them and their normal forms.
pub(crate) fn arms_of(
    alloc: Global,
    way: Way,
    forms: &[Form],
    norms: &[Form],
    parts: List<Proof>,
) -> Result<List<Proof>, Memory>
    requires few { length forms.now ≤ 100000 }
    requires norms { norms.now ≡ map (norm_of way.positive) forms.now }
    requires parts { MemberSteps way.positive way.forth forms.now parts }
    ensures { IfOk result (λ made.
        Arms way.conjunction way.positive way.forth
        (binder_depth (node_of way.conjunction forms.now)) forms.now forms.now made) }
{
    let mut left = reversed(alloc, parts)?;
    let mut made = List::new(alloc);
    for number in 0..forms.len() {
        if let Some(part) = left.pop() {
            let part = Boxed::new(alloc, part)?;
            let arm = arm(
                alloc,
                way,
                forms,
                norms,
                number as u32,
                &forms[number],
                part,
            )?;
            made.push(arm.into_inner())?;
        }
    }
    Ok(made)
}

/// The proofs, the last one first.
pub fn reversed(alloc: Global, parts: List<Proof>) -> Result<List<Proof>, Memory>
    ensures { IfOk result (λ list. list ≡ reverse parts) }
{
    let mut list = List::new(alloc);
    let mut left = parts;
    while let Some(last) = left.pop() {
        list.push(last)?;
    }
    Ok(list)
}
