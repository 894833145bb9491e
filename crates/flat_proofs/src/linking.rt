//! Proofs between a node and the node of what the parts lead to, member by member.
ghost use Rattle.std.specs.Prelude.{◌≡◌, ◌≤◌, ◌+◌, length, IfOk};
ghost use Rattle.clause_form.specs.Norm.{node as node_of};
ghost use Rattle.flat_proofs.specs.code.Moving.{link_arm, link_arms, linked as linked_tree, link_tree};
ghost use Rattle.flat_proofs.specs.code.Nodes.{links_tree};

use clause_form::node;
use derive_kit::{Part, and_e, and_i, hyp, imp_e, imp_i, or_e, or_i};
use fof_terms::{Form, copy_all};
use kernel::Proof;
use norm_proofs::reversed;
use std::alloc::Global;
use tptp_base::{Boxed, List, Memory};

// What the part says of the member of that number of a conjunction, or under minus the disjunction by that.
fn arm(alloc: Global, kind: bool, to: &[Form], number: u32, part: Part) -> Result<Part, Memory>
    ensures { IfOk result (λ made. made ≡ link_arm kind to.now number part) }
{
    let own = hyp(alloc, 0)?;
    if kind {
        return imp_e(alloc, part, and_e(alloc, number, own)?);
    }
    or_i(
        alloc,
        copy_all(alloc, to)?,
        number,
        imp_e(alloc, part, own)?,
    )
}

// The same for each of the parts.
fn arms(alloc: Global, kind: bool, to: &[Form], parts: List<Proof>) -> Result<List<Proof>, Memory>
    requires { length parts ≤ 100000 }
    ensures { IfOk result (λ made. made ≡ link_arms kind to.now 0 parts) }
{
    let mut left = reversed(alloc, parts)?;
    let mut made = List::new(alloc);
    let mut number: u32 = 0;
    while let Some(part) = left.pop() {
        let arm = arm(alloc, kind, to, number, Boxed::new(alloc, part)?)?;
        made.push(arm.into_inner())?;
        number += 1;
    }
    Ok(made)
}

// From the node of the first formulas to that of the second.
fn linked(
    alloc: Global,
    kind: bool,
    from: &[Form],
    to: &[Form],
    parts: List<Proof>,
) -> Result<Part, Memory>
    requires { length parts ≤ 100000 }
    ensures { IfOk result (λ made. made ≡ linked_tree kind from.now to.now parts) }
{
    let inner = node_of_arms(alloc, kind, to, parts)?;
    imp_i(alloc, node(kind, copy_all(alloc, from)?), inner)
}

// The node of the second formulas, by that of the first.
fn node_of_arms(alloc: Global, kind: bool, to: &[Form], parts: List<Proof>) -> Result<Part, Memory>
    requires { length parts ≤ 100000 }
    ensures { IfOk result (λ made. made ≡ links_tree kind to.now parts) }
{
    let arms = arms(alloc, kind, to, parts)?;
    if kind {
        return and_i(alloc, arms);
    }
    let own = hyp(alloc, 0)?;
    or_e(alloc, Form::Or(copy_all(alloc, to)?), own, arms)
}

// Between the node of the formulas and that of the closed ones.
pub(crate) fn link(
    alloc: Global,
    kind: bool,
    forth: bool,
    forms: &[Form],
    closed: &[Form],
    parts: List<Proof>,
) -> Result<Part, Memory>
    requires { length parts ≤ 100000 }
    ensures { IfOk result (λ made. made ≡ link_tree kind forth forms.now closed.now parts) }
{
    if forth {
        return linked(alloc, kind, forms, closed, parts);
    }
    linked(alloc, kind, closed, forms, parts)
}
