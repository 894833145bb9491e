//! Proofs of lines that follow part by part.
ghost use Rattle.std.specs.Prelude.{◌≡◌, length, IfOk, Some};
ghost use Rattle.clause_proofs.specs.Shown.{ShowsLine};
ghost use Rattle.clause_rules.specs.Steps.{AreReady, IsReady};
ghost use Rattle.norm_parts.specs.ByParts.{AreShownParts, IsByParts, IsShownPart};
ghost use Rattle.norm_parts.specs.Shown.{IsLineByParts};
ghost use Rattle.norm_parts.specs.code.Known.{EachReady, ShowLines};

use crate::deciding::by_parts;
use crate::joining::{line_of_norm, line_of_parts, small_norm};
use crate::splitting::parts;
use crate::together::at_once;
use clause_form::Parent;
use clause_rules::Just;
use cover_proofs::covered;
use derive_kit::Part;
use fof_terms::{Form, Signature};
use kernel::Proof;
use rule_proofs::trivial;
use std::alloc::Global;
use tptp_base::{Boxed, List, Memory};

/// A proof of the line from its parents, part by part; None exactly where it does not follow so.
pub fn line_by_parts(
    alloc: Global,
    signature: &Signature,
    parents: &[Parent],
    line: &Form,
) -> Result<Option<Part>, Memory>
    requires parents { AreReady signature.now parents.now }
    requires line { IsReady signature.now line.now }
    ensures { IfOk result (IsLineByParts signature.now parents.now line.now) }
{
    match by_parts(alloc, signature, parents, line)? {
        Some(justs) => {
            let proof = shown_by_parts(alloc, signature, parents, line, justs.as_slice())?;
            Ok(Some(proof))
        }
        None => Ok(None),
    }
}

/// A proof of the line from its parents, by what shows each part.
pub fn shown_by_parts(
    alloc: Global,
    signature: &Signature,
    parents: &[Parent],
    line: &Form,
    justs: &[Just],
) -> Result<Part, Memory>
    requires parents { AreReady signature.now parents.now }
    requires line { IsReady signature.now line.now }
    requires shown { IsByParts signature.now parents.now line.now (Some justs.now) }
    ensures { IfOk result (ShowsLine signature.now parents.now line.now) }
{
    let norm = Boxed::new(alloc, small_norm(alloc, line)?)?;
    if let Some(whole) = at_once(alloc, signature, parents, norm.get(), justs)? {
        return line_of_norm(alloc, line, whole);
    }
    let members = parts(alloc, norm.get())?;
    let members = members.as_slice();
    let proofs = each_proved(alloc, signature, parents, members, justs)?;
    line_of_parts(alloc, line, proofs)
}

// A proof of each of the parts, by what shows it.
fn each_proved(
    alloc: Global,
    signature: &Signature,
    parents: &[Parent],
    members: &[Form],
    justs: &[Just],
) -> Result<List<Proof>, Memory>
    requires parents { AreReady signature.now parents.now }
    requires members { EachReady signature.now members.now }
    requires many { length members.now ≡ length justs.now }
    requires shown { AreShownParts signature.now parents.now members.now justs.now }
    ensures { IfOk result (λ proofs. ShowLines signature.now parents.now proofs members.now) }
{
    let mut proofs = List::new(alloc);
    for at in 0..members.len() {
        let proof = part_proved(alloc, signature, parents, &members[at], &justs[at])?;
        proofs.push(proof.into_inner())?;
    }
    Ok(proofs)
}

// A proof of the part, by what shows it.
fn part_proved(
    alloc: Global,
    signature: &Signature,
    parents: &[Parent],
    part: &Form,
    just: &Just,
) -> Result<Part, Memory>
    requires parents { AreReady signature.now parents.now }
    requires part { IsReady signature.now part.now }
    requires shown { IsShownPart signature.now parents.now part.now just.now }
    ensures { IfOk result (ShowsLine signature.now parents.now part.now) }
{
    match just {
        Just::Cover {
            parent,
            path,
            subst,
        } => covered(alloc, signature, parents, part, *parent, path, subst),
        _ => trivial(alloc, signature, part),
    }
}
