// The lines of a derivation.
ghost use Rattle.std.specs.Prelude.{◌≡◌, ◌++◌, [], if◌then◌else◌, get_or, length, IfOk, OnOk};
ghost use Rattle.given_parts.specs.Chosen.{chosen};
ghost use Rattle.refutation_lines.specs.Lines.{given_lines, inferred_lines, input_lines, lines_of_member};
ghost use Rattle.refutation_lines.specs.Lines.{skolem_line as line_of_part, skolem_lines};
ghost use Rattle.refutation_lines.specs.code.Printable.{AreRoomy, IsRoomy};

use crate::clauses::{clause_line, source_of_input, source_of_parents};
use crate::naming::has_some;
use crate::placing::number_at;
use crate::plan::Plan;
use clause_form::Clause;
use derivation_items::{LineSource, ProofLine, numbered};
use fof_terms::SymId;
use given_parts::Part;
use saturation::{Member, Origin};
use sort_check::GivenEntry;
use std::alloc::Global;
use step_clauses::skolemize;
use tptp_base::{List, Memory};

/// Adds the lines of the given formulas that are used.
pub(crate) fn push_given(
    alloc: Global,
    given: &[GivenEntry],
    used: &[bool],
    lines: &mut List<ProofLine>,
) -> Result<(), Memory>
    requires { length used.now ≡ length given.now }
    ensures { OnOk result (lines.new ≡ lines.old ++ chosen given_lines used.now given.now) }
{
    for number in 0..given.len() {
        push_given_if(alloc, used[number], number, &given[number], lines)?;
    }
    Ok(())
}

// Adds the line of a given formula, if it is used.
fn push_given_if(
    alloc: Global,
    is_used: bool,
    number: usize,
    entry: &GivenEntry,
    lines: &mut List<ProofLine>,
) -> Result<(), Memory>
    ensures { OnOk result (lines.new ≡ lines.old ++ (if is_used then given_lines number entry.now else [])) }
{
    if !is_used {
        return Ok(());
    }
    let name = numbered(alloc, b"f", number as u64)?;
    let form = entry.form.copy(alloc)?;
    let source = LineSource::Given(entry.name.copy(alloc)?);
    lines.push(ProofLine { name, form, source })?;
    Ok(())
}

/// Adds the lines of the parts that are used and have existential quantifiers, with functions in their place.
pub(crate) fn push_skolemized(
    alloc: Global,
    parts: &[Part],
    used: &[bool],
    firsts: &[SymId],
    lines: &mut List<ProofLine>,
) -> Result<(), Memory>
    requires count { length used.now ≡ length parts.now }
    requires roomy { AreRoomy firsts.now parts.now }
    ensures { OnOk result (lines.new ≡ lines.old ++ chosen (skolem_lines firsts.now) used.now parts.now) }
{
    for number in 0..parts.len() {
        push_part_if(alloc, used[number], number, &parts[number], firsts, lines)?;
    }
    Ok(())
}

// Adds the line of a part, if it is used and has existential quantifiers.
fn push_part_if(
    alloc: Global,
    is_used: bool,
    number: usize,
    part: &Part,
    firsts: &[SymId],
    lines: &mut List<ProofLine>,
) -> Result<(), Memory>
    requires { IsRoomy (get_or firsts.now number 0) part.now }
    ensures { OnOk result (lines.new
        ≡ lines.old ++ (if is_used then skolem_lines firsts.now number part.now else [])) }
{
    if !is_used {
        return Ok(());
    }
    if !has_some(part.existentials.as_slice()) {
        return Ok(());
    }
    lines.push(skolem_line(alloc, number, part, firsts)?)?;
    Ok(())
}

// The line of a part with functions in place of existential variables.
fn skolem_line(
    alloc: Global,
    number: usize,
    part: &Part,
    firsts: &[SymId],
) -> Result<ProofLine, Memory>
    requires { IsRoomy (get_or firsts.now number 0) part.now }
    ensures { IfOk result (λ line. line ≡ line_of_part firsts.now number part.now) }
{
    let name = numbered(alloc, b"s", number as u64)?;
    let form = skolemize(alloc, &part.norm, first_at(firsts, number))?;
    let source = LineSource::Skolemized(numbered(alloc, b"f", number as u64)?);
    Ok(ProofLine { name, form, source })
}

// The number at the place, or 0 past the end.
fn first_at(firsts: &[SymId], at: usize) -> SymId
    ensures { result ≡ get_or firsts.now at 0 }
{
    match firsts.get(at) {
        Some(first) => *first,
        None => 0,
    }
}

/// Adds the lines of the inputs that are printed.
pub(crate) fn push_inputs(
    alloc: Global,
    plan: &Plan,
    inputs: &[Clause],
    printed: &[bool],
    lines: &mut List<ProofLine>,
) -> Result<(), Memory>
    requires { length printed.now ≡ length inputs.now }
    ensures { OnOk result (lines.new ≡ lines.old ++ chosen (input_lines plan.now) printed.now inputs.now) }
{
    for number in 0..inputs.len() {
        push_input_if(alloc, printed[number], plan, number, &inputs[number], lines)?;
    }
    Ok(())
}

// Adds the line of an input, if it is printed.
fn push_input_if(
    alloc: Global,
    is_printed: bool,
    plan: &Plan,
    number: usize,
    clause: &Clause,
    lines: &mut List<ProofLine>,
) -> Result<(), Memory>
    ensures { OnOk result (lines.new
        ≡ lines.old ++ (if is_printed then input_lines plan.now number clause.now else [])) }
{
    if !is_printed {
        return Ok(());
    }
    let place = number_at(plan.ranks.as_slice(), number);
    let source = source_of_input(alloc, plan, number)?;
    lines.push(clause_line(alloc, plan, place, clause, source)?)?;
    Ok(())
}

/// Adds the lines of the needed members that are inferred.
pub(crate) fn push_inferred(
    alloc: Global,
    plan: &Plan,
    members: &[Member],
    needed: &[bool],
    lines: &mut List<ProofLine>,
) -> Result<(), Memory>
    requires { length needed.now ≡ length members.now }
    ensures { OnOk result (lines.new ≡ lines.old ++ chosen (inferred_lines plan.now) needed.now members.now) }
{
    for number in 0..members.len() {
        push_member_if(alloc, needed[number], plan, number, &members[number], lines)?;
    }
    Ok(())
}

// Adds the line of a member, if it is needed and inferred.
fn push_member_if(
    alloc: Global,
    is_needed: bool,
    plan: &Plan,
    number: usize,
    member: &Member,
    lines: &mut List<ProofLine>,
) -> Result<(), Memory>
    ensures { OnOk result (lines.new
        ≡ lines.old ++ (if is_needed then inferred_lines plan.now number member.now else [])) }
{
    if !is_needed {
        return Ok(());
    }
    push_member(alloc, plan, number, &member.clause, &member.origin, lines)
}

// Adds the line of a member, if it is inferred.
fn push_member(
    alloc: Global,
    plan: &Plan,
    number: usize,
    clause: &Clause,
    origin: &Origin,
    lines: &mut List<ProofLine>,
) -> Result<(), Memory>
    ensures { OnOk result (lines.new ≡ lines.old ++ lines_of_member plan.now number clause.now origin.now) }
{
    match origin {
        Origin::Input(_) => Ok(()),
        Origin::Inferred(first, second, _) => {
            let place = number_at(plan.places.as_slice(), number);
            let source = source_of_parents(alloc, plan, *first, *second)?;
            lines.push(clause_line(alloc, plan, place, clause, source)?)?;
            Ok(())
        }
    }
}
