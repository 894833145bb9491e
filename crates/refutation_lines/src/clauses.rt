// Lines of clauses.
ghost use Rattle.std.specs.Prelude.{◌≡◌, IfOk};
ghost use Rattle.refutation_lines.specs.Lines.{clause_line as line_of_clause, last_line as line_at_last};
ghost use Rattle.refutation_lines.specs.Lines.{printed_form as form_printed, source_of as source_by};
ghost use Rattle.refutation_lines.specs.Lines.{source_of_input as source_by_input};
ghost use Rattle.refutation_lines.specs.Lines.{source_of_parents as source_by_parents};

use crate::naming::{opened_name, parent_names};
use crate::placing::number_at;
use crate::plan::Plan;
use clause_form::{Clause, close};
use derivation_items::{LineSource, ProofLine, numbered};
use fof_terms::Form;
use printed_clauses::{renumber, trim};
use saturation::Origin;
use std::alloc::Global;
use tptp_base::{List, Memory, Text};

/// The line of a clause of that place, which comes from there.
pub(crate) fn clause_line(
    alloc: Global,
    plan: &Plan,
    place: usize,
    clause: &Clause,
    source: LineSource,
) -> Result<ProofLine, Memory>
    ensures { IfOk result (λ line. line ≡ line_of_clause plan.now place clause.now source) }
{
    let name = numbered(alloc, b"c", place as u64)?;
    let form = printed_form(alloc, plan, clause)?;
    Ok(ProofLine { name, form, source })
}

/// The last line, which is falsehood.
pub(crate) fn last_line(alloc: Global, plan: &Plan, origin: &Origin) -> Result<ProofLine, Memory>
    ensures { IfOk result (λ line. line ≡ line_at_last plan.now origin.now) }
{
    let name = Text::from_slice(alloc, b"e")?;
    let source = source_of(alloc, plan, origin)?;
    let form = Form::Or(List::new(alloc));
    Ok(ProofLine { name, form, source })
}

// The clause over the functions of the derivation, without the sorts of variables that do not occur.
fn printed_form(alloc: Global, plan: &Plan, clause: &Clause) -> Result<Form, Memory>
    ensures { IfOk result (λ form. form ≡ form_printed plan.now clause.now) }
{
    let renumbered = renumber(alloc, clause, plan.first, plan.numbers.all.as_slice())?;
    let trimmed = trim(alloc, &renumbered)?;
    Ok(close(alloc, &trimmed)?)
}

// Where a clause of that origin comes from.
fn source_of(alloc: Global, plan: &Plan, origin: &Origin) -> Result<LineSource, Memory>
    ensures { IfOk result (λ source. source ≡ source_by plan.now origin.now) }
{
    match origin {
        Origin::Input(number) => source_of_input(alloc, plan, *number as usize),
        Origin::Inferred(first, second, _) => source_of_parents(alloc, plan, *first, *second),
    }
}

/// Where the input comes from.
pub(crate) fn source_of_input(
    alloc: Global,
    plan: &Plan,
    number: usize,
) -> Result<LineSource, Memory>
    ensures { IfOk result (λ source. source ≡ source_by_input plan.now number) }
{
    let owner = number_at(plan.owners.as_slice(), number);
    Ok(LineSource::ClauseOf(opened_name(alloc, plan.parts.as_slice(), owner)?))
}

/// Where what is inferred from two members comes from.
pub(crate) fn source_of_parents(
    alloc: Global,
    plan: &Plan,
    first: u32,
    second: u32,
) -> Result<LineSource, Memory>
    ensures { IfOk result (λ source. source ≡ source_by_parents plan.now first second) }
{
    let names = parent_names(alloc, plan.places.as_slice(), first, second)?;
    Ok(LineSource::Inferred(names))
}
