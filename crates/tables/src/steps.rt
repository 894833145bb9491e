// The rules that are recognised by shape.
ghost use Rattle.clause_rules.specs.Steps.{IsReady, AreReady};

use clause_form::Parent;
use clause_rules::{Just, are_ready, is_ready};
use fof_terms::{Form, Signature};
use rule_steps::{
    cover_step, eqfactor_step, norm_step, paramodulation_step, recognise, resolution_step,
    rewrite_step, tautology_step,
};
use std::alloc::Global;
use tptp_base::Memory;

/// The answer of the call `step`: the names of all rules by which the last formula follows from the others, the first
/// of which must be the one that is recognised.
pub fn found(alloc: Global, signature: &Signature, forms: &[Parent]) -> Option<String> {
    let (line, parents) = forms.split_last()?;
    if !is_ready(signature, &line.form) || !are_ready(signature, parents) {
        return None;
    }
    let mut out = String::new(alloc);
    push_rules(alloc, signature, parents, &line.form, &mut out).ok()?;
    Some(out)
}

// Appends the names of the rules by which a line follows, or `none`, and the rule that is recognised in place of the
// first of them, if another is.
fn push_rules(
    alloc: Global,
    signature: &Signature,
    parents: &[Parent],
    line: &Form,
    out: &mut String,
) -> Result<(), Memory>
    requires line { IsReady signature.now line.now }
    requires parents { AreReady signature.now parents.now }
{
    push_formula_rules(alloc, signature, parents, line, out)?;
    push_clause_rules(alloc, signature, parents, line, out)?;
    push_recognised(out, rule_of(recognise(alloc, signature, parents, line))?)
}

// Ends the list of names, each of which has a blank behind it.
fn push_recognised(out: &mut String, recognised: &str) -> Result<(), Memory> {
    if out.pop().is_none() {
        out.push_str("none")?;
    }
    if !out.starts_with(recognised) {
        write!(out, " but recognised is {recognised}")?;
    }
    Ok(())
}

// Appends the names of the rules of formulas by which a line follows.
fn push_formula_rules(
    alloc: Global,
    signature: &Signature,
    parents: &[Parent],
    line: &Form,
    out: &mut String,
) -> Result<(), Memory>
    requires line { IsReady signature.now line.now }
    requires parents { AreReady signature.now parents.now }
{
    push_rule(out, norm_step(alloc, signature, parents, line))?;
    push_rule(out, cover_step(alloc, signature, parents, line))?;
    push_rule(out, tautology_step(alloc, signature, parents, line))
}

// Appends the names of the rules of clauses by which a line follows.
fn push_clause_rules(
    alloc: Global,
    signature: &Signature,
    parents: &[Parent],
    line: &Form,
    out: &mut String,
) -> Result<(), Memory>
    requires line { IsReady signature.now line.now }
    requires parents { AreReady signature.now parents.now }
{
    push_rule(out, resolution_step(alloc, signature, parents, line))?;
    push_rule(out, paramodulation_step(alloc, signature, parents, line))?;
    push_rule(out, eqfactor_step(alloc, signature, parents, line))?;
    push_rule(out, rewrite_step(alloc, signature, parents, line))
}

// Appends the name of the rule that a step is by, if there is a step.
fn push_rule(out: &mut String, step: Result<Option<Just>, Memory>) -> Result<(), Memory> {
    match rule_of(step)? {
        "none" => Ok(()),
        rule => Ok(write!(out, "{rule} ")?),
    }
}

// The name of the rule that a step is by, or `none`. A step is dropped here alone, since that is done variant by
// variant.
fn rule_of(step: Result<Option<Just>, Memory>) -> Result<&'static str, Memory> {
    match step? {
        Some(just) => Ok(name(&just)),
        None => Ok("none"),
    }
}

fn name(just: &Just) -> &'static str {
    match just {
        Just::Norm { .. } => "norm",
        Just::Cover { .. } => "cover",
        Just::Tautology => "tautology",
        Just::Resolution { .. } => "resolution",
        Just::Paramodulation { .. } => "paramodulation",
        Just::EqFactor { .. } => "eqfactor",
        Just::Rewrite { .. } => "rewrite",
    }
}
