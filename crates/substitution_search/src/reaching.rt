//! Whether some path through a normal form may reach a clause that the line covers: a cheap test, before a goal is
//! made.
ghost use Rattle.std.specs.Prelude.{◌≡◌, false, Some, IfOk};
ghost use Rattle.clause_form.specs.declared.clause.Lit.{Lit as Literal};
ghost use Rattle.clause_form.specs.ClauseView.{view_of};
ghost use Rattle.clause_form.specs.Paths.{plain};
ghost use Rattle.substitution_search.specs.Screens.{NeverCovered, NeverReached};
ghost use Rattle.substitution_search.specs.code.Screens.{NoneReached, OneUnreached};

use crate::opening::plain_lit;
use crate::screening::may_be_covered;
use clause_form::Lit;
use fof_terms::Form;
use std::alloc::Global;
use tptp_base::Memory;

/// Whether the line may cover what some path through the formula reaches.
#[cycle(may_reach)]
pub fn may_reach(form: &Form, alloc: Global, line: &[Lit]) -> Result<bool, Memory>
    ensures { IfOk result (λ answer. answer ≡ false → NeverReached line.now form.now) }
{
    match form {
        Form::And(members) => may_reach_one(members.as_slice(), alloc, line),
        Form::Or(members) => may_reach_each(members.as_slice(), alloc, line),
        Form::All(_, body) => may_reach(body.get(), alloc, line),
        Form::Atom(_, _)
        | Form::Eq(_, _)
        | Form::Not(_)
        | Form::Imp(_, _)
        | Form::Iff(_, _)
        | Form::Ex(_, _) => may_reach_leaf(alloc, form, line),
    }
}

// The same of one of the formulas.
#[cycle(may_reach)]
fn may_reach_one(forms: &[Form], alloc: Global, line: &[Lit]) -> Result<bool, Memory>
    ensures { IfOk result (λ answer. answer ≡ false → NoneReached line.now forms.now) }
{
    for at in 0..forms.len() {
        let is_open = may_reach(&forms[at], alloc, line)?;
        if is_open {
            return Ok(true);
        }
    }
    Ok(false)
}

// The same of each of the formulas.
#[cycle(may_reach)]
fn may_reach_each(forms: &[Form], alloc: Global, line: &[Lit]) -> Result<bool, Memory>
    ensures { IfOk result (λ answer. answer ≡ false → OneUnreached line.now forms.now) }
{
    for at in 0..forms.len() {
        let is_open = may_reach(&forms[at], alloc, line)?;
        if !is_open {
            return Ok(false);
        }
    }
    Ok(true)
}

// Whether the literal that the formula is may be covered; none is where it is none, or truth or falsehood.
fn may_reach_leaf(alloc: Global, form: &Form, line: &[Lit]) -> Result<bool, Memory>
    ensures { IfOk result (λ answer. answer ≡ false → (lit : Literal) → plain (view_of form.now).lit ≡ Some lit
        → NeverCovered line.now lit) }
{
    let found = plain_lit(alloc, form)?;
    match &found {
        Some(lit) => Ok(may_be_covered(line, lit)),
        None => Ok(false),
    }
}
