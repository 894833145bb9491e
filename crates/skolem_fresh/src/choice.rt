// The rule `choice`.
ghost use Rattle.std.specs.Prelude.{[], IfOk, MatchOption};
ghost use Rattle.fof_terms.specs.Scope.{scope_sorts};
ghost use Rattle.fof_terms.specs.Sorts.{SortedTo};
ghost use Rattle.fof_terms.specs.declared.form.Form.{Imp};
ghost use Rattle.skolem_fresh.specs.ChoiceRule.{IsChoiceStep};
ghost use Rattle.skolem_fresh.specs.code.Choosing.{IsChosen, IsChosenUnder};
ghost use Rattle.skolem_fresh.specs.Choosing.{IsWithin};
ghost use Rattle.skolem_fresh.specs.Justified.{ShowsChoice};

use crate::choosing::may_choose;
use crate::just::{SkolemJust, Use};
use crate::leaves::push_leaves;
use crate::opening::{leading, read_uses};
use fof_terms::{Form, Scope};
use proof_check::Theory;
use std::alloc::Global;
use tptp_base::{List, Memory};

/// A justification by the rule `choice`: the line says of new functions that they choose what there is. None exactly
/// where it is no such line.
pub fn choice_step(
    alloc: Global,
    theory: &Theory,
    line: &Form,
) -> Result<Option<SkolemJust>, Memory>
    requires { SortedTo 1000000000 theory.now.vocabulary [] line.now }
    ensures { IfOk result (λ answer. MatchOption answer (IsChoiceStep theory.now line.now
        → ⊥) (ShowsChoice theory.now line.now)) }
{
    match chosen_under(alloc, theory, &Scope::Outside(&[]), line)? {
        Some(uses) => Ok(Some(SkolemJust::Choice { uses })),
        None => Ok(None),
    }
}

// The functions of which the line says it, under quantifiers over the scope.
fn chosen_under(
    alloc: Global,
    theory: &Theory,
    scope: &Scope<'_>,
    line: &Form,
) -> Result<Option<List<Use>>, Memory>
    requires { IsWithin theory.now.vocabulary (scope_sorts scope.now) line.now }
    ensures { IfOk result (λ answer. IsChosenUnder theory.now (scope_sorts scope.now) line.now answer) }
{
    match line {
        Form::All(sort, body) => {
            chosen_under(alloc, theory, &Scope::Under(*sort, &*scope), body.get())
        }
        Form::Imp(left, right) => chosen(alloc, theory, scope, left.get(), right.get()),
        _ => Ok(None),
    }
}

// The functions that choose for the left formula, as the right one says.
fn chosen(
    alloc: Global,
    theory: &Theory,
    scope: &Scope<'_>,
    left: &Form,
    right: &Form,
) -> Result<Option<List<Use>>, Memory>
    requires { IsWithin theory.now.vocabulary (scope_sorts scope.now) (Imp left.now right.now) }
    ensures { IfOk result (λ answer. IsChosen theory.now (scope_sorts scope.now) left.now right.now answer) }
{
    let before = leading(left);
    let after = leading(right);
    if before <= after {
        return Ok(None);
    }
    let mut leaves = List::new(alloc);
    push_leaves(alloc, right, 0, &mut leaves)?;
    let mut uses = List::new(alloc);
    let sig = theory.signature();
    let is_read = read_uses(
        alloc,
        sig,
        scope,
        before - after,
        left,
        right,
        leaves.as_slice(),
        &mut uses,
    )?;
    if !is_read {
        return Ok(None);
    }
    if !may_choose(alloc, theory, left, uses.as_slice())? {
        return Ok(None);
    }
    Ok(Some(uses))
}
