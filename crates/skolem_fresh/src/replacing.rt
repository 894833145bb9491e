// The functions that take the place of a formula's existential variables wherever these stand, read off its terms then.
ghost use Rattle.std.specs.Prelude.{◌≡◌, ◌↔◌, IfOk, IsTrue};
ghost use Rattle.fof_terms.specs.Scope.{scope_sorts};
ghost use Rattle.fof_terms.specs.declared.form.Form.{Ex};
ghost use Rattle.skolem_fresh.specs.Choosing.{IsWithin};
ghost use Rattle.skolem_fresh.specs.SkolemRule.{MayReplace};
ghost use Rattle.skolem_fresh.specs.code.Skolemizing.{IsFunctionFor, IsReplaced};

use crate::choosing::are_distinct;
use crate::just::Use;
use crate::leaves::{Leaf, push_leaves};
use crate::only::only_has;
use crate::opening::{is_of_sort, value_of};
use crate::reading::read_from;
use fof_terms::{Form, Scope, Signature, SortId, has_variable, instantiate};
use std::alloc::Global;
use tptp_base::{Boxed, List, Memory};

// The body of an existential quantifier with the value of a function in place of its variable, which stands under so
// many universal ones. The value is read off these terms, and the function is added. None where it may not take that
// place.
pub(crate) fn replaced(
    alloc: Global,
    sig: &Signature,
    scope: &Scope<'_>,
    outer: u32,
    sort: SortId,
    body: &Form,
    leaves: &[Leaf],
    uses: &mut List<Use>,
) -> Result<Option<Boxed<Form>>, Memory>
    requires within { IsWithin sig.now (scope_sorts scope.now) (Ex sort body.now) }
    ensures { IfOk result (λ next.
        IsReplaced sig.now (scope_sorts scope.now) outer sort body.now leaves.now uses.old uses.new next) }
{
    let Some(found) = function_for(alloc, sig, scope, outer, sort, body, leaves)? else {
        return Ok(None);
    };
    let value = value_of(alloc, &found)?;
    let next = Boxed::new(alloc, instantiate(alloc, body, &value)?)?;
    uses.push(found)?;
    Ok(Some(next))
}

// The function that is read off these terms, if it may take that place.
fn function_for(
    alloc: Global,
    sig: &Signature,
    scope: &Scope<'_>,
    outer: u32,
    sort: SortId,
    body: &Form,
    leaves: &[Leaf],
) -> Result<Option<Use>, Memory>
    requires within { IsWithin sig.now (scope_sorts scope.now) (Ex sort body.now) }
    ensures { IfOk result (λ found.
        IsFunctionFor sig.now (scope_sorts scope.now) outer sort body.now leaves.now found) }
{
    if !has_variable(body, 0) {
        return Ok(None);
    }
    let mut own = List::new(alloc);
    push_leaves(alloc, body, 0, &mut own)?;
    let Some(found) = read_from(alloc, outer, sort, own.as_slice(), leaves)? else {
        return Ok(None);
    };
    if !may_replace(alloc, sig, scope, body, &found)? {
        return Ok(None);
    }
    Ok(Some(found))
}

// Whether the function may take the place of the variable of an existential quantifier over its sort and this body.
fn may_replace(
    alloc: Global,
    sig: &Signature,
    scope: &Scope<'_>,
    body: &Form,
    function: &Use,
) -> Result<bool, Memory>
    requires within { IsWithin sig.now (scope_sorts scope.now) (Ex function.now.sort body.now) }
    ensures { IfOk result (λ answer. IsTrue answer
        ↔ MayReplace sig.now (scope_sorts scope.now) function.now function.now.sort body.now) }
{
    let variables = function.variables.as_slice();
    if !are_distinct(variables) {
        return Ok(false);
    }
    if !only_has(variables, body, 1) {
        return Ok(false);
    }
    let value = value_of(alloc, function)?;
    Ok(is_of_sort(&value, sig, scope, function.sort))
}
