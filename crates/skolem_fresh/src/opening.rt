// The functions that take the place of a formula's first existential variables, read off what it then is.
ghost use Rattle.std.specs.Prelude.{◌≡◌, ◌↔◌, ◌≤◌, ◌<◌, ◌^◌, IfOk, IsTrue, Some};
ghost use Rattle.fof_terms.specs.Scope.{scope_sorts};
ghost use Rattle.fof_terms.specs.Sorts.{binder_depth, sort_of_term};
ghost use Rattle.fof_terms.specs.declared.form.Form.{Ex};
ghost use Rattle.skolem_fresh.specs.Uses.{value_of as value_in};
ghost use Rattle.skolem_fresh.specs.Choosing.{IsWithin};
ghost use Rattle.skolem_fresh.specs.code.Choosing.{IsNext, IsRead};
ghost use Rattle.skolem_fresh.specs.code.Leaves.{leaves_of};
ghost use Rattle.skolem_fresh.specs.code.Leading.{leading as leading_in};

use crate::just::Use;
use crate::leaves::{Leaf, push_leaves};
use crate::reading::read;
use fof_terms::{Form, Scope, Signature, SortId, Term, equal, has_variable, instantiate, sort_of};
use std::alloc::Global;
use tptp_base::{Boxed, List, Memory};

// How many existential quantifiers the formula begins with.
#[tactic(auto, using(crate::proofs::LeadingFacts::leading_equations))]
pub(crate) fn leading(form: &Form) -> u32
    requires { binder_depth form.now < 2 ^ 32 }
    ensures value { result ≡ leading_in form.now }
    ensures within { result ≤ binder_depth form.now }
{
    match form {
        Form::Ex(_, body) => leading(body.get()) + 1,
        Form::Atom(_, _)
        | Form::Eq(_, _)
        | Form::Not(_)
        | Form::And(_)
        | Form::Or(_)
        | Form::Imp(_, _)
        | Form::Iff(_, _)
        | Form::All(_, _) => 0,
    }
}

/// The function at its variables.
pub fn value_of(alloc: Global, function: &Use) -> Result<Term, Memory>
    ensures { IfOk result (λ value. value ≡ value_in function.now) }
{
    let mut args = List::new(alloc);
    for variable in function.variables.as_slice() {
        args.push(Term::Var(*variable))?;
    }
    Ok(Term::App(function.function, args))
}

// Whether functions take the place of the formula's first so many existential variables and make it the second formula,
// whose terms these are. Adds the functions.
pub(crate) fn read_uses(
    alloc: Global,
    sig: &Signature,
    scope: &Scope<'_>,
    count: u32,
    form: &Form,
    right: &Form,
    leaves: &[Leaf],
    uses: &mut List<Use>,
) -> Result<bool, Memory>
    requires within { IsWithin sig.now (scope_sorts scope.now) form.now }
    requires enough { count ≤ leading_in form.now }
    requires leaves { leaves.now ≡ leaves_of 0 right.now }
    ensures { IfOk result (λ answer.
        IsRead sig.now (scope_sorts scope.now) count form.now right.now uses.old uses.new answer) }
{
    if count == 0 {
        return Ok(equal(form, right));
    }
    let Form::Ex(sort, body) = form else {
        unreachable!()
    };
    match next_form(alloc, sig, scope, *sort, body.get(), leaves, uses)? {
        Some(next) => {
            read_uses(
                alloc,
                sig,
                scope,
                count - 1,
                next.get(),
                right,
                leaves,
                uses,
            )
        }
        None => Ok(false),
    }
}

// What stands under an existential quantifier, with the value of a function in place of its variable, where that
// occurs. The value is read off these terms, and the function is added; None where it doesn't fit.
fn next_form(
    alloc: Global,
    sig: &Signature,
    scope: &Scope<'_>,
    sort: SortId,
    body: &Form,
    leaves: &[Leaf],
    uses: &mut List<Use>,
) -> Result<Option<Boxed<Form>>, Memory>
    requires within { IsWithin sig.now (scope_sorts scope.now) (Ex sort body.now) }
    ensures { IfOk result (λ next.
        IsNext sig.now (scope_sorts scope.now) sort body.now leaves.now uses.old uses.new next) }
{
    if !has_variable(body, 0) {
        let next = instantiate(alloc, body, &Term::Var(0))?;
        return Ok(Some(Boxed::new(alloc, next)?));
    }
    let mut own = List::new(alloc);
    push_leaves(alloc, body, 0, &mut own)?;
    let Some(found) = read(alloc, sort, own.as_slice(), leaves)? else {
        return Ok(None);
    };
    let value = value_of(alloc, &found)?;
    if !is_of_sort(&value, sig, scope, sort) {
        return Ok(None);
    }
    let next = Boxed::new(alloc, instantiate(alloc, body, &value)?)?;
    uses.push(found)?;
    Ok(Some(next))
}

// Whether the term has the sort.
pub(crate) fn is_of_sort(term: &Term, sig: &Signature, scope: &Scope<'_>, sort: SortId) -> bool
    ensures { IsTrue result ↔ (sort_of_term sig.now (scope_sorts scope.now) term.now ≡ Some sort) }
{
    match sort_of(term, sig, scope) {
        Some(other) => other == sort,
        None => false,
    }
}
