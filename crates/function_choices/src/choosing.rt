// The functions that take the place of a formula's existential variables, chosen one after the other.
ghost use Rattle.std.specs.Prelude.{◌≡◌, [], IfOk, length};
ghost use Rattle.std.specs.List.{AllByRecursion as Each};
ghost use Rattle.fof_terms.specs.Scope.{scope_sorts};
ghost use Rattle.skolem_fresh.specs.Choosing.{IsWithin};
ghost use Rattle.function_choices.specs.code.Walked.{AreWalked, IsWalked};

use crate::atoms::Placed;
use crate::finding::replaced;
use fof_terms::{Form, Scope, Signature, SymId};
use skolem_fresh::Use;
use std::alloc::Global;
use tptp_base::{Boxed, List, Memory};

// The formula, which stands under so many universal quantifiers, without its existential ones, by functions that are
// chosen among the symbols, and are added. None where there is no choice.
#[cycle(choose)]
pub(crate) fn choose(
    alloc: Global,
    sig: &Signature,
    scope: &Scope<'_>,
    outer: u32,
    form: &Form,
    symbols: &[SymId],
    atoms: &[Placed],
    uses: &mut List<Use>,
) -> Result<Option<Form>, Memory>
    requires within { IsWithin sig.now (scope_sorts scope.now) form.now }
    requires outer { outer ≡ length (scope_sorts scope.now) }
    ensures { IfOk result (λ made.
        IsWalked sig.now atoms.now symbols.now (scope_sorts scope.now) form.now uses.old uses.new made) }
{
    match form {
        Form::Atom(_, _) => Ok(Some(form.copy(alloc)?)),
        Form::Eq(_, _) => Ok(Some(form.copy(alloc)?)),
        Form::Not(_) => Ok(Some(form.copy(alloc)?)),
        Form::And(members) => {
            let members = members.as_slice();
            match choose_all(alloc, sig, scope, outer, members, symbols, atoms, uses)? {
                Some(made) => Ok(Some(Form::And(made))),
                None => Ok(None),
            }
        }
        Form::Or(members) => {
            let members = members.as_slice();
            match choose_all(alloc, sig, scope, outer, members, symbols, atoms, uses)? {
                Some(made) => Ok(Some(Form::Or(made))),
                None => Ok(None),
            }
        }
        Form::All(sort, body) => {
            let under = Scope::Under(*sort, &*scope);
            let body = body.get();
            match choose(alloc, sig, &under, outer + 1, body, symbols, atoms, uses)? {
                Some(made) => Ok(Some(Form::All(*sort, Boxed::new(alloc, made)?))),
                None => Ok(None),
            }
        }
        Form::Ex(sort, body) => {
            let body = body.get();
            match replaced(alloc, sig, scope, outer, *sort, body, symbols, atoms, uses)? {
                Some(next) => choose(alloc, sig, scope, outer, next.get(), symbols, atoms, uses),
                None => Ok(None),
            }
        }
        Form::Imp(_, _) => Ok(None),
        Form::Iff(_, _) => Ok(None),
    }
}

// The same of each of the formulas.
#[cycle(choose)]
fn choose_all(
    alloc: Global,
    sig: &Signature,
    scope: &Scope<'_>,
    outer: u32,
    forms: &[Form],
    symbols: &[SymId],
    atoms: &[Placed],
    uses: &mut List<Use>,
) -> Result<Option<List<Form>>, Memory>
    requires within { Each (IsWithin sig.now (scope_sorts scope.now)) forms.now }
    requires outer { outer ≡ length (scope_sorts scope.now) }
    ensures { IfOk result (λ made.
        AreWalked sig.now atoms.now symbols.now (scope_sorts scope.now) forms.now uses.old uses.new made) }
{
    let mut made = List::new(alloc);
    for form in forms {
        let next = choose(alloc, sig, scope, outer, form, symbols, atoms, uses)?;
        let Some(next) = next else {
            return Ok(None);
        };
        made.push(next)?;
    }
    Ok(Some(made))
}

// The closed normal form without its existential quantifiers, by functions that are chosen among the symbols, and are
// added. None where there is no choice.
pub(crate) fn choose_whole(
    alloc: Global,
    sig: &Signature,
    norm: &Form,
    symbols: &[SymId],
    atoms: &[Placed],
    uses: &mut List<Use>,
) -> Result<Option<Form>, Memory>
    requires { IsWithin sig.now [] norm.now }
    ensures { IfOk result (λ made. IsWalked sig.now atoms.now symbols.now [] norm.now uses.old uses.new made) }
{
    let outside = Scope::Outside(&[]);
    choose(alloc, sig, &outside, 0, norm, symbols, atoms, uses)
}
