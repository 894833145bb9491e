ghost use Rattle.std.specs.Prelude.{◌≡◌, IfOk, map};
ghost use Rattle.clause_form.specs.Strip.{strip_of};

use fof_terms::{Form, copy_terms};
use std::alloc::Global;
use tptp_base::{Boxed, List, Memory};

/// The formula with every Ex turned into All.
#[cycle(strip)]
#[tactic(auto, using(crate::proofs::StripFacts::strip_of_equations))]
pub fn strip(alloc: Global, form: &Form) -> Result<Form, Memory>
    ensures { IfOk result (λ made. made ≡ strip_of form.now) }
{
    match form {
        Form::Atom(symbol, args) => Ok(Form::Atom(*symbol, copy_terms(alloc, args.as_slice())?)),
        Form::Eq(left, right) => Ok(Form::Eq(left.copy(alloc)?, right.copy(alloc)?)),
        Form::Not(body) => Ok(Form::Not(strip_box(alloc, body.get())?)),
        Form::And(members) => Ok(Form::And(strip_all(alloc, members.as_slice())?)),
        Form::Or(members) => Ok(Form::Or(strip_all(alloc, members.as_slice())?)),
        Form::Imp(left, right) => Ok(Form::Imp(
            strip_box(alloc, left.get())?,
            strip_box(alloc, right.get())?,
        )),
        Form::Iff(left, right) => Ok(Form::Iff(
            strip_box(alloc, left.get())?,
            strip_box(alloc, right.get())?,
        )),
        Form::All(sort, body) | Form::Ex(sort, body) => {
            Ok(Form::All(*sort, strip_box(alloc, body.get())?))
        }
    }
}

#[cycle(strip)]
fn strip_box(alloc: Global, form: &Form) -> Result<Boxed<Form>, Memory>
    ensures { IfOk result (λ made. made ≡ strip_of form.now) }
{
    Ok(Boxed::new(alloc, strip(alloc, form)?)?)
}

#[cycle(strip)]
fn strip_all(alloc: Global, forms: &[Form]) -> Result<List<Form>, Memory>
    ensures { IfOk result (λ made. made ≡ map strip_of forms.now) }
{
    let mut made = List::new(alloc);
    for form in forms {
        made.push(strip(alloc, form)?)?;
    }
    Ok(made)
}
