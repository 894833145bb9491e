// The formulas that a naming and a choice add.
ghost use Rattle.std.specs.Prelude.{ℕ, ◌≡◌, ◌≤◌, ◌<◌, ◌^◌, IfOk, length};
ghost use Rattle.fof_terms.specs.Instance.{instance_reach};
ghost use Rattle.fof_terms.specs.Sorts.{binder_depth};
ghost use Rattle.fof_terms.specs.declared.term.Term.{App as applied};
ghost use Rattle.kernel.specs.Entries.{for_all, variables, naming, choice};

use fof_terms::{Form, SortId, SymId, Symbol, Term, instantiate};
use std::alloc::Global;
use tptp_base::{Boxed, List, Memory};

/// For all arguments, the predicate holds exactly where the formula does.
pub fn naming_of(
    alloc: Global,
    number: SymId,
    symbol: &Symbol,
    form: &Form,
) -> Result<Boxed<Form>, Memory>
    requires { length symbol.now.args ≤ 2147483647 }
    ensures { IfOk result (λ whole. whole ≡ naming number symbol.now form.now) }
{
    let args = symbol.args.as_slice();
    let head = Form::Atom(number, arguments(alloc, args.len() as u32)?);
    let head = Boxed::new(alloc, head)?;
    let form = Boxed::new(alloc, form.copy(alloc)?)?;
    let body = Boxed::new(alloc, Form::Iff(head, form))?;
    closed_by(alloc, args, body)
}

/// For all arguments, if there is one for which the formula holds, then it holds for the value of the function.
pub fn choice_of(
    alloc: Global,
    number: SymId,
    symbol: &Symbol,
    form: &Form,
) -> Result<Boxed<Form>, Memory>
    requires few { length symbol.now.args ≤ 2147483647 }
    requires shallow { binder_depth form.now ≤ 2147483647 }
    ensures { IfOk result (λ whole. whole ≡ choice number symbol.now form.now) }
{
    let args = symbol.args.as_slice();
    let value = Term::App(number, arguments(alloc, args.len() as u32)?);
    let instance = Boxed::new(alloc, instantiate(alloc, form, &value)?)?;
    let form = Boxed::new(alloc, form.copy(alloc)?)?;
    let some = Boxed::new(alloc, Form::Ex(symbol.result, form))?;
    let body = Boxed::new(alloc, Form::Imp(some, instance))?;
    closed_by(alloc, args, body)
}

// The nearest so many variables, the outermost first.
fn arguments(alloc: Global, count: u32) -> Result<List<Term>, Memory>
    ensures { IfOk result (λ terms. terms ≡ variables count) }
{
    let mut terms = List::new(alloc);
    for i in 0..count {
        terms.push(Term::Var(count - 1 - i))?;
    }
    Ok(terms)
}

// The formula for all of these sorts, the first outermost.
fn closed_by(alloc: Global, sorts: &[SortId], body: Boxed<Form>) -> Result<Boxed<Form>, Memory>
    ensures { IfOk result (λ whole. whole ≡ for_all sorts.now body) }
{
    let mut whole = body;
    for i in 0..sorts.len() {
        let sort = sorts[sorts.len() - 1 - i];
        whole = Boxed::new(alloc, Form::All(sort, whole))?;
    }
    Ok(whole)
}
