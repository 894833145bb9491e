// The entries by which functions come in that choose, and the proof that they lead to.
ghost use Rattle.std.specs.Prelude.{◌≡◌, ◌<◌, ◌^◌, ℕ, List as Listed, IfOk, Some, map, slice_get};
ghost use Rattle.fof_terms.specs.declared.form.Form.{Form as Formula, Imp};
ghost use Rattle.fof_terms.specs.declared.term.Term.{Var};
ghost use Rattle.fof_terms.specs.Instance.{instance_at, instance_reach};
ghost use Rattle.fof_terms.specs.Sorts.{Sorted};
ghost use Rattle.fof_terms.specs.Vocabulary.{Vocabulary};
ghost use Rattle.derive_kit.specs.Instances.{IsInstance};
ghost use Rattle.kernel.specs.Proves.{Proves};
ghost use Rattle.kernel.specs.Statements.{Statements};
ghost use Rattle.skolem_fresh.specs.Uses.{value_of as value_in};
ghost use Rattle.skolem_fresh.specs.code.Told.{IsOpenable, IsLed, IsTellable, IsShown};

use crate::just::Use;
use crate::opening::{leading, value_of};
use crate::renaming::rename;
use derive_kit::{Part, all_i, ex_e, hyp, imp_e, imp_i, instance_of};
use fof_terms::{Form, Term, has_variable, instantiate};
use kernel::{Entry, Proof};
use std::alloc::Global;
use tptp_base::{Boxed, List, Memory};

// A proof of the line by what the functions choose, whose formulas stand in the theory from number `first` on. Adds
// their entries.
pub(crate) fn tell(
    alloc: Global,
    line: &Form,
    uses: &[Use],
    first: u64,
    entries: &mut List<Entry>,
) -> Result<Part, Memory>
    requires { (t : Statements) × (scope : Listed ℕ) × IsTellable t scope line.now uses.now }
    ensures { IfOk result (λ made. IsShown line.now uses.now first entries.old entries.new made) }
{
    match line {
        Form::All(sort, body) => {
            let part = tell(alloc, body.get(), uses, first, entries)?;
            all_i(alloc, *sort, part)
        }
        Form::Imp(left, right) => {
            let left = left.get();
            let right = right.get();
            let before = leading(left);
            let after = leading(right);
            let own = hyp(alloc, 0)?;
            let part = lead(
                alloc,
                left,
                right,
                uses,
                before - after,
                first,
                own,
                entries,
            )?;
            imp_i(alloc, left.copy(alloc)?, part)
        }
        _ => unreachable!(),
    }
}

// From the part that shows the formula to what it is when its first so many existential variables give way to the
// functions.
fn lead(
    alloc: Global,
    form: &Form,
    right: &Form,
    uses: &[Use],
    count: u32,
    first: u64,
    part: Part,
    entries: &mut List<Entry>,
) -> Result<Part, Memory>
    requires { (v : Vocabulary) × (scope : Listed ℕ) × IsOpenable v scope count uses.now form.now right.now }
    ensures { IfOk result (λ made. IsLed count uses.now form.now right.now first part entries.old entries.new made) }
{
    if count == 0 {
        return Ok(part);
    }
    let Form::Ex(_, body) = form else {
        unreachable!()
    };
    let body = body.get();
    if !has_variable(body, 0) {
        let next = Boxed::new(alloc, instantiate(alloc, body, &Term::Var(0))?)?;
        let own = hyp(alloc, 0)?;
        let part = ex_e(alloc, next.get().copy(alloc)?, part, own)?;
        return lead(
            alloc,
            next.get(),
            right,
            uses,
            count - 1,
            first,
            part,
            entries,
        );
    }
    let chosen = &uses[0];
    if first == u64::MAX {
        // A limit of the type of numbers, which no memory reaches.
        return Err(Memory);
    }
    let part = chosen_part(alloc, chosen, first, part)?;
    let told = rename(alloc, chosen.variables.as_slice(), body, 1)?;
    entries.push(Entry::Choice(chosen.function, told))?;
    let next = next_of(alloc, body, chosen)?;
    lead(
        alloc,
        next.get(),
        right,
        &uses[1..],
        count - 1,
        first + 1,
        part,
        entries,
    )
}

// What stands under the quantifier, with the value of the function in place of its variable.
fn next_of(alloc: Global, body: &Form, chosen: &Use) -> Result<Boxed<Form>, Memory>
    requires { instance_reach (value_in chosen.now) 0 body.now < 2 ^ 32 }
    ensures { IfOk result (λ next. next ≡ instance_at (value_in chosen.now) 0 body.now) }
{
    let value = value_of(alloc, chosen)?;
    Ok(Boxed::new(alloc, instantiate(alloc, body, &value)?)?)
}

/// The right side of an implication whose left side the part shows. The theory's formula of that number says it for all
/// arguments of a function, as an entry by which the function chooses adds it; it is taken at the function's variables.
pub fn chosen_part(alloc: Global, chosen: &Use, number: u64, part: Part) -> Result<Part, Memory>
    ensures { IfOk result (λ made. (t : Statements) (v : Listed ℕ) (h : Listed Formula) (a b c : Formula)
        → Sorted t.vocabulary v a → slice_get t.formulas number ≡ Some a
        → IsInstance t.vocabulary v a (map Var chosen.now.variables) (Imp b c) → Proves t v h part b
        → Proves t v h made c) }
{
    let mut terms = List::new(alloc);
    for variable in chosen.variables.as_slice() {
        terms.push(Term::Var(*variable))?;
    }
    let own = Boxed::new(alloc, Proof::Line(number))?;
    let instance = instance_of(alloc, own, terms)?;
    imp_e(alloc, instance, part)
}
