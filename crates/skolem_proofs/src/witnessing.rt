// The walk through a normal form that puts functions in place of its existential variables, with a proof.
ghost use Rattle.std.specs.Prelude.{◌≡◌, ◌≤◌, ◌<◌, ◌+◌, ◌^◌, ℕ, List as Listed, [], IfOk, drop, length};
ghost use Rattle.fof_terms.specs.declared.form.Form.{Form as Formula, Ex};
ghost use Rattle.fof_terms.specs.Instance.{instance_of, instance_reach};
ghost use Rattle.fof_terms.specs.Vocabulary.{Vocabulary};
ghost use Rattle.kernel.specs.declared.proof.Proof.{Hyp, ImpI};
ghost use Rattle.skolem_fresh.specs.Uses.{value_of as value_in};
ghost use Rattle.skolem_proofs.specs.code.Witnessing.{MayGo, MayAllGo, IsGone, AreGone};

use crate::arms::{arm, conjunction, disjunction, for_each};
use crate::existentials::has_existential;
use derive_kit::{Part, hyp, imp_e, imp_i};
use fof_terms::{Form, SortId, instantiate};
use kernel::{Entry, Proof};
use skolem_fresh::{Use, chosen_part, rename, value_of};
use std::alloc::Global;
use tptp_base::{Boxed, List, Memory};

/// What a formula is with functions in place of its existential variables, and a proof that the formula implies it.
#[derive(Drop)]
pub struct Witnessed {
    pub(crate) form: Form,
    pub(crate) part: Part,
}

// What each of some formulas is with functions, and what the formula becomes as a member of a node.
#[derive(Drop)]
struct Members {
    forms: List<Form>,
    arms: List<Proof>,
}

// The formula with the functions in place of its existential variables, and a proof that it implies that: one without
// such variables is itself. As many functions are behind as there are entries, and those of the formula's functions are
// added. The formulas that all the entries add are numbered from `first` on.
#[cycle(witness)]
pub(crate) fn witness(
    alloc: Global,
    form: &Form,
    uses: &[Use],
    first: u64,
    entries: &mut List<Entry>,
) -> Result<Witnessed, Memory>
    requires { (v : Vocabulary) × (scope : Listed ℕ) × MayGo v scope form.now (drop (length entries.now) uses.now) }
    ensures { IfOk result (λ made. IsGone form.now uses.now first entries.old entries.new made) }
{
    if !has_existential(form) {
        return itself(alloc, form);
    }
    match form {
        Form::And(members) => {
            let members = members.as_slice();
            let made = witness_all(alloc, true, members, uses, first, entries)?;
            let Members { forms, arms } = made;
            let part = conjunction(alloc, members, arms)?;
            let form = Form::And(forms);
            Ok(Witnessed { form, part })
        }
        Form::Or(members) => {
            let members = members.as_slice();
            let made = witness_all(alloc, false, members, uses, first, entries)?;
            let Members { forms, arms } = made;
            let part = disjunction(alloc, members, forms.as_slice(), arms)?;
            let form = Form::Or(forms);
            Ok(Witnessed { form, part })
        }
        Form::All(sort, body) => {
            let body = body.get();
            let inner = witness(alloc, body, uses, first, entries)?;
            let part = for_each(alloc, *sort, body, inner.part)?;
            let form = Form::All(*sort, Boxed::new(alloc, inner.form)?);
            Ok(Witnessed { form, part })
        }
        Form::Ex(sort, body) => witness_some(alloc, *sort, body.get(), uses, first, entries),
        Form::Atom(_, _) => unreachable!(),
        Form::Eq(_, _) => unreachable!(),
        Form::Not(_) => unreachable!(),
        Form::Imp(_, _) => unreachable!(),
        Form::Iff(_, _) => unreachable!(),
    }
}

// The same of each member of a conjunction, or of a disjunction.
#[cycle(witness)]
fn witness_all(
    alloc: Global,
    conjunction: bool,
    forms: &[Form],
    uses: &[Use],
    first: u64,
    entries: &mut List<Entry>,
) -> Result<Members, Memory>
    requires { (v : Vocabulary) × (scope : Listed ℕ) × MayAllGo v scope forms.now (drop (length entries.now) uses.now) }
    ensures { IfOk result (λ made.
        AreGone conjunction forms.now uses.now first entries.old entries.new made.forms made.arms) }
{
    let mut made = List::new(alloc);
    let mut arms = List::new(alloc);
    for number in 0..forms.len() {
        let one = witness(alloc, &forms[number], uses, first, entries)?;
        made.push(one.form)?;
        let arm = arm(alloc, conjunction, number as u32, one.part)?;
        arms.push(arm.into_inner())?;
    }
    Ok(Members { forms: made, arms })
}

// The same of an existential formula over the body, by the next function.
#[cycle(witness)]
fn witness_some(
    alloc: Global,
    sort: SortId,
    body: &Form,
    uses: &[Use],
    first: u64,
    entries: &mut List<Entry>,
) -> Result<Witnessed, Memory>
    requires { (v : Vocabulary) × (scope : Listed ℕ)
        × MayGo v scope (Ex sort body.now) (drop (length entries.now) uses.now) }
    ensures { IfOk result (λ made. IsGone (Ex sort body.now) uses.now first entries.old entries.new made) }
{
    let at = entries.len();
    prove!(at < uses.len());
    let chosen = &uses[at];
    let Some(number) = first.checked_add(at as u64) else {
        // A limit of the type of numbers, which no memory reaches.
        return Err(Memory);
    };
    let step = chosen_part(alloc, chosen, number, hyp(alloc, 0)?)?;
    let told = rename(alloc, chosen.variables.as_slice(), body, 1)?;
    entries.push(Entry::Choice(chosen.function, told))?;
    let next = next_of(alloc, body, chosen)?;
    let inner = witness(alloc, next.get(), uses, first, entries)?;
    let whole = imp_e(alloc, inner.part, step)?;
    let left = Form::Ex(sort, Boxed::new(alloc, body.copy(alloc)?)?);
    Ok(Witnessed {
        form: inner.form,
        part: imp_i(alloc, left, whole)?,
    })
}

// A formula that has no existential variables.
fn itself(alloc: Global, form: &Form) -> Result<Witnessed, Memory>
    ensures form { IfOk result (λ made. made.form ≡ form.now) }
    ensures part { IfOk result (λ made. made.part ≡ ImpI form.now (Hyp 0)) }
{
    let own = hyp(alloc, 0)?;
    Ok(Witnessed {
        form: form.copy(alloc)?,
        part: imp_i(alloc, form.copy(alloc)?, own)?,
    })
}

// What stands under the quantifier, with the value of the function in place of its variable.
fn next_of(alloc: Global, body: &Form, chosen: &Use) -> Result<Boxed<Form>, Memory>
    requires { instance_reach (value_in chosen.now) 0 body.now < 2 ^ 32 }
    ensures { IfOk result (λ next. next ≡ instance_of body.now (value_in chosen.now)) }
{
    let value = value_of(alloc, chosen)?;
    Ok(Boxed::new(alloc, instantiate(alloc, body, &value)?)?)
}
