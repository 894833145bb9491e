ghost use Rattle.std.specs.Prelude.{◌≡◌, ◌<◌, ◌≤◌, ◌^◌, ◌∷◌, [], ◌↔◌, IfOk, IsErrOf, map, flat_map, not, true};
ghost use Rattle.fof_terms.specs.Lift.{greatest};
ghost use Rattle.fof_terms.specs.declared.form.Form.{Form as Formula};
ghost use Rattle.fof_terms.specs.Sorts.{binder_depth};
ghost use Rattle.clause_form.specs.Norm.{norm_of, members_of, join as joined};
ghost use Rattle.clause_form.specs.Sizes.{norm_size_of};

use crate::fault::FormFault;
use crate::joining::{join_flat, push_members, quantified, signed};
use crate::sizes::norm_size;
use fof_terms::Form;
use std::alloc::Global;
use tptp_base::{List, Memory};

/// The greatest norm size of a formula that gets a normal form.
pub const MAX_NORM_SIZE: u128 = 100_000;

/// The normal form of the formula. Wide exactly where its norm size is over 100,000.
pub fn norm(alloc: Global, form: &Form) -> Result<Form, FormFault>
    ensures ok { IfOk result (λ made. made ≡ norm_of true form.now) }
    ensures wide { IsErrOf result FormFault.Wide ↔ (100000 < norm_size_of form.now) }
{
    if norm_size(form) > MAX_NORM_SIZE {
        return Err(FormFault::Wide);
    }
    match norm_signed(alloc, form, true) {
        Ok(made) => Ok(made),
        Err(_) => Err(FormFault::Memory),
    }
}

/// The normal form of the formula, or under minus of its negation.
#[cycle(norm_signed)]
#[tactic(auto, using(crate::proofs::NormFacts::norm_equations))]
pub fn norm_signed(alloc: Global, form: &Form, positive: bool) -> Result<Form, Memory>
    requires { binder_depth form.now < 2 ^ 32 }
    ensures { IfOk result (λ made. made ≡ norm_of positive form.now) }
{
    match form {
        Form::Atom(_, _) | Form::Eq(_, _) => signed(alloc, positive, form.copy(alloc)?),
        Form::Not(body) => norm_signed(alloc, body.get(), !positive),
        Form::And(members) => norm_joined(alloc, members.as_slice(), positive, positive),
        Form::Or(members) => norm_joined(alloc, members.as_slice(), positive, !positive),
        Form::Imp(left, right) => {
            let first = norm_signed(alloc, left.get(), !positive)?;
            let flat = first_member(alloc, !positive, first)?;
            let second = norm_signed(alloc, right.get(), positive)?;
            second_member(alloc, !positive, flat, second)
        }
        Form::Iff(left, right) => {
            let first = norm_signed(alloc, left.get(), !positive)?;
            let flat = first_member(alloc, !positive, first)?;
            let second = norm_signed(alloc, right.get(), positive)?;
            let forth = second_member(alloc, !positive, flat, second)?;
            let whole = first_member(alloc, positive, forth)?;
            let third = norm_signed(alloc, left.get(), positive)?;
            let flat = first_member(alloc, !positive, third)?;
            let fourth = norm_signed(alloc, right.get(), !positive)?;
            let back = second_member(alloc, !positive, flat, fourth)?;
            second_member(alloc, positive, whole, back)
        }
        Form::All(sort, body) => {
            let norm = norm_signed(alloc, body.get(), positive)?;
            quantified(alloc, positive, *sort, norm)
        }
        Form::Ex(sort, body) => {
            let norm = norm_signed(alloc, body.get(), positive)?;
            quantified(alloc, !positive, *sort, norm)
        }
    }
}

// The members of the first formula that is joined.
fn first_member(alloc: Global, kind: bool, form: Form) -> Result<List<Form>, Memory>
    ensures { IfOk result (λ flat. flat ≡ members_of kind form) }
{
    let mut flat = List::new(alloc);
    push_members(&mut flat, kind, form)?;
    Ok(flat)
}

// The joined node of two formulas, the first of which gave these members.
fn second_member(alloc: Global, kind: bool, flat: List<Form>, form: Form) -> Result<Form, Memory>
    ensures { IfOk result (λ made. (first : Formula) → flat ≡ members_of kind first
        → made ≡ joined kind (first ∷ form ∷ [])) }
{
    let mut flat = flat;
    push_members(&mut flat, kind, form)?;
    Ok(join_flat(alloc, kind, flat))
}

// The joined node of the normal forms of the formulas, or under minus of their negations.
#[cycle(norm_signed)]
fn norm_joined(alloc: Global, forms: &[Form], positive: bool, kind: bool) -> Result<Form, Memory>
    requires { greatest (map binder_depth forms.now) < 2 ^ 32 }
    ensures { IfOk result (λ made. made ≡ joined kind (map (norm_of positive) forms.now)) }
{
    let mut flat = List::new(alloc);
    for form in forms {
        push_members(&mut flat, kind, norm_signed(alloc, form, positive)?)?;
    }
    Ok(join_flat(alloc, kind, flat))
}
