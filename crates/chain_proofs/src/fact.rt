//! Clauses as facts.
ghost use Rattle.std.specs.Prelude.{◌≡◌, ◌<◌, length, slice_get, IfOk, Some};
ghost use Rattle.chain_proofs.specs.Facts.{all_false as all_are_false, denied_form as form_of_denial};

use clause_form::{Lit, form_of_lit};
use clause_proofs::negated;
use fof_terms::Form;
use std::alloc::Global;
use tptp_base::{List, Memory};

/// That not all of the literals are false, which is the formula of this number.
#[derive(Drop)]
pub struct Fact {
    pub number: u64,
    pub lits: List<Lit>,
}

/// That the literal is false.
pub fn denied_form(alloc: Global, lit: &Lit) -> Result<Form, Memory>
    ensures { IfOk result (λ form. form ≡ form_of_denial lit.now) }
{
    form_of_lit(alloc, &negated(alloc, lit)?)
}

/// That all of the literals are false.
pub fn all_false(alloc: Global, lits: &[Lit]) -> Result<Form, Memory>
    ensures { IfOk result (λ form. form ≡ all_are_false lits.now) }
{
    let mut forms = List::new(alloc);
    for lit in lits {
        forms.push(denied_form(alloc, lit)?)?;
    }
    Ok(Form::And(forms))
}

/// The fact at the place.
pub fn fact_at(facts: &[Fact], place: u64) -> &Fact
    requires { place < length facts.now }
    ensures { slice_get facts.now place ≡ Some result.now }
{
    &facts[place as usize]
}
