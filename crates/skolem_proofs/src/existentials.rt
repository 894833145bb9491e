// Whether a formula has existential quantifiers.
ghost use Rattle.std.specs.Prelude.{◌≡◌};
ghost use Rattle.std.specs.List.{list_any};
ghost use Rattle.skolem_proofs.specs.code.Existentials.{has_existential as has};

use fof_terms::Form;

// Whether an existential quantifier stands in the formula, a normal form.
#[cycle(has_existential)]
#[tactic(auto, using(crate::proofs::ExistentialFacts::existential_equations))]
pub(crate) fn has_existential(form: &Form) -> bool
    ensures { result ≡ has form.now }
{
    match form {
        Form::And(members) | Form::Or(members) => one_has(members.as_slice()),
        Form::All(_, body) => has_existential(body.get()),
        Form::Ex(_, _) => true,
        Form::Atom(_, _) | Form::Eq(_, _) | Form::Not(_) | Form::Imp(_, _) | Form::Iff(_, _) =>
            false,
    }
}

// Whether one stands in one of the formulas.
#[cycle(has_existential)]
#[tactic(auto, using(crate::proofs::ExistentialFacts::existential_equations))]
fn one_has(forms: &[Form]) -> bool
    ensures { result ≡ list_any has forms.now }
{
    for form in forms {
        if has_existential(form) {
            return true;
        }
    }
    false
}
