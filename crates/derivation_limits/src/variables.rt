// How many variables formulas bind.
ghost use Rattle.std.specs.Prelude.{◌≡◌, ◌^◌, ◌-◌, min, map, sum};
ghost use Rattle.fof_terms.specs.Sizes.{form_size};

use fof_terms::Form;

/// How many variables a formula of a text may bind.
pub const MAX_BOUND: u64 = 250;

/// How many variables the formula binds, up to the greatest value.
#[cycle(bound_count)]
#[tactic(auto, using(crate::proofs::VariablesFacts::variables_equations))]
pub fn bound_count(form: &Form) -> u64
    ensures { result ≡ min (form_size form.now).variables (2 ^ 64 - 1) }
{
    match form {
        Form::Atom(_, _) | Form::Eq(_, _) => 0,
        Form::Not(body) => bound_count(body.get()),
        Form::And(members) | Form::Or(members) => bound_in_all(members.as_slice()),
        Form::Imp(left, right) | Form::Iff(left, right) => {
            bound_count(left.get()).saturating_add(bound_count(right.get()))
        }
        Form::All(_, body) | Form::Ex(_, body) => bound_count(body.get()).saturating_add(1),
    }
}

#[cycle(bound_count)]
fn bound_in_all(members: &[Form]) -> u64
    ensures { result ≡ min (sum (map (λ a. (form_size a).variables) members.now)) (2 ^ 64 - 1) }
{
    let mut total: u64 = 0;
    for member in members {
        total = total.saturating_add(bound_count(member));
    }
    total
}
