ghost use Rattle.std.specs.Prelude.{◌≡◌, ◌^◌, ◌-◌, ◌+◌, min, map, sum};
ghost use Rattle.clause_form.specs.Sizes.{norm_size_of, clause_count_of, product};

use fof_terms::Form;

/// The greatest number of nodes that the normal form of the formula can have, up to the greatest value.
#[cycle(norm_size)]
#[tactic(auto, using(crate::proofs::SizesFacts::norm_size_of_equations))]
pub fn norm_size(form: &Form) -> u128
    ensures { result ≡ min (norm_size_of form.now) (2 ^ 128 - 1) }
{
    match form {
        Form::Atom(_, _) | Form::Eq(_, _) => 1,
        Form::Not(body) => norm_size(body.get()),
        Form::And(members) | Form::Or(members) => size_with_members(members.as_slice()),
        Form::Imp(left, right) => norm_size(left.get())
            .saturating_add(norm_size(right.get()))
            .saturating_add(1),
        Form::Iff(left, right) => {
            let sides = norm_size(left.get()).saturating_add(norm_size(right.get()));
            sides.saturating_add(sides).saturating_add(3)
        }
        Form::All(_, body) | Form::Ex(_, body) => norm_size(body.get()).saturating_add(1),
    }
}

// One more than the sizes of the members.
#[cycle(norm_size)]
fn size_with_members(members: &[Form]) -> u128
    ensures { result ≡ min (1 + sum (map norm_size_of members.now)) (2 ^ 128 - 1) }
{
    let mut total: u128 = 1;
    for member in members {
        total = total.saturating_add(norm_size(member));
    }
    total
}

/// The number of clauses of the formula, a normal form, up to the greatest value.
#[cycle(clause_count)]
#[tactic(auto, using(crate::proofs::SizesFacts::clause_count_of_equations))]
pub fn clause_count(form: &Form) -> u128
    ensures { result ≡ min (clause_count_of form.now) (2 ^ 128 - 1) }
{
    match form {
        Form::Atom(_, _) | Form::Eq(_, _) | Form::Not(_) | Form::Imp(_, _) | Form::Iff(_, _) => 1,
        Form::And(members) => count_of_all(members.as_slice()),
        Form::Or(members) => count_of_choices(members.as_slice()),
        Form::All(_, body) | Form::Ex(_, body) => clause_count(body.get()),
    }
}

// The clauses of all members.
#[cycle(clause_count)]
fn count_of_all(members: &[Form]) -> u128
    ensures { result ≡ min (sum (map clause_count_of members.now)) (2 ^ 128 - 1) }
{
    let mut total: u128 = 0;
    for member in members {
        total = total.saturating_add(clause_count(member));
    }
    total
}

// The choices of one clause of each member.
#[cycle(clause_count)]
fn count_of_choices(members: &[Form]) -> u128
    ensures { result ≡ min (product (map clause_count_of members.now)) (2 ^ 128 - 1) }
{
    let mut total: u128 = 1;
    for member in members {
        total = total.saturating_mul(clause_count(member));
    }
    total
}
