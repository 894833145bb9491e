// Whether a formula speaks only of some of the variables around it.
ghost use Rattle.std.specs.Prelude.{◌≡◌, ◌+◌, ◌<◌, ◌^◌, map};
ghost use Rattle.std.specs.List.{list_all};
ghost use Rattle.fof_terms.specs.Lift.{greatest};
ghost use Rattle.fof_terms.specs.Sorts.{binder_depth};
ghost use Rattle.fof_terms.specs.Standing.{is_listed as among};
ghost use Rattle.skolem_fresh.specs.code.Only.{only_in_term as only_term, only_has as only_of};

use fof_terms::{Form, Term};

// Whether the number is in the list.
pub(crate) fn is_among(numbers: &[u32], number: u32) -> bool
    ensures { result ≡ among numbers.now number }
{
    for other in numbers {
        if *other == number {
            return true;
        }
    }
    false
}

#[cycle(only_in_term)]
#[tactic(auto, using(crate::proofs::OnlyFacts::only_equations))]
fn only_in_term(variables: &[u32], term: &Term, depth: u32) -> bool
    ensures { result ≡ only_term variables.now depth term.now }
{
    match term {
        Term::Var(distance) if *distance < depth => true,
        Term::Var(distance) => is_among(variables, *distance - depth),
        Term::App(_, args) => only_in_terms(variables, args.as_slice(), depth),
    }
}

#[cycle(only_in_term)]
#[tactic(auto, using(crate::proofs::OnlyFacts::only_equations))]
fn only_in_terms(variables: &[u32], terms: &[Term], depth: u32) -> bool
    ensures { result ≡ list_all (only_term variables.now depth) terms.now }
{
    for term in terms {
        if !only_in_term(variables, term, depth) {
            return false;
        }
    }
    true
}

// Whether each variable that the formula has, under so many quantifiers, is one of these or that of a quantifier.
#[cycle(only_has)]
#[tactic(auto, using(crate::proofs::OnlyFacts::only_equations))]
pub(crate) fn only_has(variables: &[u32], form: &Form, depth: u32) -> bool
    requires { depth + binder_depth form.now < 2 ^ 32 }
    ensures { result ≡ only_of variables.now depth form.now }
{
    match form {
        Form::Atom(_, args) => only_in_terms(variables, args.as_slice(), depth),
        Form::Eq(left, right) => {
            only_in_term(variables, left, depth) && only_in_term(variables, right, depth)
        }
        Form::Not(body) => only_has(variables, body.get(), depth),
        Form::And(members) | Form::Or(members) => only_have(variables, members.as_slice(), depth),
        Form::Imp(left, right) | Form::Iff(left, right) => {
            only_has(variables, left.get(), depth) && only_has(variables, right.get(), depth)
        }
        Form::All(_, body) | Form::Ex(_, body) => only_has(variables, body.get(), depth + 1),
    }
}

#[cycle(only_has)]
#[tactic(auto, using(crate::proofs::OnlyFacts::only_equations))]
fn only_have(variables: &[u32], forms: &[Form], depth: u32) -> bool
    requires { depth + greatest (map binder_depth forms.now) < 2 ^ 32 }
    ensures { result ≡ list_all (only_of variables.now depth) forms.now }
{
    for form in forms {
        if !only_has(variables, form, depth) {
            return false;
        }
    }
    true
}
