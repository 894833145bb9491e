ghost use Rattle.std.specs.Prelude.{◌≡◌, ◌+◌, ◌<◌, ◌^◌, map};
ghost use Rattle.std.specs.List.{list_any};
ghost use Rattle.fof_terms.specs.Lift.{greatest};
ghost use Rattle.fof_terms.specs.Sorts.{binder_depth};
ghost use Rattle.fof_terms.specs.Variables.{has_variable as has, has_in_term as stands_in};

use crate::form::Form;
use crate::term::Term;

/// Whether the variable stands in the term.
#[tactic(auto, using(crate::proofs::VariablesFacts::variable_equations))]
#[cycle(has_in_term)]
pub fn has_in_term(number: u32, term: &Term) -> bool
    ensures { result ≡ stands_in number term.now }
{
    match term {
        Term::Var(distance) => *distance == number,
        Term::App(_, args) => has_in_terms(number, args.as_slice()),
    }
}

/// Whether the variable stands in one of the terms.
#[tactic(auto, using(crate::proofs::VariablesFacts::variable_equations))]
#[cycle(has_in_term)]
pub fn has_in_terms(number: u32, terms: &[Term]) -> bool
    ensures { result ≡ list_any (stands_in number) terms.now }
{
    for term in terms {
        if has_in_term(number, term) {
            return true;
        }
    }
    false
}

/// Whether the variable stands in the formula.
#[tactic(auto, using(crate::proofs::VariablesFacts::variable_equations))]
#[cycle(has_variable)]
pub fn has_variable(form: &Form, number: u32) -> bool
    requires { number + binder_depth form.now < 2 ^ 32 }
    ensures { result ≡ has number form.now }
{
    match form {
        Form::Atom(_, args) => has_in_terms(number, args.as_slice()),
        Form::Eq(left, right) => has_in_term(number, left) || has_in_term(number, right),
        Form::Not(body) => has_variable(body.get(), number),
        Form::And(members) | Form::Or(members) => has_in_one(members.as_slice(), number),
        Form::Imp(left, right) | Form::Iff(left, right) => {
            has_variable(left.get(), number) || has_variable(right.get(), number)
        }
        Form::All(_, body) | Form::Ex(_, body) => has_variable(body.get(), number + 1),
    }
}

/// Whether the variable stands in one of the formulas.
#[tactic(auto, using(crate::proofs::VariablesFacts::variable_equations))]
#[cycle(has_variable)]
pub fn has_in_one(forms: &[Form], number: u32) -> bool
    requires { number + greatest (map binder_depth forms.now) < 2 ^ 32 }
    ensures { result ≡ list_any (has number) forms.now }
{
    for form in forms {
        if has_variable(form, number) {
            return true;
        }
    }
    false
}
