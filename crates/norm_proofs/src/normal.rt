ghost use Rattle.std.specs.Prelude.{◌≡◌, ◌≤◌, ◌∷◌, [], false, true};
ghost use Rattle.clause_form.specs.Norm.{node as node_of, members_of, ends, norm_of};
ghost use Rattle.clause_form.specs.Sizes.{norm_size_of};
ghost use Rattle.fof_terms.specs.declared.form.Form.{Not};

use clause_form::{is_end, own_members};
use fof_terms::{Form, has_variable};

// Whether the formula is its own normal form.
#[cycle(is_normal)]
pub(crate) fn is_normal(form: &Form) -> bool
    requires { norm_size_of form.now ≤ 100000 }
    ensures { result ≡ true → norm_of true form.now ≡ form.now }
{
    match form {
        Form::Atom(_, _) => true,
        Form::Eq(_, _) => true,
        Form::Not(body) => is_plain(body.get()),
        Form::And(members) => are_normal(true, members.as_slice()),
        Form::Or(members) => are_normal(false, members.as_slice()),
        Form::Imp(_, _) => false,
        Form::Iff(_, _) => false,
        Form::All(_, body) => is_normal(body.get()) && has_variable(body.get(), 0),
        Form::Ex(_, body) => is_normal(body.get()) && has_variable(body.get(), 0),
    }
}

// Whether the formula is an atom or an equation.
fn is_plain(form: &Form) -> bool
    ensures { result ≡ true → norm_of false form.now ≡ Not form.now }
{
    match form {
        Form::Atom(_, _) => true,
        Form::Eq(_, _) => true,
        Form::Not(_)
        | Form::And(_)
        | Form::Or(_)
        | Form::Imp(_, _)
        | Form::Iff(_, _)
        | Form::All(_, _)
        | Form::Ex(_, _) => false,
    }
}

// Whether the conjunction of the formulas is its own normal form, or under minus the disjunction.
#[cycle(is_normal)]
fn are_normal(kind: bool, forms: &[Form]) -> bool
    requires { norm_size_of (node_of kind forms.now) ≤ 100000 }
    ensures { result ≡ true → norm_of true (node_of kind forms.now) ≡ node_of kind forms.now }
{
    for form in forms {
        if !stands(kind, form) {
            return false;
        }
        if !is_normal(form) {
            return false;
        }
    }
    forms.len() != 1
}

// Whether the formula stays a member of its own in a joined node of that kind, and doesn't end it.
fn stands(kind: bool, form: &Form) -> bool
    ensures alone { result ≡ true → members_of kind form.now ≡ form.now ∷ [] }
    ensures goes_on { result ≡ true → ends kind form.now ≡ false }
{
    match own_members(kind, form) {
        Some(_) => false,
        None => !is_end(kind, form),
    }
}
