//! Whether a formula speaks of no variables but these.
ghost use Rattle.std.specs.Prelude.{◌≡◌, ◌+◌, ◌<◌, ◌^◌, map};
ghost use Rattle.std.specs.List.{list_all};
ghost use Rattle.fof_terms.specs.Lift.{greatest};
ghost use Rattle.fof_terms.specs.Sorts.{binder_depth};
ghost use Rattle.split_defs.specs.code.Renaming.{speaks, speaks_in_term};

use fof_terms::{Form, Term};
use indexmap::IndexSet;

/// Whether the free variables of the term are among these, so many binders within.
#[tactic(auto, using(crate::proofs::RenamingFacts::speaks_equations))]
#[cycle(term_speaks)]
pub fn term_speaks(names: &IndexSet<u32>, term: &Term, depth: u32) -> bool
    ensures { result ≡ speaks_in_term names.now.keys depth term.now }
{
    match term {
        Term::Var(distance) => *distance < depth || names.contains(&(*distance - depth)),
        Term::App(_, args) => terms_speak(names, args.as_slice(), depth),
    }
}

#[tactic(auto, using(crate::proofs::RenamingFacts::speaks_equations))]
#[cycle(term_speaks)]
fn terms_speak(names: &IndexSet<u32>, terms: &[Term], depth: u32) -> bool
    ensures { result ≡ list_all (speaks_in_term names.now.keys depth) terms.now }
{
    for term in terms {
        if !term_speaks(names, term, depth) {
            return false;
        }
    }
    true
}

/// Whether the free variables of the formula are among these, so many binders within.
#[tactic(auto, using(crate::proofs::RenamingFacts::speaks_equations))]
#[cycle(form_speaks)]
pub fn form_speaks(names: &IndexSet<u32>, form: &Form, depth: u32) -> bool
    requires { depth + binder_depth form.now < 2 ^ 32 }
    ensures { result ≡ speaks names.now.keys depth form.now }
{
    match form {
        Form::Atom(_, args) => terms_speak(names, args.as_slice(), depth),
        Form::Eq(left, right) => term_speaks(names, left, depth)
            && term_speaks(names, right, depth),
        Form::Not(body) => form_speaks(names, body.get(), depth),
        Form::And(members) | Form::Or(members) => forms_speak(names, members.as_slice(), depth),
        Form::Imp(left, right) | Form::Iff(left, right) => {
            form_speaks(names, left.get(), depth) && form_speaks(names, right.get(), depth)
        }
        Form::All(_, body) | Form::Ex(_, body) => form_speaks(names, body.get(), depth + 1),
    }
}

#[tactic(auto, using(crate::proofs::RenamingFacts::speaks_equations))]
#[cycle(form_speaks)]
fn forms_speak(names: &IndexSet<u32>, forms: &[Form], depth: u32) -> bool
    requires { depth + greatest (map binder_depth forms.now) < 2 ^ 32 }
    ensures { result ≡ list_all (speaks names.now.keys depth) forms.now }
{
    for form in forms {
        if !form_speaks(names, form, depth) {
            return false;
        }
    }
    true
}
