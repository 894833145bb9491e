// The variables of a clause, in the order in which they first appear.
ghost use Rattle.std.specs.Prelude.{◌≡◌, ◌≤◌, length, map, OnOk};
ghost use Rattle.std.specs.List.{list_any};
ghost use Rattle.std.specs.Str.{bytes_eq};
ghost use Rattle.sort_check.specs.code.Variables as spec;

use crate::scope::{Lent, Variable};
use tptp_base::{List, Memory, STerm, Surface};

/// The most variables of a clause.
const MAX_CLAUSE_VARIABLES: usize = 250;

/// Notes the variables of a formula, as long as there are at most 250.
#[cycle(variables_of)]
#[tactic(auto, using(crate::proofs::VariableEquations::variables_equations))]
pub fn note_variables<'a>(form: &'a Surface, found: &mut List<Variable<'a>>) -> Result<(), Memory>
    ensures value { OnOk result (found.new ≡ spec.variables_of form.now found.old) }
    ensures few { OnOk result (length found.old ≤ 250 → length found.new ≤ 250) }
{
    match form {
        Surface::True | Surface::False => Ok(()),
        Surface::Atom(_, args) => note_in_terms(args.as_slice(), found),
        Surface::Eq(left, right) | Surface::Neq(left, right) => {
            note_in_term(left, found)?;
            note_in_term(right, found)
        }
        Surface::Not(body) => note_variables(body.get(), found),
        Surface::And(members) | Surface::Or(members) => note_in_members(members.as_slice(), found),
        Surface::Binary(_, left, right) => {
            note_variables(left.get(), found)?;
            note_variables(right.get(), found)
        }
        Surface::Bind(_, _, body) => note_variables(body.get(), found),
    }
}

// Notes the variables of formulas.
#[cycle(variables_of)]
fn note_in_members<'a>(forms: &'a [Surface], found: &mut List<Variable<'a>>) -> Result<(), Memory>
    ensures value { OnOk result (found.new ≡ spec.in_turn (map spec.variables_of forms.now) found.old) }
    ensures few { OnOk result (length found.old ≤ 250 → length found.new ≤ 250) }
{
    for form in forms {
        note_variables(form, found)?;
    }
    Ok(())
}

// Notes the variables of a term.
#[cycle(variables_of_term)]
#[tactic(auto, using(crate::proofs::VariableEquations::variables_equations))]
fn note_in_term<'a>(term: &'a STerm, found: &mut List<Variable<'a>>) -> Result<(), Memory>
    ensures value { OnOk result (found.new ≡ spec.variables_of_term term.now found.old) }
    ensures few { OnOk result (length found.old ≤ 250 → length found.new ≤ 250) }
{
    match term {
        STerm::Var(name) => note(name.as_slice(), found),
        STerm::App(_, args) => note_in_terms(args.as_slice(), found),
    }
}

// Notes the variables of terms.
#[cycle(variables_of_term)]
fn note_in_terms<'a>(terms: &'a [STerm], found: &mut List<Variable<'a>>) -> Result<(), Memory>
    ensures value { OnOk result (found.new ≡ spec.in_turn (map spec.variables_of_term terms.now) found.old) }
    ensures few { OnOk result (length found.old ≤ 250 → length found.new ≤ 250) }
{
    for term in terms {
        note_in_term(term, found)?;
    }
    Ok(())
}

// Notes a variable, unless it is there or 250 are.
fn note<'a>(name: &'a [u8], found: &mut List<Variable<'a>>) -> Result<(), Memory>
    ensures value { OnOk result (found.new ≡ spec.noted name.now found.old) }
    ensures few { OnOk result (length found.old ≤ 250 → length found.new ≤ 250) }
{
    if is_noted(found.as_slice(), name) || found.len() == MAX_CLAUSE_VARIABLES {
        return Ok(());
    }
    let name = Lent::new(name);
    found.push(Variable { name, sort: 0 })?;
    Ok(())
}

// Whether a variable of that name is there.
fn is_noted(found: &[Variable<'_>], name: &[u8]) -> bool
    ensures { result ≡ list_any (λ x. bytes_eq x.name name.now) found.now }
{
    for variable in found {
        if variable.name.as_slice() == name {
            return true;
        }
    }
    false
}
