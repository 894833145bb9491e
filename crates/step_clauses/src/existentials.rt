// The existential quantifiers of a formula.
ghost use Rattle.std.specs.Prelude.{◌≡◌, ◌++◌, IfOk, OnOk, map};
ghost use Rattle.clause_form.specs.Clauses.{joined_lists};
ghost use Rattle.step_clauses.specs.Existentials.{existentials, existentials_within};

use fof_terms::{Form, SortId};
use std::alloc::Global;
use tptp_base::{List, Memory};

/// Where an existential quantifier stands, and its sort.
#[derive(Drop)]
pub struct Existential {
    /// The sorts of the universal quantifiers around it, the outermost first.
    pub around: List<SortId>,
    /// The sort of its variable.
    pub sort: SortId,
}

/// The existential quantifiers of the closed formula, from the left and an outer one before those inside it.
pub fn existentials_of(alloc: Global, form: &Form) -> Result<List<Existential>, Memory>
    ensures { IfOk result (λ found. found ≡ existentials form.now) }
{
    let mut around = List::new(alloc);
    let mut found = List::new(alloc);
    push_existentials(alloc, form, &mut around, &mut found)?;
    Ok(found)
}

// Adds those of a formula that stands under universal quantifiers over these sorts.
#[cycle(push_existentials)]
#[tactic(auto, using(crate::proofs::ExistentialsFacts::existential_equations))]
fn push_existentials(
    alloc: Global,
    form: &Form,
    around: &mut List<SortId>,
    found: &mut List<Existential>,
) -> Result<(), Memory>
    ensures around { OnOk result (around.new ≡ around.old) }
    ensures found { OnOk result (found.new ≡ found.old ++ existentials_within form.now around.old) }
{
    match form {
        Form::Atom(_, _) => Ok(()),
        Form::Eq(_, _) => Ok(()),
        Form::Not(body) => push_existentials(alloc, body.get(), around, found),
        Form::And(members) | Form::Or(members) => {
            push_of_all(alloc, members.as_slice(), around, found)
        }
        Form::Imp(left, right) => {
            push_existentials(alloc, left.get(), around, found)?;
            push_existentials(alloc, right.get(), around, found)
        }
        Form::Iff(left, right) => {
            push_existentials(alloc, left.get(), around, found)?;
            push_existentials(alloc, right.get(), around, found)
        }
        Form::All(sort, body) => {
            around.push(*sort)?;
            push_existentials(alloc, body.get(), around, found)?;
            around.pop();
            Ok(())
        }
        Form::Ex(sort, body) => {
            let copy = List::from_slice(alloc, around.as_slice())?;
            found.push(Existential {
                around: copy,
                sort: *sort,
            })?;
            push_existentials(alloc, body.get(), around, found)
        }
    }
}

// Adds those of each of the formulas.
#[cycle(push_existentials)]
#[tactic(auto, using(crate::proofs::ExistentialsFacts::existential_equations))]
fn push_of_all(
    alloc: Global,
    forms: &[Form],
    around: &mut List<SortId>,
    found: &mut List<Existential>,
) -> Result<(), Memory>
    ensures around { OnOk result (around.new ≡ around.old) }
    ensures found { OnOk result (found.new ≡ found.old
        ++ joined_lists (map (λ a. existentials_within a around.old) forms.now)) }
{
    for form in forms {
        push_existentials(alloc, form, around, found)?;
    }
    Ok(())
}
