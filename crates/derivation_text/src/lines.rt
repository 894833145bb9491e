// The lines of a derivation, as what they denote.
ghost use Rattle.std.specs.Prelude.{◌≡◌, All, IfOk, length, map};
ghost use Rattle.fof_terms.specs.Vocabulary.{Vocabulary};
ghost use Rattle.sort_check.specs.Sorting.{AreSorted, IsSentence};
ghost use Rattle.derivation_text.specs.Derivations as spec;

use fof_terms::Form;
use sort_check::Line;
use sqlite_items::Boxed;
use std::alloc::Global;
use tptp_base::{List, Memory, Name, Place, Role};

/// The names of lines.
pub fn names_of(alloc: Global, lines: &[Line]) -> Result<List<Name>, Memory>
    ensures { IfOk result (λ names. names ≡ spec.names_of lines.now) }
{
    let mut names = List::new(alloc);
    for line in lines {
        names.push(line.name.copy(alloc)?)?;
    }
    Ok(names)
}

/// The places of lines.
pub fn places_of(alloc: Global, lines: &[Line]) -> Result<List<Place>, Memory>
    ensures { IfOk result (λ places. places ≡ spec.places_of lines.now) }
{
    let mut places = List::new(alloc);
    for line in lines {
        places.push(line.place)?;
    }
    Ok(places)
}

/// What lines stand for.
pub fn forms_of(alloc: Global, lines: &[Line]) -> Result<List<Form>, Memory>
    ensures { IfOk result (λ forms. forms ≡ spec.denied_forms lines.now) }
{
    let mut forms = List::new(alloc);
    for line in lines {
        forms.push(form_of(alloc, line)?)?;
    }
    Ok(forms)
}

// What a line stands for.
fn form_of(alloc: Global, line: &Line) -> Result<Form, Memory>
    ensures { IfOk result (λ form. form ≡ spec.denied_form line.now) }
{
    let form = line.form.copy(alloc)?;
    match line.role {
        Role::Conjecture => Ok(Form::Not(Boxed::new(alloc, form)?)),
        Role::Axiom
        | Role::Hypothesis
        | Role::Definition
        | Role::Assumption
        | Role::Lemma
        | Role::Theorem
        | Role::Corollary
        | Role::NegatedConjecture
        | Role::Plain
        | Role::Typing
        | Role::FiDomain
        | Role::FiFunctors
        | Role::FiPredicates
        | Role::Unknown => Ok(form),
    }
}
