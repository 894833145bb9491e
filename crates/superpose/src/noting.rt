//! The variables that occur in instances, without making these.
ghost use Rattle.std.specs.Prelude.{◌≡◌, ◌≤◌, ◌<◌, ◌^◌, ◌++◌, remove, OnOk, length};
ghost use Rattle.unify_terms.specs.Substitution.{image_at};
ghost use Rattle.superpose.specs.code.Noted.{IsNoted, StaysWith, AllStayWith, InstanceStays, InstancesStay};
ghost use Rattle.superpose.specs.code.Noted.{AtomInstanceStays, LitInstancesStay};
ghost use Rattle.fof_terms.specs.declared.term.Term.{Var as Variable};

use crate::naming::place_of;
use clause_form::{AtomOf, Lit};
use fof_terms::Term;
use tptp_base::{List, Memory};

/// Notes the variables below `count` in the instances of the literals but the one, and of the rest, each once.
pub fn note_left(
    lits: &[Lit],
    at: usize,
    rest: &[Lit],
    images: &[Term],
    count: usize,
    noted: &mut List<u32>,
) -> Result<(), Memory>
    requires few { count ≤ 2 ^ 32 }
    requires at { at < length lits.now }
    ensures { OnOk result (IsNoted count noted.old noted.new
        (LitInstancesStay images.now (remove lits.now at ++ rest.now))) }
{
    note_lits(&lits[..at], images, count, noted)?;
    note_lits(&lits[at + 1..], images, count, noted)?;
    note_lits(rest, images, count, noted)
}

// Notes those in the instances of the literals.
fn note_lits(
    lits: &[Lit],
    images: &[Term],
    count: usize,
    noted: &mut List<u32>,
) -> Result<(), Memory>
    requires few { count ≤ 2 ^ 32 }
    ensures { OnOk result (IsNoted count noted.old noted.new (LitInstancesStay images.now lits.now)) }
{
    for lit in lits {
        note_atom(&lit.atom, images, count, noted)?;
    }
    Ok(())
}

// The same in the instance of an atom.
fn note_atom(
    atom: &AtomOf,
    images: &[Term],
    count: usize,
    noted: &mut List<u32>,
) -> Result<(), Memory>
    requires few { count ≤ 2 ^ 32 }
    ensures { OnOk result (IsNoted count noted.old noted.new (AtomInstanceStays images.now atom.now)) }
{
    match atom {
        AtomOf::Pred(_, args) => note_instances(args.as_slice(), images, count, noted),
        AtomOf::Eq(left, right) => {
            note_instance(left, images, count, noted)?;
            note_instance(right, images, count, noted)
        }
        AtomOf::True | AtomOf::False => Ok(()),
    }
}

// The same in the instance of a term.
#[cycle(note_instance)]
fn note_instance(
    term: &Term,
    images: &[Term],
    count: usize,
    noted: &mut List<u32>,
) -> Result<(), Memory>
    requires few { count ≤ 2 ^ 32 }
    ensures { OnOk result (IsNoted count noted.old noted.new (InstanceStays images.now term.now)) }
{
    match term {
        Term::Var(variable) => match images.get(*variable as usize) {
            Some(image) => note_term(image, count, noted),
            None => note(*variable, count, noted),
        },
        Term::App(_, args) => note_instances(args.as_slice(), images, count, noted),
    }
}

#[cycle(note_instance)]
fn note_instances(
    terms: &[Term],
    images: &[Term],
    count: usize,
    noted: &mut List<u32>,
) -> Result<(), Memory>
    requires few { count ≤ 2 ^ 32 }
    ensures { OnOk result (IsNoted count noted.old noted.new (InstancesStay images.now terms.now)) }
{
    for term in terms {
        note_instance(term, images, count, noted)?;
    }
    Ok(())
}

// The same in a term.
#[cycle(note_term)]
fn note_term(term: &Term, count: usize, noted: &mut List<u32>) -> Result<(), Memory>
    requires few { count ≤ 2 ^ 32 }
    ensures { OnOk result (IsNoted count noted.old noted.new (StaysWith term.now)) }
{
    match term {
        Term::Var(variable) => note(*variable, count, noted),
        Term::App(_, args) => note_terms(args.as_slice(), count, noted),
    }
}

#[cycle(note_term)]
fn note_terms(terms: &[Term], count: usize, noted: &mut List<u32>) -> Result<(), Memory>
    requires few { count ≤ 2 ^ 32 }
    ensures { OnOk result (IsNoted count noted.old noted.new (AllStayWith terms.now)) }
{
    for term in terms {
        note_term(term, count, noted)?;
    }
    Ok(())
}

// Notes the variable, unless it stands there or isn't below `count`.
fn note(variable: u32, count: usize, noted: &mut List<u32>) -> Result<(), Memory>
    requires few { count ≤ 2 ^ 32 }
    ensures { OnOk result (IsNoted count noted.old noted.new (λ s. s variable ≡ Variable variable)) }
{
    if variable as usize >= count || place_of(noted.as_slice(), variable).is_some() {
        return Ok(());
    }
    noted.push(variable)?;
    Ok(())
}
