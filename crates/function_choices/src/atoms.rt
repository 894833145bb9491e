// The atoms of a formula.
ghost use Rattle.std.specs.Prelude.{◌≡◌, ◌+◌, ◌++◌, ◌∷◌, [], ◌<◌, ◌^◌, IfOk, OnOk, filter, flat_map, map};
ghost use Rattle.fof_terms.specs.Lift.{greatest};
ghost use Rattle.fof_terms.specs.Sorts.{binder_depth};
ghost use Rattle.clause_form.specs.declared.clause.AtomOf.TheVariants.{Pred, Eq as Equation};
ghost use Rattle.function_choices.specs.Atoms.{atoms_at, placed, stands_in as in_atom};
ghost use Rattle.function_choices.specs.declared.atoms.Placed.{Placed as Atomic};

use clause_form::AtomOf;
use fof_terms::{Form, SymId, Term, copy_terms, has_in_term, has_in_terms};
use std::alloc::Global;
use tptp_base::{List, Memory};

/// An atom of a formula, and the number of quantifiers that it stands under.
#[derive(Drop)]
pub struct Placed {
    pub depth: u32,
    pub atom: AtomOf,
}

// Adds the atoms of the formula, which stands under so many quantifiers, from the left.
#[cycle(push_atoms)]
#[tactic(auto, using(crate::proofs::AtomsFacts::atoms_equations))]
pub(crate) fn push_atoms(
    alloc: Global,
    form: &Form,
    depth: u32,
    atoms: &mut List<Placed>,
) -> Result<(), Memory>
    requires { depth + binder_depth form.now < 2 ^ 32 }
    ensures { OnOk result (atoms.new ≡ atoms.old ++ atoms_at depth form.now) }
{
    match form {
        Form::Atom(head, args) => push_predicate(alloc, *head, args.as_slice(), depth, atoms),
        Form::Eq(left, right) => push_equation(alloc, left, right, depth, atoms),
        Form::Not(body) => push_atoms(alloc, body.get(), depth, atoms),
        Form::And(members) | Form::Or(members) => {
            push_atoms_of_all(alloc, members.as_slice(), depth, atoms)
        }
        Form::Imp(left, right) => {
            push_atoms(alloc, left.get(), depth, atoms)?;
            push_atoms(alloc, right.get(), depth, atoms)?;
            Ok(())
        }
        Form::Iff(left, right) => {
            push_atoms(alloc, left.get(), depth, atoms)?;
            push_atoms(alloc, right.get(), depth, atoms)?;
            Ok(())
        }
        Form::All(_, body) | Form::Ex(_, body) => {
            push_atoms(alloc, body.get(), depth + 1, atoms)
        }
    }
}

#[cycle(push_atoms)]
#[tactic(auto, using(crate::proofs::AtomsFacts::atoms_equations))]
fn push_atoms_of_all(
    alloc: Global,
    forms: &[Form],
    depth: u32,
    atoms: &mut List<Placed>,
) -> Result<(), Memory>
    requires { depth + greatest (map binder_depth forms.now) < 2 ^ 32 }
    ensures { OnOk result (atoms.new ≡ atoms.old ++ flat_map (atoms_at depth) forms.now) }
{
    for form in forms {
        push_atoms(alloc, form, depth, atoms)?;
    }
    Ok(())
}

fn push_predicate(
    alloc: Global,
    head: SymId,
    args: &[Term],
    depth: u32,
    atoms: &mut List<Placed>,
) -> Result<(), Memory>
    ensures { OnOk result (atoms.new ≡ atoms.old ++ placed depth (Pred head args.now) ∷ []) }
{
    let args = copy_terms(alloc, args)?;
    let atom = AtomOf::Pred(head, args);
    atoms.push(Placed { depth, atom })?;
    Ok(())
}

fn push_equation(
    alloc: Global,
    left: &Term,
    right: &Term,
    depth: u32,
    atoms: &mut List<Placed>,
) -> Result<(), Memory>
    ensures { OnOk result (atoms.new ≡ atoms.old ++ placed depth (Equation left.now right.now) ∷ []) }
{
    let atom = AtomOf::Eq(left.copy(alloc)?, right.copy(alloc)?);
    atoms.push(Placed { depth, atom })?;
    Ok(())
}

// Those of the atoms in which the variable stands that has the number of the quantifiers around the atom.
pub(crate) fn with_variable(alloc: Global, atoms: &[Placed]) -> Result<List<Placed>, Memory>
    ensures { IfOk result (λ found. found ≡ filter (λ (p : Atomic). in_atom p.depth p.atom) atoms.now) }
{
    let mut found = List::new(alloc);
    for placed in atoms {
        if stands_in(placed) {
            let atom = placed.atom.copy(alloc)?;
            let depth = placed.depth;
            found.push(Placed { depth, atom })?;
        }
    }
    Ok(found)
}

// Whether that variable stands in the atom.
fn stands_in(placed: &Placed) -> bool
    ensures { result ≡ in_atom placed.now.depth placed.now.atom }
{
    match &placed.atom {
        AtomOf::Pred(_, args) => has_in_terms(placed.depth, args.as_slice()),
        AtomOf::Eq(left, right) => {
            has_in_term(placed.depth, left) || has_in_term(placed.depth, right)
        }
        AtomOf::True | AtomOf::False => false,
    }
}
