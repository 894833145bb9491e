// The terms that a formula consists of.
ghost use Rattle.std.specs.Prelude.{◌≡◌, ◌+◌, ◌++◌, ◌∷◌, [], ◌<◌, ◌^◌, OnOk, map, flat_map};
ghost use Rattle.fof_terms.specs.Lift.{greatest};
ghost use Rattle.fof_terms.specs.Sorts.{binder_depth};
ghost use Rattle.skolem_fresh.specs.code.Leaves.{leaf, leaves_of};

use fof_terms::{Form, Term};
use std::alloc::Global;
use tptp_base::{List, Memory};

/// A term of a formula, and the number of quantifiers that it stands under.
#[derive(Drop)]
pub struct Leaf {
    pub depth: u32,
    pub term: Term,
}

// Adds the terms of the formula, which stands under so many quantifiers, from the left.
#[cycle(push_leaves)]
#[tactic(auto, using(crate::proofs::LeavesFacts::leaves_equations))]
pub(crate) fn push_leaves(
    alloc: Global,
    form: &Form,
    depth: u32,
    leaves: &mut List<Leaf>,
) -> Result<(), Memory>
    requires { depth + binder_depth form.now < 2 ^ 32 }
    ensures { OnOk result (leaves.new ≡ leaves.old ++ leaves_of depth form.now) }
{
    match form {
        Form::Atom(_, args) => push_terms(alloc, args.as_slice(), depth, leaves),
        Form::Eq(left, right) => {
            push_term(alloc, left, depth, leaves)?;
            push_term(alloc, right, depth, leaves)?;
            Ok(())
        }
        Form::Not(body) => push_leaves(alloc, body.get(), depth, leaves),
        Form::And(members) | Form::Or(members) => {
            push_all_leaves(alloc, members.as_slice(), depth, leaves)
        }
        Form::Imp(left, right) => {
            push_leaves(alloc, left.get(), depth, leaves)?;
            push_leaves(alloc, right.get(), depth, leaves)?;
            Ok(())
        }
        Form::Iff(left, right) => {
            push_leaves(alloc, left.get(), depth, leaves)?;
            push_leaves(alloc, right.get(), depth, leaves)?;
            Ok(())
        }
        Form::All(_, body) | Form::Ex(_, body) => {
            push_leaves(alloc, body.get(), depth + 1, leaves)
        }
    }
}

#[cycle(push_leaves)]
#[tactic(auto, using(crate::proofs::LeavesFacts::leaves_equations))]
fn push_all_leaves(
    alloc: Global,
    forms: &[Form],
    depth: u32,
    leaves: &mut List<Leaf>,
) -> Result<(), Memory>
    requires { depth + greatest (map binder_depth forms.now) < 2 ^ 32 }
    ensures { OnOk result (leaves.new ≡ leaves.old ++ flat_map (leaves_of depth) forms.now) }
{
    for form in forms {
        push_leaves(alloc, form, depth, leaves)?;
    }
    Ok(())
}

fn push_term(alloc: Global, term: &Term, depth: u32, leaves: &mut List<Leaf>) -> Result<(), Memory>
    ensures { OnOk result (leaves.new ≡ leaves.old ++ leaf depth term.now ∷ []) }
{
    let term = term.copy(alloc)?;
    leaves.push(Leaf { depth, term })?;
    Ok(())
}

fn push_terms(
    alloc: Global,
    terms: &[Term],
    depth: u32,
    leaves: &mut List<Leaf>,
) -> Result<(), Memory>
    ensures { OnOk result (leaves.new ≡ leaves.old ++ map (leaf depth) terms.now) }
{
    for term in terms {
        push_term(alloc, term, depth, leaves)?;
    }
    Ok(())
}
