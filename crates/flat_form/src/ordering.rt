//! The order in which variables occur first.
ghost use Rattle.std.specs.Prelude.{◌≡◌, ◌+◌, ◌<◌, ◌≤◌, ◌^◌, map, flat_map, length, OnOk, IfOk};
ghost use Rattle.std.specs.List.{All as Each};
ghost use Rattle.fof_terms.specs.Lift.{greatest};
ghost use Rattle.fof_terms.specs.Sorts.{binder_depth};
ghost use Rattle.fof_terms.specs.declared.term.Term.{Var};
ghost use Rattle.flat_form.specs.Flat.{met_all, order_of as order};
ghost use Rattle.flat_form.specs.Variables.{variables_of, variables_of_term};

use fof_terms::{Form, Term};
use indexmap::IndexSet;
use std::alloc::Global;
use tptp_base::Memory;

/// The variables below `count` that stand in the formula, in the order in which they occur first.
pub fn order_of(alloc: Global, count: u32, form: &Form) -> Result<IndexSet<u32>, Memory>
    requires { binder_depth form.now < 2 ^ 32 }
    ensures order { IfOk result (λ met. met.keys ≡ order count form.now) }
    ensures few { IfOk result (λ met. length met.keys ≤ count) }
    ensures below { IfOk result (λ met. Each (λ k. k < count) met.keys) }
{
    let mut met = IndexSet::new(alloc);
    meet(&mut met, count, form, 0)?;
    Ok(met)
}

// Adds the variables of a formula, so many binders within.
#[tactic(auto, using(crate::proofs::VariablesFacts::variables_of_equations))]
#[cycle(meet)]
fn meet(met: &mut IndexSet<u32>, count: u32, form: &Form, depth: u32) -> Result<(), Memory>
    requires { depth + binder_depth form.now < 2 ^ 32 }
    ensures { OnOk result (met.new.keys ≡ met_all count met.old.keys (variables_of depth form.now)) }
{
    match form {
        Form::Atom(_, args) => meet_terms(met, count, args.as_slice(), depth),
        Form::Eq(left, right) => {
            meet_term(met, count, left, depth)?;
            meet_term(met, count, right, depth)
        }
        Form::Not(body) => meet(met, count, body.get(), depth),
        Form::And(members) | Form::Or(members) => meet_all(met, count, members.as_slice(), depth),
        Form::Imp(left, right) | Form::Iff(left, right) => {
            meet(met, count, left.get(), depth)?;
            meet(met, count, right.get(), depth)
        }
        Form::All(_, body) | Form::Ex(_, body) => meet(met, count, body.get(), depth + 1),
    }
}

#[cycle(meet)]
fn meet_all(met: &mut IndexSet<u32>, count: u32, forms: &[Form], depth: u32) -> Result<(), Memory>
    requires { depth + greatest (map binder_depth forms.now) < 2 ^ 32 }
    ensures { OnOk result (met.new.keys ≡ met_all count met.old.keys (flat_map (variables_of depth) forms.now)) }
{
    for form in forms {
        meet(met, count, form, depth)?;
    }
    Ok(())
}

// Adds the variables of a term.
#[tactic(auto, using(crate::proofs::VariablesFacts::variables_of_equations))]
#[cycle(meet_term)]
fn meet_term(met: &mut IndexSet<u32>, count: u32, term: &Term, depth: u32) -> Result<(), Memory>
    ensures { OnOk result (met.new.keys ≡ met_all count met.old.keys (variables_of_term depth term.now)) }
{
    match term {
        Term::Var(distance) => meet_one(met, count, *distance, depth),
        Term::App(_, args) => meet_terms(met, count, args.as_slice(), depth),
    }
}

#[cycle(meet_term)]
fn meet_terms(met: &mut IndexSet<u32>, count: u32, terms: &[Term], depth: u32) -> Result<(), Memory>
    ensures { OnOk result (met.new.keys ≡ met_all count met.old.keys (flat_map (variables_of_term depth) terms.now)) }
{
    for term in terms {
        meet_term(met, count, term, depth)?;
    }
    Ok(())
}

// Adds a variable that is free and below `count`.
#[tactic(auto, using(crate::proofs::VariablesFacts::variables_of_equations))]
fn meet_one(met: &mut IndexSet<u32>, count: u32, distance: u32, depth: u32) -> Result<(), Memory>
    ensures { OnOk result (met.new.keys ≡ met_all count met.old.keys (variables_of_term depth (Var distance))) }
{
    if distance < depth {
        return Ok(());
    }
    let variable = distance - depth;
    if variable < count {
        met.insert(variable)?;
    }
    Ok(())
}
