// Terms in place of several variables at once, in one copy of the formula.
ghost use Rattle.std.specs.Prelude.{◌≡◌, ◌+◌, ◌<◌, ◌^◌, map, reverse, IfOk};
ghost use Rattle.std.specs.List.{All as Each};
ghost use Rattle.fof_terms.specs.declared.form.Form.{Atom, Eq, Not, And, Or, Imp, Iff, All, Ex};
ghost use Rattle.fof_terms.specs.declared.term.Term.{Var};
ghost use Rattle.fof_terms.specs.Lift.{greatest};
ghost use Rattle.fof_terms.specs.Sorts.{binder_depth};
ghost use Rattle.proof_check.specs.code.JointInstance.{joint_instance_term, joint_instance_at, IsMovable};

use fof_terms::{Form, SortId, SymId, Term, lift_term};
use std::alloc::Global;
use tptp_base::{Boxed, List, Memory};

/// The formula with the terms in place of the variables from `depth` on, the last term for the nearest, and the greater
/// variables moved in.
#[tactic(auto, using(crate::proofs::JointFacts::joint_equations, fof_terms::proofs::SortsFacts::binder_depth_equations))]
#[inline(never)]
#[cycle(joint_instance)]
pub fn joint_instance(
    alloc: Global,
    form: &Form,
    terms: &[Term],
    depth: u32,
) -> Result<Boxed<Form>, Memory>
    requires movable { Each IsMovable terms.now }
    requires shallow { depth + binder_depth form.now < 2 ^ 31 }
    ensures { IfOk result (λ instance. instance ≡ joint_instance_at (reverse terms.now) depth form.now) }
{
    match form {
        Form::Atom(symbol, args) => in_atom(alloc, *symbol, args.as_slice(), terms, depth),
        Form::Eq(left, right) => in_equation(alloc, left, right, terms, depth),
        Form::Not(body) => negation(alloc, joint_instance(alloc, body.get(), terms, depth)?),
        Form::And(members) => conjunction(alloc, in_all(alloc, members.as_slice(), terms, depth)?),
        Form::Or(members) => disjunction(alloc, in_all(alloc, members.as_slice(), terms, depth)?),
        Form::Imp(left, right) => {
            let left = joint_instance(alloc, left.get(), terms, depth)?;
            implication(
                alloc,
                left,
                joint_instance(alloc, right.get(), terms, depth)?,
            )
        }
        Form::Iff(left, right) => {
            let left = joint_instance(alloc, left.get(), terms, depth)?;
            equivalence(
                alloc,
                left,
                joint_instance(alloc, right.get(), terms, depth)?,
            )
        }
        Form::All(sort, body) => {
            universal(
                alloc,
                *sort,
                joint_instance(alloc, body.get(), terms, depth + 1)?,
            )
        }
        Form::Ex(sort, body) => {
            existential(
                alloc,
                *sort,
                joint_instance(alloc, body.get(), terms, depth + 1)?,
            )
        }
    }
}

#[tactic(auto, using(crate::proofs::JointFacts::joint_equations))]
#[inline(never)]
#[cycle(joint_instance)]
fn in_all(alloc: Global, forms: &[Form], terms: &[Term], depth: u32) -> Result<List<Form>, Memory>
    requires movable { Each IsMovable terms.now }
    requires shallow { depth + greatest (map binder_depth forms.now) < 2 ^ 31 }
    ensures { IfOk result (λ instances. instances ≡ map (joint_instance_at (reverse terms.now) depth) forms.now) }
{
    let mut instances = List::new(alloc);
    for form in forms {
        let instance = joint_instance(alloc, form, terms, depth)?;
        instances.push(instance.into_inner())?;
    }
    Ok(instances)
}

#[tactic(auto, using(crate::proofs::JointFacts::joint_equations))]
#[cycle(in_term)]
fn in_term(alloc: Global, term: &Term, terms: &[Term], depth: u32) -> Result<Term, Memory>
    requires movable { Each IsMovable terms.now }
    requires shallow { depth < 2 ^ 31 }
    ensures { IfOk result (λ instance. instance ≡ joint_instance_term (reverse terms.now) depth term.now) }
{
    match term {
        Term::Var(distance) => placed(alloc, *distance, terms, depth),
        Term::App(symbol, args) => Ok(Term::App(
            *symbol,
            in_terms(alloc, args.as_slice(), terms, depth)?,
        )),
    }
}

#[tactic(auto, using(crate::proofs::JointFacts::joint_equations))]
#[cycle(in_term)]
fn in_terms(alloc: Global, args: &[Term], terms: &[Term], depth: u32) -> Result<List<Term>, Memory>
    requires movable { Each IsMovable terms.now }
    requires shallow { depth < 2 ^ 31 }
    ensures { IfOk result (λ instances. instances ≡ map (joint_instance_term (reverse terms.now) depth) args.now) }
{
    let mut instances = List::new(alloc);
    for arg in args {
        instances.push(in_term(alloc, arg, terms, depth)?)?;
    }
    Ok(instances)
}

// The term in the variable's place, or the variable.
fn placed(alloc: Global, distance: u32, terms: &[Term], depth: u32) -> Result<Term, Memory>
    requires movable { Each IsMovable terms.now }
    requires shallow { depth < 2 ^ 31 }
    ensures { IfOk result (λ instance. instance ≡ joint_instance_term (reverse terms.now) depth (Var distance)) }
{
    if distance < depth {
        return Ok(Term::Var(distance));
    }
    let place = (distance - depth) as usize;
    if place < terms.len() {
        lift_term(alloc, &terms[terms.len() - 1 - place], depth, 0)
    } else {
        Ok(Term::Var(distance - terms.len() as u32))
    }
}

#[inline(never)]
fn in_atom(
    alloc: Global,
    symbol: SymId,
    args: &[Term],
    terms: &[Term],
    depth: u32,
) -> Result<Boxed<Form>, Memory>
    requires movable { Each IsMovable terms.now }
    requires shallow { depth < 2 ^ 31 }
    ensures { IfOk result (λ instance.
        instance ≡ Atom symbol (map (joint_instance_term (reverse terms.now) depth) args.now)) }
{
    let args = in_terms(alloc, args, terms, depth)?;
    Ok(Boxed::new(alloc, Form::Atom(symbol, args))?)
}

#[inline(never)]
fn in_equation(
    alloc: Global,
    left: &Term,
    right: &Term,
    terms: &[Term],
    depth: u32,
) -> Result<Boxed<Form>, Memory>
    requires movable { Each IsMovable terms.now }
    requires shallow { depth < 2 ^ 31 }
    ensures { IfOk result (λ instance. instance ≡
        Eq (joint_instance_term (reverse terms.now) depth left.now)
        (joint_instance_term (reverse terms.now) depth right.now)) }
{
    let left = in_term(alloc, left, terms, depth)?;
    let right = in_term(alloc, right, terms, depth)?;
    Ok(Boxed::new(alloc, Form::Eq(left, right))?)
}

#[inline(never)]
fn negation(alloc: Global, body: Boxed<Form>) -> Result<Boxed<Form>, Memory>
    ensures { IfOk result (λ whole. whole ≡ Not body) }
{
    Ok(Boxed::new(alloc, Form::Not(body))?)
}

#[inline(never)]
fn conjunction(alloc: Global, members: List<Form>) -> Result<Boxed<Form>, Memory>
    ensures { IfOk result (λ whole. whole ≡ And members) }
{
    Ok(Boxed::new(alloc, Form::And(members))?)
}

#[inline(never)]
fn disjunction(alloc: Global, members: List<Form>) -> Result<Boxed<Form>, Memory>
    ensures { IfOk result (λ whole. whole ≡ Or members) }
{
    Ok(Boxed::new(alloc, Form::Or(members))?)
}

#[inline(never)]
fn implication(alloc: Global, left: Boxed<Form>, right: Boxed<Form>) -> Result<Boxed<Form>, Memory>
    ensures { IfOk result (λ whole. whole ≡ Imp left right) }
{
    Ok(Boxed::new(alloc, Form::Imp(left, right))?)
}

#[inline(never)]
fn equivalence(alloc: Global, left: Boxed<Form>, right: Boxed<Form>) -> Result<Boxed<Form>, Memory>
    ensures { IfOk result (λ whole. whole ≡ Iff left right) }
{
    Ok(Boxed::new(alloc, Form::Iff(left, right))?)
}

#[inline(never)]
fn universal(alloc: Global, sort: SortId, body: Boxed<Form>) -> Result<Boxed<Form>, Memory>
    ensures { IfOk result (λ whole. whole ≡ All sort body) }
{
    Ok(Boxed::new(alloc, Form::All(sort, body))?)
}

#[inline(never)]
fn existential(alloc: Global, sort: SortId, body: Boxed<Form>) -> Result<Boxed<Form>, Memory>
    ensures { IfOk result (λ whole. whole ≡ Ex sort body) }
{
    Ok(Boxed::new(alloc, Form::Ex(sort, body))?)
}
