//! New numbers for the free variables of a formula. The nearest ones get those of a list, the last of which is that of
//! variable 0, and the others follow a number.
ghost use Rattle.std.specs.Prelude.{◌≡◌, ◌+◌, ◌<◌, ◌^◌, map, length, IfOk};
ghost use Rattle.std.specs.List.{All as Each};
ghost use Rattle.fof_terms.specs.Lift.{greatest, lift_reach, lift_term_reach};
ghost use Rattle.fof_terms.specs.Sorts.{binder_depth};
ghost use Rattle.fof_terms.specs.declared.term.Term.{Var};
ghost use Rattle.flat_form.specs.Renumbered.{renumbered, renumbered_term};
ghost use Rattle.flat_form.specs.Numbers.{listed, HasRoomAt};

use fof_terms::{Form, Term};
use std::alloc::Global;
use tptp_base::{Boxed, List, Memory};

// The new number of a variable.
#[tactic(auto, using(crate::proofs::RenumberedFacts::renumbered_equations, fof_terms::proofs::LiftFacts::lift_equations))]
fn new_number(near: &[u32], outside: u32, distance: u32, depth: u32) -> u32
    requires near { Each (λ n. n < 2147483648) near.now }
    requires room { HasRoomAt outside (length near.now) depth
        (lift_term_reach outside (length near.now + depth) (Var distance)) }
    ensures { Var result ≡ renumbered_term (listed near.now outside) depth (Var distance) }
{
    if distance < depth {
        return distance;
    }
    let free = (distance - depth) as usize;
    if free < near.len() {
        return near[near.len() - 1 - free] + depth;
    }
    distance - near.len() as u32 + outside
}

// The term with new numbers, so many binders within.
#[tactic(auto, using(crate::proofs::RenumberedFacts::renumbered_equations, fof_terms::proofs::LiftFacts::lift_equations))]
#[cycle(renumber_term)]
fn renumber_term(
    alloc: Global,
    near: &[u32],
    outside: u32,
    term: &Term,
    depth: u32,
) -> Result<Term, Memory>
    requires near { Each (λ n. n < 2147483648) near.now }
    requires room { HasRoomAt outside (length near.now) depth
        (lift_term_reach outside (length near.now + depth) term.now) }
    ensures { IfOk result (λ made. made ≡ renumbered_term (listed near.now outside) depth term.now) }
{
    match term {
        Term::Var(distance) => Ok(Term::Var(new_number(near, outside, *distance, depth))),
        Term::App(symbol, args) => Ok(Term::App(
            *symbol,
            renumber_terms(alloc, near, outside, args.as_slice(), depth)?,
        )),
    }
}

#[cycle(renumber_term)]
fn renumber_terms(
    alloc: Global,
    near: &[u32],
    outside: u32,
    terms: &[Term],
    depth: u32,
) -> Result<List<Term>, Memory>
    requires near { Each (λ n. n < 2147483648) near.now }
    requires room { HasRoomAt outside (length near.now) depth
        (greatest (map (lift_term_reach outside (length near.now + depth)) terms.now)) }
    ensures { IfOk result (λ made. made ≡ map (renumbered_term (listed near.now outside) depth) terms.now) }
{
    let mut made = List::new(alloc);
    for term in terms {
        made.push(renumber_term(alloc, near, outside, term, depth)?)?;
    }
    Ok(made)
}

/// The formula with new numbers, so many binders within.
#[tactic(auto, using(crate::proofs::RenumberedFacts::renumbered_equations))]
#[cycle(renumber)]
pub fn renumber(
    alloc: Global,
    near: &[u32],
    outside: u32,
    form: &Form,
    depth: u32,
) -> Result<Form, Memory>
    requires near { Each (λ n. n < 2147483648) near.now }
    requires room { HasRoomAt outside (length near.now) (depth + binder_depth form.now)
        (lift_reach outside (length near.now + depth) form.now) }
    ensures { IfOk result (λ made. made ≡ renumbered (listed near.now outside) depth form.now) }
{
    match form {
        Form::Atom(symbol, args) => Ok(Form::Atom(
            *symbol,
            renumber_terms(alloc, near, outside, args.as_slice(), depth)?,
        )),
        Form::Eq(left, right) => Ok(Form::Eq(
            renumber_term(alloc, near, outside, left, depth)?,
            renumber_term(alloc, near, outside, right, depth)?,
        )),
        Form::Not(body) => Ok(Form::Not(renumber_box(alloc, near, outside, body.get(), depth)?)),
        Form::And(members) => Ok(Form::And(renumber_all(
            alloc,
            near,
            outside,
            members.as_slice(),
            depth,
        )?)),
        Form::Or(members) => Ok(Form::Or(renumber_all(
            alloc,
            near,
            outside,
            members.as_slice(),
            depth,
        )?)),
        Form::Imp(left, right) => Ok(Form::Imp(
            renumber_box(alloc, near, outside, left.get(), depth)?,
            renumber_box(alloc, near, outside, right.get(), depth)?,
        )),
        Form::Iff(left, right) => Ok(Form::Iff(
            renumber_box(alloc, near, outside, left.get(), depth)?,
            renumber_box(alloc, near, outside, right.get(), depth)?,
        )),
        Form::All(sort, body) => Ok(Form::All(
            *sort,
            renumber_box(alloc, near, outside, body.get(), depth + 1)?,
        )),
        Form::Ex(sort, body) => Ok(Form::Ex(
            *sort,
            renumber_box(alloc, near, outside, body.get(), depth + 1)?,
        )),
    }
}

#[tactic(auto, using(crate::proofs::RenumberedFacts::renumbered_equations))]
#[cycle(renumber)]
fn renumber_box(
    alloc: Global,
    near: &[u32],
    outside: u32,
    form: &Form,
    depth: u32,
) -> Result<Boxed<Form>, Memory>
    requires near { Each (λ n. n < 2147483648) near.now }
    requires room { HasRoomAt outside (length near.now) (depth + binder_depth form.now)
        (lift_reach outside (length near.now + depth) form.now) }
    ensures { IfOk result (λ made. made ≡ renumbered (listed near.now outside) depth form.now) }
{
    Ok(Boxed::new(alloc, renumber(alloc, near, outside, form, depth)?)?)
}

#[tactic(auto, using(crate::proofs::RenumberedFacts::renumbered_equations))]
#[cycle(renumber)]
fn renumber_all(
    alloc: Global,
    near: &[u32],
    outside: u32,
    forms: &[Form],
    depth: u32,
) -> Result<List<Form>, Memory>
    requires near { Each (λ n. n < 2147483648) near.now }
    requires room { HasRoomAt outside (length near.now) (depth + greatest (map binder_depth forms.now))
        (greatest (map (lift_reach outside (length near.now + depth)) forms.now)) }
    ensures { IfOk result (λ made. made ≡ map (renumbered (listed near.now outside) depth) forms.now) }
{
    let mut made = List::new(alloc);
    for form in forms {
        made.push(renumber(alloc, near, outside, form, depth)?)?;
    }
    Ok(made)
}
