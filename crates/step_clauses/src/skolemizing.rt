// A normal form with new functions in place of its existential variables.
ghost use Rattle.std.specs.Prelude.{◌≡◌, ◌+◌, ◌<◌, ◌^◌, IfOk, OnOk, map, sum};
ghost use Rattle.fof_terms.specs.Lift.{greatest, lifted_term};
ghost use Rattle.fof_terms.specs.Sorts.{binder_depth};
ghost use Rattle.clause_form.specs.Clauses.{skolem_made, skolemized, in_turn, variables as variables_of};
ghost use Rattle.clause_form.specs.Images.{image as image_of};
ghost use Rattle.step_clauses.specs.Existentials.{ex_count};
ghost use Rattle.step_clauses.specs.code.Bound.{count_in, terms_in};
ghost use Rattle.step_clauses.specs.code.Counts.{some_count};

use fof_terms::{Form, SymId, Term};
use std::alloc::Global;
use tptp_base::{Boxed, List, Memory};

// The quantifiers around a place, the nearest first: what stands for their variables.
#[derive(Clone, Copy)]
pub(crate) enum Bound<'a> {
    /// None.
    Outside,
    /// A universal one, whose variable stands for itself.
    Universal(&'a Bound<'a>),
    /// An existential one. For its variable this function stands, at all universal variables further out.
    Existential(SymId, &'a Bound<'a>),
}

/// The closed formula with each existential quantifier, from the left, replaced by a new function of all universal
/// variables around it. The first has the number `next`.
pub fn skolemize(alloc: Global, form: &Form, next: SymId) -> Result<Form, Memory>
    requires numbers { next + ex_count form.now < 2 ^ 32 }
    requires depth { binder_depth form.now < 2 ^ 32 }
    ensures { IfOk result (λ made. made ≡ skolemized form.now next) }
{
    let mut number = next;
    skolemize_in(alloc, form, &Bound::Outside, &mut number)
}

// The same of a formula within these quantifiers.
#[cycle(skolemize_in)]
#[tactic(auto, using(crate::proofs::SkolemizingFacts::skolemize_equations))]
fn skolemize_in(
    alloc: Global,
    form: &Form,
    bound: &Bound<'_>,
    next: &mut SymId,
) -> Result<Form, Memory>
    requires numbers { next.now + some_count form.now < 2 ^ 32 }
    requires depth { count_in bound.now + binder_depth form.now < 2 ^ 32 }
    ensures next { OnOk result (next.new ≡ next.old + some_count form.now) }
    ensures made { IfOk result (λ made.
        made ≡ (skolem_made form.now next.old (count_in bound.now) (terms_in bound.now)).0) }
{
    match form {
        Form::Atom(symbol, args) => Ok(Form::Atom(
            *symbol,
            image_of_all(alloc, args.as_slice(), bound)?,
        )),
        Form::Eq(left, right) => Ok(Form::Eq(
            image(alloc, left, bound)?,
            image(alloc, right, bound)?,
        )),
        Form::Not(body) => Ok(Form::Not(skolemize_box(alloc, body.get(), bound, next)?)),
        Form::And(members) => Ok(Form::And(skolemize_all(alloc, members.as_slice(), bound, next)?)),
        Form::Or(members) => Ok(Form::Or(skolemize_all(alloc, members.as_slice(), bound, next)?)),
        Form::Imp(left, right) => {
            let first = skolemize_box(alloc, left.get(), bound, next)?;
            Ok(Form::Imp(first, skolemize_box(alloc, right.get(), bound, next)?))
        }
        Form::Iff(left, right) => {
            let first = skolemize_box(alloc, left.get(), bound, next)?;
            Ok(Form::Iff(first, skolemize_box(alloc, right.get(), bound, next)?))
        }
        Form::All(sort, body) => {
            let under = Bound::Universal(&*bound);
            Ok(Form::All(*sort, skolemize_box(alloc, body.get(), &under, next)?))
        }
        Form::Ex(_, body) => {
            let under = Bound::Existential(*next, &*bound);
            *next += 1;
            skolemize_in(alloc, body.get(), &under, next)
        }
    }
}

#[cycle(skolemize_in)]
#[tactic(auto, using(crate::proofs::SkolemizingFacts::skolemize_equations))]
fn skolemize_box(
    alloc: Global,
    form: &Form,
    bound: &Bound<'_>,
    next: &mut SymId,
) -> Result<Boxed<Form>, Memory>
    requires numbers { next.now + some_count form.now < 2 ^ 32 }
    requires depth { count_in bound.now + binder_depth form.now < 2 ^ 32 }
    ensures next { OnOk result (next.new ≡ next.old + some_count form.now) }
    ensures made { IfOk result (λ made.
        made ≡ (skolem_made form.now next.old (count_in bound.now) (terms_in bound.now)).0) }
{
    Ok(Boxed::new(alloc, skolemize_in(alloc, form, bound, next)?)?)
}

// The same of each of the formulas.
#[cycle(skolemize_in)]
#[tactic(auto, using(crate::proofs::SkolemizingFacts::skolemize_equations))]
fn skolemize_all(
    alloc: Global,
    forms: &[Form],
    bound: &Bound<'_>,
    next: &mut SymId,
) -> Result<List<Form>, Memory>
    requires numbers { next.now + sum (map some_count forms.now) < 2 ^ 32 }
    requires depth { count_in bound.now + greatest (map binder_depth forms.now) < 2 ^ 32 }
    ensures next { OnOk result (next.new ≡ next.old + sum (map some_count forms.now)) }
    ensures made { IfOk result (λ made. made
        ≡ (in_turn (map skolem_made forms.now) next.old (count_in bound.now) (terms_in bound.now)).0) }
{
    let mut made = List::new(alloc);
    for form in forms {
        made.push(skolemize_in(alloc, form, bound, next)?)?;
    }
    Ok(made)
}

// The term with what stands for its variables.
#[cycle(image)]
#[tactic(auto, using(crate::proofs::SkolemizingFacts::image_equations))]
fn image(alloc: Global, term: &Term, bound: &Bound<'_>) -> Result<Term, Memory>
    requires { count_in bound.now < 2 ^ 32 }
    ensures { IfOk result (λ made. made ≡ image_of (terms_in bound.now) term.now) }
{
    match term {
        Term::Var(distance) => term_at(alloc, bound, *distance, 0),
        Term::App(symbol, args) => Ok(Term::App(
            *symbol,
            image_of_all(alloc, args.as_slice(), bound)?,
        )),
    }
}

#[cycle(image)]
#[tactic(auto, using(crate::proofs::SkolemizingFacts::image_equations))]
fn image_of_all(alloc: Global, terms: &[Term], bound: &Bound<'_>) -> Result<List<Term>, Memory>
    requires { count_in bound.now < 2 ^ 32 }
    ensures { IfOk result (λ made. made ≡ map (image_of (terms_in bound.now)) terms.now) }
{
    let mut made = List::new(alloc);
    for term in terms {
        made.push(image(alloc, term, bound)?)?;
    }
    Ok(made)
}

// What stands for the variable that far out, under so many further universal quantifiers.
#[tactic(auto, using(crate::proofs::SkolemizingFacts::held_equations))]
fn term_at(alloc: Global, bound: &Bound<'_>, distance: u32, further: u32) -> Result<Term, Memory>
    requires distance { distance + further < 2 ^ 32 }
    requires count { count_in bound.now + further < 2 ^ 32 }
    ensures { IfOk result (λ made. made ≡ lifted_term further 0 (terms_in bound.now distance)) }
{
    match bound {
        Bound::Outside => Ok(Term::Var(distance + further)),
        Bound::Universal(outer) => {
            if distance == 0 {
                Ok(Term::Var(further))
            } else {
                term_at(alloc, outer, distance - 1, further + 1)
            }
        }
        Bound::Existential(symbol, outer) => {
            if distance == 0 {
                let args = variables(alloc, universals(outer), further)?;
                Ok(Term::App(*symbol, args))
            } else {
                term_at(alloc, outer, distance - 1, further)
            }
        }
    }
}

// How many of the quantifiers are universal.
#[tactic(auto, using(crate::proofs::SkolemizingFacts::held_equations))]
fn universals(bound: &Bound<'_>) -> u32
    requires { count_in bound.now < 2 ^ 32 }
    ensures { result ≡ count_in bound.now }
{
    match bound {
        Bound::Outside => 0,
        Bound::Universal(outer) => universals(outer) + 1,
        Bound::Existential(_, outer) => universals(outer),
    }
}

// So many of the nearest variables, the outermost first, under so many further quantifiers.
fn variables(alloc: Global, count: u32, further: u32) -> Result<List<Term>, Memory>
    requires { count + further < 2 ^ 32 }
    ensures { IfOk result (λ made. made ≡ map (lifted_term further 0) (variables_of count)) }
{
    let mut made = List::new(alloc);
    let mut left = count;
    while left > 0 {
        left -= 1;
        made.push(Term::Var(left + further))?;
    }
    Ok(made)
}
