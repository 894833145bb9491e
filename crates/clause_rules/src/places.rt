//! Places in literals: all of them, the term at one, and the literal with another term there.
ghost use Rattle.std.specs.Prelude.{◌≡◌, ◌<◌, ◌++◌, ◌∷◌, [], drop, length, map, option_copied, IfOk, OnOk};
ghost use Rattle.clause_rules.specs.Places.{args_of_atom, atom_with_args, lit_put_at, lit_term_at, put_at, sides_of};
ghost use Rattle.clause_rules.specs.PlaceSearch.{numbered, places_within, places_of};
ghost use Rattle.clause_rules.specs.code.PlaceSearch.{below, put_below};

use crate::position::Position;
use clause_form::{AtomOf, Lit};
use fof_terms::Term;
use std::alloc::Global;
use tptp_base::{List, Memory};

/// All places of the literal at which a term stands, in order.
pub fn places_of_lit(alloc: Global, lit: &Lit) -> Result<List<Position>, Memory>
    ensures { IfOk result (λ places. places ≡ places_of lit.now) }
{
    let mut places = List::new(alloc);
    let mut steps = List::new(alloc);
    match &lit.atom {
        AtomOf::Pred(_, args) => add_all(args.as_slice(), alloc, &mut steps, &mut places)?,
        AtomOf::Eq(left, right) => {
            add_at(left, alloc, 0, &mut steps, &mut places)?;
            add_at(right, alloc, 1, &mut steps, &mut places)?;
        }
        AtomOf::True | AtomOf::False => {}
    }
    Ok(places)
}

// Adds the places within the terms, which are numbered below these steps.
#[cycle(add_term)]
fn add_all(
    terms: &[Term],
    alloc: Global,
    steps: &mut List<usize>,
    places: &mut List<Position>,
) -> Result<(), Memory>
    ensures { OnOk result ((places.new ≡ places.old ++ numbered (map places_within terms.now) steps.old 0)
        × (steps.new ≡ steps.old)) }
{
    for at in 0..terms.len() {
        add_at(&terms[at], alloc, at, steps, places)?;
    }
    Ok(())
}

// Adds the places within the term, which has this number below the steps.
#[cycle(add_term)]
fn add_at(
    term: &Term,
    alloc: Global,
    at: usize,
    steps: &mut List<usize>,
    places: &mut List<Position>,
) -> Result<(), Memory>
    ensures { OnOk result ((places.new ≡ places.old ++ places_within term.now (steps.old ++ at ∷ []))
        × (steps.new ≡ steps.old)) }
{
    steps.push(at)?;
    add_term(term, alloc, steps, places)?;
    steps.pop();
    Ok(())
}

// Adds the place of the term, which stands at these steps, and those within it.
#[tactic(auto, using(crate::proofs::PlaceSearchFacts::place_equations))]
#[cycle(add_term)]
fn add_term(
    term: &Term,
    alloc: Global,
    steps: &mut List<usize>,
    places: &mut List<Position>,
) -> Result<(), Memory>
    ensures { OnOk result ((places.new ≡ places.old ++ places_within term.now steps.old) × (steps.new ≡ steps.old)) }
{
    places.push(Position::from_slice(alloc, steps.as_slice())?)?;
    match term {
        Term::Var(_) => Ok(()),
        Term::App(_, args) => add_all(args.as_slice(), alloc, steps, places),
    }
}

/// The term at a place of the literal, if one stands there.
pub fn term_in<'a>(lit: &'a Lit, place: &[usize]) -> Option<&'a Term>
    ensures { option_copied result ≡ lit_term_at place.now lit.now }
{
    if place.is_empty() {
        return None;
    }
    match &lit.atom {
        AtomOf::Pred(_, args) => match args.get(place[0]) {
            Some(term) => term_below(term, place, 1),
            None => None,
        },
        AtomOf::Eq(left, right) => match place[0] {
            0 => term_below(left, place, 1),
            1 => term_below(right, place, 1),
            _ => None,
        },
        AtomOf::True | AtomOf::False => None,
    }
}

// The term at the steps of the place from that number on, below a term.
fn term_below<'a>(term: &'a Term, place: &[usize], from: usize) -> Option<&'a Term>
    ensures { option_copied result ≡ below (drop from place.now) term.now }
{
    if from >= place.len() {
        return Some(term);
    }
    match term {
        Term::Var(_) => None,
        Term::App(_, args) => match args.get(place[from]) {
            Some(next) => term_below(next, place, from + 1),
            None => None,
        },
    }
}

/// The literal with another term at the place.
pub fn put_in(alloc: Global, lit: &Lit, place: &[usize], new: &Term) -> Result<Lit, Memory>
    ensures { IfOk result (λ made. made ≡ lit_put_at place.now new.now lit.now) }
{
    let atom = put_in_atom(alloc, &lit.atom, place, new)?;
    Ok(Lit {
        positive: lit.positive,
        atom,
    })
}

// The atom with another term at the place.
fn put_in_atom(alloc: Global, atom: &AtomOf, place: &[usize], new: &Term) -> Result<AtomOf, Memory>
    ensures { IfOk result (λ made. made ≡ atom_with_args atom.now (put_at place.now new.now (args_of_atom atom.now))) }
{
    match atom {
        AtomOf::Pred(symbol, args) => Ok(AtomOf::Pred(
            *symbol,
            put_in_terms(args.as_slice(), alloc, place, 0, new)?,
        )),
        AtomOf::Eq(left, right) => put_in_sides(alloc, left, right, place, new),
        AtomOf::True => Ok(AtomOf::True),
        AtomOf::False => Ok(AtomOf::False),
    }
}

// The equation with another term at the place.
fn put_in_sides(
    alloc: Global,
    left: &Term,
    right: &Term,
    place: &[usize],
    new: &Term,
) -> Result<AtomOf, Memory>
    ensures { IfOk result (λ made. made ≡ sides_of (put_at place.now new.now (left.now ∷ right.now ∷ []))) }
{
    if place.is_empty() {
        return Ok(AtomOf::Eq(left.copy(alloc)?, right.copy(alloc)?));
    }
    match place[0] {
        0 => Ok(AtomOf::Eq(put_in_term(left, alloc, place, 1, new)?, right.copy(alloc)?)),
        1 => Ok(AtomOf::Eq(left.copy(alloc)?, put_in_term(right, alloc, place, 1, new)?)),
        _ => Ok(AtomOf::Eq(left.copy(alloc)?, right.copy(alloc)?)),
    }
}

// The term with another one at the steps of the place from that number on.
#[cycle(put_in_term)]
fn put_in_term(
    term: &Term,
    alloc: Global,
    place: &[usize],
    from: usize,
    new: &Term,
) -> Result<Term, Memory>
    ensures { IfOk result (λ made. made ≡ put_below (drop from place.now) new.now term.now) }
{
    if from >= place.len() {
        return Ok(new.copy(alloc)?);
    }
    match term {
        Term::Var(variable) => Ok(Term::Var(*variable)),
        Term::App(function, args) => Ok(Term::App(
            *function,
            put_in_terms(args.as_slice(), alloc, place, from, new)?,
        )),
    }
}

// The terms with another one at the steps of the place from that number on.
#[cycle(put_in_term)]
fn put_in_terms(
    terms: &[Term],
    alloc: Global,
    place: &[usize],
    from: usize,
    new: &Term,
) -> Result<List<Term>, Memory>
    ensures { IfOk result (λ made. made ≡ put_at (drop from place.now) new.now terms.now) }
{
    let mut made = List::new(alloc);
    for at in 0..terms.len() {
        if from < place.len() && at == place[from] {
            made.push(put_in_term(&terms[at], alloc, place, from + 1, new)?)?;
        } else {
            made.push(terms[at].copy(alloc)?)?;
        }
    }
    Ok(made)
}
