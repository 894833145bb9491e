// The domains that formulas state.
ghost use Rattle.std.specs.Prelude.{◌≡◌, IfOk, map};
ghost use Rattle.std.specs.Option.{option_map};
ghost use Rattle.fi_model.specs.Sentences as spec;

use crate::distinct::is_distinct;
use crate::sentence::{Domain, Element};
use crate::terms::element;
use std::alloc::Global;
use tptp_base::{BoundVar, List, Memory, Quant, STerm, SortName, Surface};
use tptp_lexer::Word;

/// The domain that a formula states.
#[tactic(auto, using(crate::proofs::Layers::form_layers))]
pub fn domain(alloc: Global, form: &Surface) -> Result<Option<Domain<'_>>, Memory>
    ensures { IfOk result (λ found. found ≡ spec.domain form.now) }
{
    match form {
        Surface::Bind(quant, variables, body) => {
            bound(alloc, *quant, variables.as_slice(), body.get())
        }
        Surface::True
        | Surface::False
        | Surface::Atom(_, _)
        | Surface::Eq(_, _)
        | Surface::Neq(_, _)
        | Surface::Not(_)
        | Surface::And(_)
        | Surface::Or(_)
        | Surface::Binary(_, _, _) => Ok(None),
    }
}

// The domain that the body states of what is bound.
fn bound<'a>(
    alloc: Global,
    quant: Quant,
    variables: &'a [BoundVar],
    body: &'a Surface,
) -> Result<Option<Domain<'a>>, Memory>
    ensures { IfOk result (λ found. found ≡ spec.bound quant variables.now body.now) }
{
    match quant {
        Quant::All => match variables {
            [variable] => domain_of(alloc, variable, body),
            _ => Ok(None),
        },
        Quant::Ex => Ok(None),
    }
}

// The domain that the body states of the variable.
fn domain_of<'a>(
    alloc: Global,
    variable: &'a BoundVar,
    body: &'a Surface,
) -> Result<Option<Domain<'a>>, Memory>
    ensures { IfOk result (λ found. found ≡ spec.domain_of variable.now body.now) }
{
    let Some(sort) = bound_sort(&variable.sort) else {
        return Ok(None);
    };
    match choices(alloc, variable.name.as_slice(), body)? {
        Some(elements) => Ok(Some(Domain { sort, elements })),
        None => Ok(None),
    }
}

// The sort of a bound variable.
fn bound_sort(sort: &Option<SortName>) -> Option<Option<Word<'_>>>
    ensures { result ≡ spec.bound_sort sort.now }
{
    match sort {
        None => Some(None),
        Some(SortName::Individual) => Some(None),
        Some(SortName::Truth) => None,
        Some(SortName::Word(word)) => word_sort(word.as_slice()),
    }
}

// The sort of this name.
fn word_sort(word: &[u8]) -> Option<Option<Word<'_>>>
    ensures { result ≡ spec.word_sort word.now }
{
    if is_distinct(word) {
        None
    } else {
        Some(Some(Word::new(word)))
    }
}

// The elements that a formula leaves to the variable.
#[tactic(auto, using(crate::proofs::Layers::form_layers))]
fn choices<'a>(
    alloc: Global,
    name: &[u8],
    form: &'a Surface,
) -> Result<Option<List<Element<'a>>>, Memory>
    ensures { IfOk result (λ found. found ≡ spec.choices name.now form.now) }
{
    match form {
        Surface::Or(members) => all_choices(alloc, name, members.as_slice()),
        Surface::True
        | Surface::False
        | Surface::Atom(_, _)
        | Surface::Eq(_, _)
        | Surface::Neq(_, _)
        | Surface::Not(_)
        | Surface::And(_)
        | Surface::Binary(_, _, _)
        | Surface::Bind(_, _, _) => one_choice(alloc, name, form),
    }
}

// The element that a formula leaves to the variable, as a list.
fn one_choice<'a>(
    alloc: Global,
    name: &[u8],
    form: &'a Surface,
) -> Result<Option<List<Element<'a>>>, Memory>
    ensures { IfOk result (λ found. found ≡ option_map spec.alone (spec.choice name.now form.now)) }
{
    match choice(name, form) {
        Some(element) => {
            let mut elements = List::new(alloc);
            elements.push(element)?;
            Ok(Some(elements))
        }
        None => Ok(None),
    }
}

// The elements that formulas leave to the variable, where each leaves one.
fn all_choices<'a>(
    alloc: Global,
    name: &[u8],
    forms: &'a [Surface],
) -> Result<Option<List<Element<'a>>>, Memory>
    ensures { IfOk result (λ found. found ≡ spec.all_there (map (spec.choice name.now) forms.now)) }
{
    let mut found = List::from_vec(Vec::with_capacity(alloc, forms.len())?);
    for form in forms {
        match choice(name, form) {
            Some(element) => found.push(element)?,
            None => return Ok(None),
        }
    }
    Ok(Some(found))
}

// The element that an equation with the variable leaves to it.
#[tactic(auto, using(crate::proofs::Layers::form_layers))]
fn choice<'a>(name: &[u8], form: &'a Surface) -> Option<Element<'a>>
    ensures { result ≡ spec.choice name.now form.now }
{
    match form {
        Surface::Eq(left, right) => either_side(name, left, right),
        Surface::True
        | Surface::False
        | Surface::Atom(_, _)
        | Surface::Neq(_, _)
        | Surface::Not(_)
        | Surface::And(_)
        | Surface::Or(_)
        | Surface::Binary(_, _, _)
        | Surface::Bind(_, _, _) => None,
    }
}

// The side that is not the variable.
fn either_side<'a>(name: &[u8], left: &'a STerm, right: &'a STerm) -> Option<Element<'a>>
    ensures { result ≡ spec.either_side name.now left.now right.now }
{
    if is_variable(name, left) {
        element(right)
    } else if is_variable(name, right) {
        element(left)
    } else {
        None
    }
}

// Whether the term is the variable of this name.
#[tactic(auto, using(crate::proofs::Layers::term_layers))]
fn is_variable(name: &[u8], term: &STerm) -> bool
    ensures { result ≡ spec.is_variable name.now term.now }
{
    match term {
        STerm::Var(other) => other.as_slice() == name,
        STerm::App(_, _) => false,
    }
}
