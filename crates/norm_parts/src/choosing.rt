//! What is chosen to show a line at once: the parent that is opened, terms for its variables, and the ways to its members.
//! No contract speaks of it, since each step is tried as it is taken.
use clause_form::Path;
use clause_rules::Just;
use fof_terms::{Form, Scope, Signature, Term, sort_of};
use std::alloc::Global;
use tptp_base::{List, Memory};

// A line of fewer parts is shown part by part.
const MANY: usize = 8;

/// What shows the parts, the number of the parent that is opened, and how many variables are in reach.
#[derive(Clone, Copy)]
pub(crate) struct Choice<'a> {
    pub justs: &'a [Just],
    pub source: usize,
    pub depth: usize,
}

/// A member of a conjunction, and the rest of a path from there on.
#[derive(Clone, Copy)]
pub(crate) struct Place<'a> {
    pub number: u32,
    pub rest: &'a Path,
}

/// The number of a parent to a member of whose conjunction a part goes, if there are many parts.
pub(crate) fn source_of(justs: &[Just]) -> Option<usize> {
    if justs.len() < MANY {
        return None;
    }
    for just in justs {
        if let Just::Cover {
            parent,
            path,
            subst: _,
        } = just
        {
            if place_on(path).is_some() {
                return Some(*parent);
            }
        }
    }
    None
}

/// The first member of a conjunction to which the path goes.
#[cycle(place_on)]
pub(crate) fn place_on(path: &Path) -> Option<Place<'_>> {
    match path {
        Path::Under(rest) => place_on(rest.get()),
        Path::Pick(number, rest) => Some(Place {
            number: *number,
            rest: rest.get(),
        }),
        Path::Leaf | Path::Each(_) => None,
    }
}

/// How many universal quantifiers stand outside.
#[cycle(quantifiers)]
pub(crate) fn quantifiers(form: &Form) -> usize {
    match form {
        Form::All(_, body) => quantifiers(body.get()).saturating_add(1),
        _ => 0,
    }
}

/// Terms for that many outermost variables of the parent that is opened.
pub(crate) fn outer_terms(
    alloc: Global,
    signature: &Signature,
    scope: &Scope<'_>,
    choice: Choice<'_>,
    members: &[Form],
    outer: usize,
) -> Result<List<Term>, Memory> {
    let mut terms = List::new(alloc);
    for at in 0..outer {
        terms.push(outer_term(alloc, signature, scope, choice, members, at)?)?;
    }
    Ok(terms)
}

// A term for that variable, which the members have in its place.
fn outer_term(
    alloc: Global,
    signature: &Signature,
    scope: &Scope<'_>,
    choice: Choice<'_>,
    members: &[Form],
    variable: usize,
) -> Result<Term, Memory> {
    for at in 0..members.len() {
        if let Some(just) = choice.justs.get(at) {
            if let Some(term) = image_in(just, &members[at], choice, variable) {
                if sort_of(term, signature, scope).is_some() {
                    return term.copy(alloc);
                }
            }
        }
    }
    Ok(Term::Var(0))
}

// The image of the outermost variable but so many, if the member speaks of no variables but those in reach.
fn image_in<'a>(
    just: &'a Just,
    member: &Form,
    choice: Choice<'_>,
    variable: usize,
) -> Option<&'a Term> {
    if let Form::All(_, _) = member {
        return None;
    }
    match just {
        Just::Cover {
            parent,
            path: _,
            subst,
        } => {
            if *parent != choice.source {
                return None;
            }
            let own = own_images(subst.images.as_slice(), choice.depth, 0);
            if variable < own.len() {
                Some(&own[own.len() - 1 - variable])
            } else {
                None
            }
        }
        _ => None,
    }
}

/// The images behind the first so many, and before the last so many.
pub(crate) fn own_images(images: &[Term], first: usize, last: usize) -> &[Term] {
    let end = images.len().saturating_sub(last);
    if first < end {
        &images[first..end]
    } else {
        &images[..0]
    }
}
