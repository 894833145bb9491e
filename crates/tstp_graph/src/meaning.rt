// What the parents that a source names mean.
ghost use Rattle.std.specs.Prelude.{◌≡◌, ◌&&◌, [], not, map, IfOk};
ghost use Rattle.tstp_graph.specs.declared.shape.Ref.TheVariants.{Given};
ghost use Rattle.tstp_graph.specs.Meaning;
ghost use Rattle.tstp_graph.specs.code.Meaning.{means_in, resolved};

use crate::cite::Cite;
use crate::refs::RefSet;
use crate::scope::Scope;
use crate::shape::Ref;
use std::alloc::Global;
use tptp_base::{List, Memory, Name};

/// The parents of a line, each once; or the name of the first that means nothing, where each must mean something.
pub fn resolve(
    alloc: Global,
    scope: &Scope,
    is_strict: bool,
    cites: &[Cite],
) -> Result<Result<List<Ref>, Name>, Memory>
    ensures { IfOk result (λ answer. answer ≡ resolved is_strict (means_in scope.now) [] cites.now) }
{
    let mut set = RefSet::new(alloc);
    for cite in cites {
        if is_missing(scope, is_strict, cite) {
            return Ok(Err(cite_name(cite).copy(alloc)?));
        }
        set = set.with_all(meaning(alloc, scope, cite)?.as_slice())?;
    }
    Ok(Ok(set.into_refs()))
}

// Whether a parent must mean something, and does not.
fn is_missing(scope: &Scope, is_strict: bool, cite: &Cite) -> bool
    ensures { result ≡ is_strict && not (Meaning.is_known (means_in scope.now) cite.now) }
{
    is_strict && !is_known(scope, cite)
}

// The name that a source has for a parent.
fn cite_name(cite: &Cite) -> &Name
    ensures { result.now ≡ Meaning.cite_name cite.now }
{
    match cite {
        Cite::Named(name) => name,
        Cite::Filed(name) => name,
    }
}

// Whether a parent means something, or is a type line.
fn is_known(scope: &Scope, cite: &Cite) -> bool
    ensures { result ≡ Meaning.is_known (means_in scope.now) cite.now }
{
    match cite {
        Cite::Named(name) => {
            is_some_place(scope.types.places(name))
                || is_some_place(scope.lines.places(name))
                || is_some_place(scope.given.places(name))
        }
        Cite::Filed(name) => is_some_place(scope.given.places(name)),
    }
}

// Whether there is a place.
fn is_some_place(places: &[u32]) -> bool
    ensures { result ≡ Meaning.is_some_place places.now }
{
    match places {
        [] => false,
        [_, ..] => true,
    }
}

// What a parent means.
fn meaning(alloc: Global, scope: &Scope, cite: &Cite) -> Result<List<Ref>, Memory>
    ensures { IfOk result (λ refs. refs ≡ Meaning.meaning (means_in scope.now) cite.now) }
{
    match cite {
        Cite::Named(name) => named_refs(
            alloc,
            scope.types.places(name),
            scope.lines.places(name),
            scope.given.places(name),
        ),
        Cite::Filed(name) => given_refs(alloc, scope.given.places(name)),
    }
}

// What is named: a type line gives nothing.
fn named_refs(
    alloc: Global,
    types: &[u32],
    lines: &[u32],
    given: &[u32],
) -> Result<List<Ref>, Memory>
    ensures { IfOk result (λ refs. refs ≡ Meaning.named_refs types.now lines.now given.now) }
{
    match types {
        [] => line_or_given(alloc, lines, given),
        [_, ..] => Ok(List::new(alloc)),
    }
}

// The line of the first place, or else all the given formulas.
fn line_or_given(alloc: Global, lines: &[u32], given: &[u32]) -> Result<List<Ref>, Memory>
    ensures { IfOk result (λ refs. refs ≡ Meaning.line_or_given lines.now given.now) }
{
    match lines {
        [] => given_refs(alloc, given),
        [line, ..] => Ok(List::from_slice(alloc, &[Ref::Line(*line)])?),
    }
}

// The given formulas of these numbers.
fn given_refs(alloc: Global, numbers: &[u32]) -> Result<List<Ref>, Memory>
    ensures { IfOk result (λ refs. refs ≡ map Given numbers.now) }
{
    let mut refs = List::new(alloc);
    for number in numbers {
        refs.push(Ref::Given(*number))?;
    }
    Ok(refs)
}
