// What terms denote.
ghost use Rattle.sort_check.specs.code.Outcomes.{Answers};
ghost use Rattle.sort_check.specs.Outcomes.{each};
ghost use Rattle.sort_check.specs.Sorting.{Extends};
ghost use Rattle.sort_check.specs.Denotation as spec;
ghost use Rattle.sort_check.specs.code.Denotation as spec_code;

use crate::fault::{SortRule, Stop};
use crate::heads::head;
use crate::names::Names;
use crate::room::with_room;
use crate::scope::Scope;
use crate::symbols::{argument_sort, is_argument, result_sort};
use fof_terms::{Kind, Signature, SortId, SymId, Term};
use std::alloc::Global;
use tptp_base::{List, STerm};

/// A term with its sort.
#[derive(Drop)]
pub struct Sorted {
    pub term: Term,
    pub sort: SortId,
}

/// What a term denotes at a place that asks for that sort.
#[cycle(term)]
#[tactic(auto, using(crate::proofs::Equations::term_equations))]
pub fn denote_term(
    term: &STerm,
    alloc: Global,
    declared: &Names,
    signature: &mut Signature,
    scope: &Scope<'_>,
    asked: Option<SortId>,
) -> Result<Sorted, Stop>
    ensures value { Answers
        (spec.denoted_term
        (spec_code.setting declared.now scope.now) scope.now.variables term.now asked
        signature.old) result signature.new }
    ensures keeps { Extends signature.old signature.new }
{
    match term {
        STerm::Var(name) => match scope.find(name.as_slice()) {
            Some((distance, sort)) => Ok(Sorted {
                term: Term::Var(distance),
                sort,
            }),
            None => Err(Stop::Rule(scope.outside())),
        },
        STerm::App(name, args) => {
            let function = head(
                alloc,
                declared,
                signature,
                scope,
                name.as_slice(),
                Kind::Function,
                args.as_slice(),
                asked,
            )?;
            let sort = result_sort(signature, function);
            let args = denote_arguments(
                args.as_slice(),
                alloc,
                declared,
                signature,
                scope,
                function,
            )?;
            Ok(Sorted {
                term: Term::App(function, args),
                sort,
            })
        }
    }
}

/// What the arguments of a symbol denote.
#[cycle(term)]
pub fn denote_arguments(
    terms: &[STerm],
    alloc: Global,
    declared: &Names,
    signature: &mut Signature,
    scope: &Scope<'_>,
    symbol: SymId,
) -> Result<List<Term>, Stop>
    ensures value { Answers
        (each (λ place t.
        spec.argument symbol place
        (spec.denoted_term
        (spec_code.setting declared.now
        scope.now) scope.now.variables t)) 0 terms.now signature.old) result signature.new }
    ensures keeps { Extends signature.old signature.new }
{
    let mut found = with_room(alloc, terms.len())?;
    for place in 0..terms.len() {
        found.push(denote_argument(
            &terms[place],
            alloc,
            declared,
            signature,
            scope,
            symbol,
            place,
        )?)?;
    }
    Ok(found)
}

// An argument: first its inside, then its sort.
#[cycle(term)]
fn denote_argument(
    term: &STerm,
    alloc: Global,
    declared: &Names,
    signature: &mut Signature,
    scope: &Scope<'_>,
    symbol: SymId,
    place: usize,
) -> Result<Term, Stop>
    ensures value { Answers
        (spec.argument symbol place
        (spec.denoted_term
        (spec_code.setting declared.now scope.now) scope.now.variables term.now) signature.old) result signature.new }
    ensures keeps { Extends signature.old signature.new }
{
    let asked = argument_sort(signature, symbol, place);
    let found = denote_term(term, alloc, declared, signature, scope, asked)?;
    if !is_argument(signature, symbol, place, found.sort) {
        return Err(Stop::Rule(SortRule::WrongSort));
    }
    Ok(found.term)
}
