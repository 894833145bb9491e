// The symbols that head applications and atoms.
ghost use Rattle.std.specs.Prelude.{◌≡◌, IfOk, length, map};
ghost use Rattle.fof_terms.specs.Vocabulary.{IsDeclared};
ghost use Rattle.sort_check.specs.code.Outcomes.{Answers};
ghost use Rattle.sort_check.specs.Denotation.{known_sort};
ghost use Rattle.sort_check.specs.Sorting.{Extends};
ghost use Rattle.sort_check.specs.Symbols as spec;

use crate::fault::{SortRule, Stop};
use crate::names::Names;
use crate::room::with_room;
use crate::scope::Scope;
use crate::symbols::{add_symbol, place_sort, result_sort};
use fof_terms::{Kind, Signature, SortId, SymId, Symbol};
use std::alloc::{AllocError, Global};
use tptp_base::{List, STerm, Text};

/// The symbol that a name of that kind means before these arguments, at a place that asks for that sort. One that is
/// neither there nor declared is added.
#[tactic(auto, unfolding(crate::specs::Symbols::head))]
pub fn head(
    alloc: Global,
    declared: &Names,
    signature: &mut Signature,
    scope: &Scope<'_>,
    name: &[u8],
    kind: Kind,
    args: &[STerm],
    asked: Option<SortId>,
) -> Result<SymId, Stop>
    ensures value { Answers
        (spec.head declared.now name.now kind (length args.now)
        (spec.new_symbol scope.now.by_place signature.old name.now kind
        (map (known_sort scope.now.variables signature.old) args.now) asked) signature.old) result signature.new }
    ensures keeps { Extends signature.old signature.new }
{
    if let Some(number) = signature.find(name, kind, args.len()) {
        return Ok(number);
    }
    if declared.has(name) {
        return Err(Stop::Rule(SortRule::Arity));
    }
    let symbol = new_symbol(alloc, signature, scope, name, kind, args, asked)?;
    add_symbol(signature, symbol)
}

// The symbol that a new name becomes.
fn new_symbol(
    alloc: Global,
    signature: &Signature,
    scope: &Scope<'_>,
    name: &[u8],
    kind: Kind,
    args: &[STerm],
    asked: Option<SortId>,
) -> Result<Symbol, AllocError>
    ensures value { IfOk result (λ symbol. symbol ≡ spec.new_symbol scope.now.by_place signature.now name.now kind
        (map (known_sort scope.now.variables signature.now) args.now) asked) }
    ensures declared { IfOk result (λ symbol. IsDeclared (length signature.now.sorts) symbol) }
{
    // A signature has sorts, as the count tells.
    let _sorts = signature.sort_count();
    let name = Text::from_slice(alloc, name)?;
    let args = argument_sorts(alloc, signature, scope, args)?;
    Ok(Symbol {
        name,
        kind,
        args,
        result: place_sort(scope.by_place(), signature, asked),
    })
}

// The sorts that a new symbol gets for these arguments.
fn argument_sorts(
    alloc: Global,
    signature: &Signature,
    scope: &Scope<'_>,
    args: &[STerm],
) -> Result<List<SortId>, AllocError>
    ensures { IfOk result (λ sorts. sorts ≡ map (spec.place_sort scope.now.by_place signature.now)
        (map (known_sort scope.now.variables signature.now) args.now)) }
{
    let mut sorts = with_room(alloc, args.len())?;
    for arg in args {
        sorts.push(place_sort(scope.by_place(), signature, known(signature, scope, arg)))?;
    }
    Ok(sorts)
}

/// The sort of a term as far as it is known before the term is walked.
#[tactic(auto, using(crate::proofs::Equations::known_equations))]
pub fn known(signature: &Signature, scope: &Scope<'_>, term: &STerm) -> Option<SortId>
    ensures { result ≡ known_sort scope.now.variables signature.now term.now }
{
    match term {
        STerm::Var(name) => match scope.find(name.as_slice()) {
            Some((_, sort)) => Some(sort),
            None => None,
        },
        STerm::App(name, args) => {
            match signature.find(name.as_slice(), Kind::Function, args.len()) {
                Some(symbol) => Some(result_sort(signature, symbol)),
                None => None,
            }
        }
    }
}
