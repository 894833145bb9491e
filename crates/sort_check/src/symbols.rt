// Names as symbols and sorts of a signature.
ghost use Rattle.std.specs.Prelude.{◌≡◌, length};
ghost use Rattle.fof_terms.specs.Sorts.{is_sort};
ghost use Rattle.fof_terms.specs.Vocabulary.{IsDeclared};
ghost use Rattle.sort_check.specs.code.Outcomes.{Answers};
ghost use Rattle.sort_check.specs.Sorting.{Extends};
ghost use Rattle.sort_check.specs.Symbols as spec;

use crate::fault::{SortRule, Stop};
use fof_terms::{SigFault, Signature, SortId, SymId, Symbol};
use tptp_base::SortName;

/// A further symbol.
pub fn add_symbol(signature: &mut Signature, symbol: Symbol) -> Result<SymId, Stop>
    requires { IsDeclared (length signature.old.sorts) symbol }
    ensures value { Answers (spec.with_symbol symbol signature.old) result signature.new }
    ensures keeps { Extends signature.old signature.new }
{
    match signature.add(symbol) {
        Ok(number) => Ok(number),
        Err(SigFault::Limit(limit)) => Err(Stop::Rule(SortRule::Limit(limit))),
        Err(SigFault::Memory) => Err(Stop::Memory),
    }
}

/// The sort that a new symbol gets where its place tells one.
pub fn place_sort(by_place: bool, signature: &Signature, told: Option<SortId>) -> SortId
    ensures { result ≡ spec.place_sort by_place signature.now told }
{
    match told {
        Some(sort) if by_place && sort < signature.sort_count() => sort,
        _ => 0,
    }
}

/// The sort that the symbol of that number has at a place.
pub fn argument_sort(signature: &Signature, number: SymId, place: usize) -> Option<SortId>
    ensures { result ≡ spec.argument_sort signature.now number place }
{
    match signature.symbol(number) {
        Some(symbol) => symbol.args.get(place).copied(),
        None => None,
    }
}

/// Whether the symbol of that number has that sort at a place.
pub fn is_argument(signature: &Signature, number: SymId, place: usize, sort: SortId) -> bool
    ensures { result ≡ is_sort (spec.argument_sort signature.now number place) sort }
{
    match argument_sort(signature, number, place) {
        Some(wanted) => wanted == sort,
        None => false,
    }
}

/// The sort of the applications of the symbol of that number.
pub fn result_sort(signature: &Signature, number: SymId) -> SortId
    ensures { result ≡ spec.result_sort signature.now number }
{
    match signature.symbol(number) {
        Some(symbol) => symbol.result,
        None => 0,
    }
}

/// The sort of that name.
pub fn named_sort(signature: &Signature, name: &SortName) -> Result<SortId, Stop>
    ensures { Answers (spec.named_sort name.now signature.now) result signature.now }
{
    match name {
        SortName::Individual => Ok(0),
        SortName::Truth => Err(Stop::Rule(SortRule::UnknownSort)),
        SortName::Word(word) => match signature.find_sort(word.as_slice()) {
            Some(sort) => Ok(sort),
            None => Err(Stop::Rule(SortRule::UnknownSort)),
        },
    }
}
