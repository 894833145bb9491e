// Type lines: the sorts and the symbols that they declare.
ghost use Rattle.std.specs.Prelude.{◌≡◌, ◌≤◌, ◌<◌, [], length, slice_get, IfOk, OnOk};
ghost use Rattle.std.specs.List.{All};
ghost use Rattle.fof_terms.specs.Vocabulary.{IsDeclared, is_kind as same_kind};
ghost use Rattle.sort_check.specs.code.Outcomes.{Answers};
ghost use Rattle.sort_check.specs.Outcomes.{each};
ghost use Rattle.sort_check.specs.Sorting.{Extends};
ghost use Rattle.sort_check.specs.Namesakes.{Knows};
ghost use Rattle.sort_check.specs.Symbols as symbols;
ghost use Rattle.sort_check.specs.Symbols.{with_symbol};
ghost use Rattle.sort_check.specs.Texts as spec;
ghost use Rattle.sort_check.specs.code.Texts as spec_code;

use crate::fault::{SortRule, Stop};
use crate::names::Names;
use crate::namesakes::Namesakes;
use crate::symbols::{add_symbol, named_sort};
use fof_terms::{Kind, SigFault, Signature, SortId, SymId, Symbol};
use std::alloc::Global;
use tptp_base::{List, Shape, SortName, Text, Typing};

/// Takes a type declaration. The symbols of the signature are known before and after.
pub fn declare(
    alloc: Global,
    typing: &Typing,
    signature: &mut Signature,
    names: &mut Names,
    namesakes: &mut Namesakes,
) -> Result<(), Stop>
    requires { Knows namesakes.old signature.old.symbols }
    ensures knows { OnOk result (Knows namesakes.new signature.new.symbols) }
    ensures answers { Answers
        (spec.typed typing.now.name typing.now.shape (record { vocabulary = signature.old; names = names.old })) result
        (record { vocabulary = signature.new; names = names.new }) }
    ensures keeps { Extends signature.old signature.new }
{
    match &typing.shape {
        Shape::Sort => {
            declare_sort(alloc, signature, typing.name.as_slice())?;
            Ok(())
        }
        Shape::Symbol(args, result) => {
            let symbol = symbol_named(
                alloc,
                signature,
                typing.name.as_slice(),
                args.as_slice(),
                result,
            )?;
            declare_symbol(alloc, signature, symbol, namesakes)?;
            names.add(alloc, typing.name.as_slice())?;
            Ok(())
        }
    }
}

// A sort, which may be there.
fn declare_sort(alloc: Global, signature: &mut Signature, name: &[u8]) -> Result<SortId, Stop>
    ensures answers { Answers (spec.declared_sort name.now signature.old) result signature.new }
    ensures symbols { signature.new.symbols ≡ signature.old.symbols }
    ensures keeps { Extends signature.old signature.new }
{
    if let Some(number) = signature.find_sort(name) {
        return Ok(number);
    }
    match signature.add_sort(Text::from_slice(alloc, name)?) {
        Ok(number) => Ok(number),
        Err(SigFault::Limit(limit)) => Err(Stop::Rule(SortRule::Limit(limit))),
        Err(SigFault::Memory) => Err(Stop::Memory),
    }
}

// The symbol with the sorts that are written, left to right.
fn symbol_named(
    alloc: Global,
    signature: &Signature,
    name: &[u8],
    args: &[SortName],
    result_name: &SortName,
) -> Result<Symbol, Stop>
    ensures value { Answers (spec.symbol_named name.now args.now result_name.now signature.now) result signature.now }
    ensures declared { IfOk result (λ symbol. IsDeclared (length signature.now.sorts) symbol) }
{
    let args = named_sorts(alloc, signature, args)?;
    let sort = result_sort(signature, result_name)?;
    let name = Text::from_slice(alloc, name)?;
    Ok(Symbol {
        name,
        kind: result_kind(result_name),
        args,
        result: sort,
    })
}

// The sorts of arguments.
fn named_sorts(
    alloc: Global,
    signature: &Signature,
    names: &[SortName],
) -> Result<List<SortId>, Stop>
    ensures value { Answers (each (λ place. symbols.named_sort) 0 names.now signature.now) result signature.now }
    ensures known { IfOk result (λ sorts. All (λ s. s < length signature.now.sorts) sorts) }
{
    let mut found = List::new(alloc);
    for name in names {
        found.push(known_sort(signature, name)?)?;
    }
    Ok(found)
}

// The sort of that name, which the signature has.
fn known_sort(signature: &Signature, name: &SortName) -> Result<SortId, Stop>
    ensures value { Answers (symbols.named_sort name.now signature.now) result signature.now }
    ensures known { IfOk result (λ s. s < length signature.now.sorts) }
{
    // A signature has sorts, as the count tells.
    let _sorts = signature.sort_count();
    named_sort(signature, name)
}

// Whether a result makes a predicate.
fn result_kind(name: &SortName) -> Kind
    ensures { result ≡ spec.result_kind name.now }
{
    match name {
        SortName::Truth => Kind::Predicate,
        SortName::Individual | SortName::Word(_) => Kind::Function,
    }
}

// The sort of a result; that of a predicate is 0.
fn result_sort(signature: &Signature, name: &SortName) -> Result<SortId, Stop>
    ensures value { Answers (spec.result_named name.now signature.now) result signature.now }
    ensures known { IfOk result (λ s. s < length signature.now.sorts) }
{
    match name {
        SortName::Truth => {
            // A signature has sorts, as the count tells.
            let _sorts = signature.sort_count();
            Ok(0)
        }
        SortName::Individual | SortName::Word(_) => known_sort(signature, name),
    }
}

// A symbol, which may be there with the same kind, arity and type.
fn declare_symbol(
    alloc: Global,
    signature: &mut Signature,
    symbol: Symbol,
    namesakes: &mut Namesakes,
) -> Result<SymId, Stop>
    requires declared { IsDeclared (length signature.old.sorts) symbol }
    requires knows { Knows namesakes.old signature.old.symbols }
    ensures answers { Answers (spec.declared_symbol symbol signature.old) result signature.new }
    ensures knows { OnOk result (Knows namesakes.new signature.new.symbols) }
    ensures keeps { Extends signature.old signature.new }
{
    if namesakes.is_elsewise(signature, &symbol) {
        return Err(Stop::Rule(SortRule::Redeclared));
    }
    match signature.find(symbol.name.as_slice(), symbol.kind, symbol.args.len()) {
        Some(number) => Ok(number),
        None => add_known(alloc, signature, symbol, namesakes),
    }
}

// A further symbol, which is known from then on.
fn add_known(
    alloc: Global,
    signature: &mut Signature,
    symbol: Symbol,
    namesakes: &mut Namesakes,
) -> Result<SymId, Stop>
    requires declared { IsDeclared (length signature.old.sorts) symbol }
    requires knows { Knows namesakes.old signature.old.symbols }
    ensures answers { Answers (with_symbol symbol signature.old) result signature.new }
    ensures knows { OnOk result (Knows namesakes.new signature.new.symbols) }
    ensures keeps { Extends signature.old signature.new }
{
    let number = add_symbol(signature, symbol)?;
    namesakes.add(alloc, signature, number)?;
    Ok(number)
}

/// Whether the symbol of that number has this name, and another kind, arity or type.
pub fn is_other(signature: &Signature, symbol: &Symbol, number: SymId) -> bool
    ensures { result ≡ spec_code.other_at symbol.now (slice_get signature.now.symbols number) }
{
    match signature.symbol(number) {
        Some(other) => differs(symbol, other),
        None => false,
    }
}

/// Whether the second symbol has the name of the first, and another kind, arity or type.
pub fn differs(symbol: &Symbol, other: &Symbol) -> bool
    ensures { result ≡ spec.differs symbol.now other.now }
{
    other.name.as_slice() == symbol.name.as_slice()
        && !(is_kind(other.kind, symbol.kind)
            && other.args.as_slice() == symbol.args.as_slice()
            && other.result == symbol.result)
}

// Whether the two kinds are one.
fn is_kind(kind: Kind, other: Kind) -> bool
    ensures { result ≡ same_kind kind other }
{
    match (kind, other) {
        (Kind::Function, Kind::Function) => true,
        (Kind::Function, Kind::Predicate) => false,
        (Kind::Predicate, Kind::Function) => false,
        (Kind::Predicate, Kind::Predicate) => true,
    }
}
