// The entries of sentences, with elements by their places.
ghost use Rattle.std.specs.Prelude.{◌≡◌, ◌≤◌, ℕ, length, IfOk, IfErr, Ok, Some};
ghost use Rattle.std.specs.Option.{option_map, option_and_then};
ghost use Rattle.fi_model.specs.code.Adding as spec_code;
ghost use Rattle.fi_model.specs.code.Adding.{Adds, IsElement};
ghost use Rattle.fi_model.specs.Models as spec;

use crate::arguments::Arguments;
use crate::elements::Elements;
use crate::fault::ModelFault;
use crate::sentence::{Element, Entry, Sentence, Value, What};
use fof_terms::{Kind, Signature, SortId, SymId, Symbol};
use std::alloc::Global;
use tptp_base::{List, Memory};

/// The value of a symbol at elements, each by its place in the domain of its sort. A predicate has the value 1 where it
/// holds, and 0 where not.
#[derive(Drop)]
pub struct Row {
    pub symbol: SymId,
    pub args: List<usize>,
    pub value: usize,
    /// The number of its sentence.
    pub at: usize,
}

/// The rows of the sentences' entries of symbols of the signature.
pub fn rows(
    alloc: Global,
    signature: &Signature,
    domains: &[Elements],
    said: &[Sentence<'_>],
) -> Result<List<Row>, ModelFault>
    ensures all { IfOk result (λ found. spec.rows signature.now domains.now 0 said.now ≡ Ok found) }
    ensures fault { IfErr result (λ fault.
        IsElement said.now (spec.rows signature.now domains.now 0 said.now) fault) }
{
    let mut found = List::from_vec(Vec::with_capacity(alloc, entry_count(said))?);
    for at in 0..said.len() {
        let good = add_rows(alloc, signature, domains, at, &said[at].what, &mut found)?;
        if !good {
            return Err(wrong_element(alloc, &said[at]));
        }
    }
    Ok(found)
}

// How many entries the sentences have. There is room for so many rows.
fn entry_count(said: &[Sentence<'_>]) -> usize {
    let mut count: usize = 0;
    for sentence in said {
        if let What::Entries(entries) = &sentence.what {
            count = count.saturating_add(entries.len());
        }
    }
    count
}

// The fault of a sentence with an element that is not of the sort wanted.
fn wrong_element(alloc: Global, sentence: &Sentence<'_>) -> ModelFault
    ensures { spec_code.IsElementOf sentence.now result }
{
    match sentence.name.copy(alloc) {
        Ok(name) => ModelFault::Element(sentence.place, name),
        Err(Memory) => ModelFault::Memory,
    }
}

// Adds the rows of what a sentence says, and answers whether its elements are of the sorts wanted.
fn add_rows(
    alloc: Global,
    signature: &Signature,
    domains: &[Elements],
    at: usize,
    what: &What<'_>,
    found: &mut List<Row>,
) -> Result<bool, Memory>
    ensures { IfOk result (λ good.
        Adds (spec.says_rows signature.now domains.now at what.now) found.old good found.new) }
{
    match what {
        What::Domain(_) => Ok(true),
        What::Entries(entries) => {
            add_entries(alloc, signature, domains, at, entries.as_slice(), found)
        }
    }
}

// Adds the rows of entries, and answers whether their elements are of the sorts wanted.
fn add_entries(
    alloc: Global,
    signature: &Signature,
    domains: &[Elements],
    at: usize,
    entries: &[Entry<'_>],
    found: &mut List<Row>,
) -> Result<bool, Memory>
    ensures { IfOk result (λ good.
        Adds (spec.entries_rows signature.now domains.now at entries.now) found.old good found.new) }
{
    for entry in entries {
        let good = add_entry(alloc, signature, domains, at, entry, found)?;
        if !good {
            return Ok(false);
        }
    }
    Ok(true)
}

// Adds the row of an entry, and answers whether its elements are of the sorts wanted.
fn add_entry(
    alloc: Global,
    signature: &Signature,
    domains: &[Elements],
    at: usize,
    entry: &Entry<'_>,
    found: &mut List<Row>,
) -> Result<bool, Memory>
    ensures { IfOk result (λ good.
        Adds (spec.entry_rows signature.now domains.now at entry.now) found.old good found.new) }
{
    let kind = kind_of(&entry.value);
    match signature.find(entry.name.as_slice(), kind, entry.args.len()) {
        Some(number) => match signature.symbol(number) {
            Some(symbol) => add_row(alloc, domains, at, number, symbol, entry, found),
            None => Ok(true),
        },
        None => Ok(true),
    }
}

fn kind_of(value: &Value<'_>) -> Kind
    ensures { result ≡ spec.kind_of value.now }
{
    match value {
        Value::Element(_) => Kind::Function,
        Value::Truth(_) => Kind::Predicate,
    }
}

// Adds the row of an entry of the symbol, which has that number.
fn add_row(
    alloc: Global,
    domains: &[Elements],
    at: usize,
    number: SymId,
    symbol: &Symbol,
    entry: &Entry<'_>,
    found: &mut List<Row>,
) -> Result<bool, Memory>
    ensures { IfOk result (λ good.
        Adds (spec.row_of domains.now at entry.now number (Some symbol.now)) found.old good found.new) }
{
    let args = places(alloc, domains, symbol.args.as_slice(), &entry.args)?;
    let value = value_place(domains, symbol.result, &entry.value);
    match (args, value) {
        (Some(args), Some(value)) => {
            found.push(Row {
                symbol: number,
                args,
                value,
                at,
            })?;
            Ok(true)
        }
        _ => Ok(false),
    }
}

// The place of what a symbol with a result of that sort gives.
fn value_place(domains: &[Elements], sort: SortId, value: &Value<'_>) -> Option<usize>
    ensures { result ≡ spec.value_place domains.now sort value.now }
{
    match value {
        Value::Element(element) => place(domains, sort, element.name.as_slice()),
        Value::Truth(true) => Some(1),
        Value::Truth(false) => Some(0),
    }
}

// The place of each element in the domain of its sort.
fn places(
    alloc: Global,
    domains: &[Elements],
    sorts: &[SortId],
    elements: &Arguments<'_>,
) -> Result<Option<List<usize>>, Memory>
    ensures { IfOk result (λ found. found ≡ spec.places domains.now sorts.now elements.now) }
{
    if sorts.len() != elements.len() {
        return Ok(None);
    }
    let mut found = List::from_vec(Vec::with_capacity(alloc, sorts.len())?);
    for i in 0..sorts.len() {
        match place_of(domains, sorts[i], elements.get(i)) {
            Some(number) => found.push(number)?,
            None => return Ok(None),
        }
    }
    Ok(Some(found))
}

// The place of an element, if there is one, in the domain of the sort.
fn place_of(domains: &[Elements], sort: SortId, element: Option<Element<'_>>) -> Option<usize>
    ensures { result ≡ option_and_then (λ e. spec.place domains.now sort e.name) element.entry }
{
    match element {
        Some(element) => place(domains, sort, element.name.as_slice()),
        None => None,
    }
}

// The place of an element in the domain of the sort.
fn place(domains: &[Elements], sort: SortId, name: &[u8]) -> Option<usize>
    ensures { result ≡ spec.place domains.now sort name.now }
{
    match domains.get(sort as usize) {
        Some(elements) => elements.place(name),
        None => None,
    }
}
