// The tables of the symbols of a signature.
ghost use Rattle.std.specs.Prelude.{◌≡◌, ◌<◌, ℕ, List, length, map, IfOk, IfErr, ◌∷◌, []};
ghost use Rattle.std.specs.Bool.{OnTrue};
ghost use Rattle.std.specs.List.{AllByRecursion};
ghost use Rattle.fi_model.specs.code.Adding as spec_code;
ghost use Rattle.fi_model.specs.code.Adding.{told, listed, Adds};
ghost use Rattle.fi_model.specs.Interpretations.{size};

use crate::elements::Elements;
use crate::fault::ModelFault;
use crate::index::Index;
use crate::table::Table;
use fof_terms::{Signature, SortId, Symbol};
use std::alloc::Global;
use tptp_base::{List, Memory, Text};

/// The table of each symbol of the signature.
pub fn tables(
    alloc: Global,
    signature: &Signature,
    domains: &[Elements],
    index: &Index,
) -> Result<List<Table>, ModelFault>
    requires some { AllByRecursion (λ elements. 0 < length elements) domains.now }
    requires each { length domains.now ≡ length signature.now.sorts }
    ensures are { IfOk result (λ tables. spec_code.AreTables signature.now (told index.now) domains.now tables) }
    ensures all { IfOk result (λ tables. length tables ≡ length signature.now.symbols) }
    ensures fault { IfErr result (λ fault. spec_code.IsMissing signature.now (told index.now) domains.now fault) }
{
    signature.is_vocabulary();
    let mut tables = List::new(alloc);
    for number in 0..signature.symbol_count() {
        let Some(symbol) = signature.symbol(number) else {
            unreachable!();
        };
        match table_of(alloc, domains, index, number as usize, symbol)? {
            Some(table) => tables.push(table)?,
            None => return Err(no_value(alloc, symbol)),
        }
    }
    Ok(tables)
}

// The fault of a symbol that lacks a value.
fn no_value(alloc: Global, symbol: &Symbol) -> ModelFault
    ensures { spec_code.IsNoValue symbol.now result }
{
    match Text::from_slice(alloc, symbol.name.as_slice()) {
        Ok(name) => ModelFault::Missing(name),
        Err(_) => ModelFault::Memory,
    }
}

// The table of the symbol of that number; none where it lacks a value.
fn table_of(
    alloc: Global,
    domains: &[Elements],
    index: &Index,
    number: usize,
    symbol: &Symbol,
) -> Result<Option<Table>, Memory>
    requires some { AllByRecursion (λ elements. 0 < length elements) domains.now }
    requires sorts { AllByRecursion (λ sort. sort < length domains.now) symbol.now.args }
    ensures { IfOk result (λ found.
        spec_code.IsTableOr (told index.now) domains.now number symbol.now found) }
{
    let sizes = sizes(alloc, domains, symbol.args.as_slice())?;
    let mut key = Vec::new(alloc);
    key.push(number)?;
    let mut values = List::new(alloc);
    let full = fill(sizes.as_slice(), index, &mut key, &mut values)?;
    if full {
        Ok(Some(Table { sizes, values }))
    } else {
        Ok(None)
    }
}

// How many elements each of the sorts has.
fn sizes(alloc: Global, domains: &[Elements], sorts: &[SortId]) -> Result<List<usize>, Memory>
    ensures { IfOk result (λ sizes. sizes ≡ map (size domains.now) sorts.now) }
{
    let mut sizes = List::new(alloc);
    for sort in sorts {
        sizes.push(size_of(domains, *sort))?;
    }
    Ok(sizes)
}

/// How many elements the sort has.
pub fn size_of(domains: &[Elements], sort: SortId) -> usize
    ensures { result ≡ size domains.now sort }
{
    match domains.get(sort as usize) {
        Some(elements) => elements.len(),
        None => 0,
    }
}

// Adds the values under the key and each list of elements behind it, with so many elements at each place; and answers
// whether none lacks.
fn fill(
    sizes: &[usize],
    index: &Index,
    key: &mut Vec<usize>,
    values: &mut List<usize>,
) -> Result<bool, Memory>
    ensures adds { IfOk result (λ full.
        Adds (listed (told index.now) sizes.now key.old.items) values.old full values.new) }
    ensures key { IfOk result (λ full. OnTrue full (key.new.items ≡ key.old.items)) }
{
    let Some((size, rest)) = sizes.split_first() else {
        return add_value(index, key.as_slice(), values);
    };
    for element in 0..*size {
        key.push(element)?;
        if !fill(rest, index, key, values)? {
            return Ok(false);
        }
        key.pop();
    }
    Ok(true)
}

// Adds the value under the key, and answers whether it is there.
fn add_value(index: &Index, key: &[usize], values: &mut List<usize>) -> Result<bool, Memory>
    ensures { IfOk result (λ full. Adds (listed (told index.now) [] key.now) values.old full values.new) }
{
    match index.find(key) {
        Some(value) => {
            values.push(value)?;
            Ok(true)
        }
        None => Ok(false),
    }
}
