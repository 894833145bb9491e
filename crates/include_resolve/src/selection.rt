// What a selection of formulas keeps of a file.
ghost use Rattle.std.specs.Prelude.{◌≡◌, ◌||◌, not, ◌++◌, ◌∷◌, [], if◌then◌else◌, filter, Some, IfOk, IfErr, OnOk};
ghost use Rattle.std.specs.Option.{option_copied};
ghost use Rattle.tptp_base.specs.declared.name.Name.{Name as NameOf};
ghost use Rattle.include_resolve.specs.code.NameSet.{knows, knows_item};
ghost use Rattle.include_resolve.specs.Selection.{is_among, is_named, is_selected, has_formula, unknown_name};
ghost use Rattle.include_resolve.specs.code.Selecting.{Selects, IsUnknown};

use crate::IncludeFault;
use crate::name_set::NameSet;
use crate::order::reversed;
use std::alloc::Global;
use tptp_base::{Item, List, Name, Text};

/// What is kept of the items of a file of this name, where formulas of some names are selected. All are kept where no
/// selection is written.
pub fn select(
    alloc: Global,
    file: &str,
    names: &Option<List<Name>>,
    items: List<Item>,
) -> Result<List<Item>, IncludeFault>
    ensures { Selects file.now names.now items result }
{
    match names {
        None => Ok(items),
        Some(names) => select_names(alloc, file, names.as_slice(), items),
    }
}

// The formulas of these names, each of which some formula has.
fn select_names(
    alloc: Global,
    file: &str,
    names: &[Name],
    items: List<Item>,
) -> Result<List<Item>, IncludeFault>
    ensures { Selects file.now (Some names.now) items result }
{
    let first = unknown_name_of(alloc, names, items.as_slice())?;
    match first {
        Some(name) => Err(unknown(alloc, file, name)),
        None => kept_items(alloc, names, items),
    }
}

// The fault that the file has no formula of the name.
fn unknown(alloc: Global, file: &str, name: &Name) -> IncludeFault
    ensures { IsUnknown file.now name.now result }
{
    let Ok(file) = Text::from_slice(alloc, file.as_bytes()) else {
        return IncludeFault::Memory;
    };
    match name.copy(alloc) {
        Ok(name) => IncludeFault::UnknownSelection(file, name),
        Err(_) => IncludeFault::Memory,
    }
}

// The first of the names that no formula has.
fn unknown_name_of<'a>(
    alloc: Global,
    names: &'a [Name],
    items: &[Item],
) -> Result<Option<&'a Name>, IncludeFault>
    ensures ok { IfOk result (λ name. option_copied name ≡ unknown_name names.now items.now) }
    ensures err { IfErr result (λ fault. fault ≡ IncludeFault.Memory) }
{
    let known = formula_set(alloc, items)?;
    for name in names {
        if is_unknown(&known, name) {
            return Ok(Some(name));
        }
    }
    Ok(None)
}

// Whether the name is not there.
fn is_unknown(known: &NameSet, name: &Name) -> bool
    ensures { result ≡ not (knows known.now name.now) }
{
    !known.contains(name)
}

// The names of the formulas.
fn formula_set(alloc: Global, items: &[Item]) -> Result<NameSet, IncludeFault>
    ensures ok { IfOk result (λ set. (other : NameOf) → knows set other ≡ has_formula items.now other) }
    ensures err { IfErr result (λ fault. fault ≡ IncludeFault.Memory) }
{
    let mut set = NameSet::new(alloc);
    for item in items {
        add_formula(alloc, &mut set, item)?;
    }
    Ok(set)
}

// Adds the name of the item, if it is a formula.
fn add_formula(alloc: Global, set: &mut NameSet, item: &Item) -> Result<(), IncludeFault>
    ensures ok { OnOk result ((other : NameOf)
        → knows set.new other ≡ (is_named other item.now || knows set.old other)) }
    ensures err { IfErr result (λ fault. fault ≡ IncludeFault.Memory) }
{
    match item {
        Item::Formula(formula) => set.add(alloc, &formula.get().name),
        Item::Comment(_) => Ok(()),
        Item::Include(_) => Ok(()),
    }
}

// The names.
fn set_of(alloc: Global, names: &[Name]) -> Result<NameSet, IncludeFault>
    ensures ok { IfOk result (λ set. (other : NameOf) → knows set other ≡ is_among names.now other) }
    ensures err { IfErr result (λ fault. fault ≡ IncludeFault.Memory) }
{
    let mut set = NameSet::new(alloc);
    for name in names {
        set.add(alloc, name)?;
    }
    Ok(set)
}

// The formulas of these names.
fn kept_items(alloc: Global, names: &[Name], items: List<Item>) -> Result<List<Item>, IncludeFault>
    ensures ok { IfOk result (λ kept. kept ≡ filter (is_selected names.now) items) }
    ensures err { IfErr result (λ fault. fault ≡ IncludeFault.Memory) }
{
    let set = set_of(alloc, names)?;
    let mut left = items;
    let mut kept = List::new(alloc);
    while let Some(last) = left.pop() {
        keep(&set, last, &mut kept)?;
    }
    Ok(reversed(alloc, kept)?)
}

// Appends the item, if it is a formula of a name of the set.
fn keep(set: &NameSet, item: Item, kept: &mut List<Item>) -> Result<(), IncludeFault>
    ensures ok { OnOk result (kept.new ≡ (if knows_item set.now item then kept.old ++ item ∷ [] else kept.old)) }
    ensures err { IfErr result (λ fault. fault ≡ IncludeFault.Memory) }
{
    if is_in(set, &item) {
        kept.push(item)?;
    }
    Ok(())
}

// Whether the item is a formula of a name of the set.
fn is_in(set: &NameSet, item: &Item) -> bool
    ensures { result ≡ knows_item set.now item.now }
{
    match item {
        Item::Formula(formula) => set.contains(&formula.get().name),
        _ => false,
    }
}
