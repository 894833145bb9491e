// Type lines.
ghost use Rattle.std.specs.Prelude.{◌≡◌, ◌++◌, ◌∷◌, [], IfOk, OnOk, drop, length, map};
ghost use Rattle.derivation_items.specs.Items.{typing_item as item_of_typing, typing_items as items_of_typings};
ghost use Rattle.derivation_items.specs.Typings.{function_typing, sort_typing, typings_of, written_sort};

use crate::words::numbered;
use fof_terms::{Signature, SortId, SymId, Symbol};
use std::alloc::Global;
use tptp_base::{
    Annotated, Body, Boxed, Item, Lang, List, Memory, Name, Place, Role, Shape, SortName, Text,
    Typing,
};

/// The place of each item: a made item stands at the first place.
pub(crate) const FIRST_PLACE: Place = Place {
    file: 0,
    offset: 0,
    line: 1,
    column: 1,
};

/// A type line for each sort but `$i`, and for each symbol from that number on.
pub fn typing_items(alloc: Global, sig: &Signature, first: SymId) -> Result<List<Item>, Memory>
    ensures { IfOk result (λ items. items ≡ items_of_typings 0 (typings_of sig.now first)) }
{
    let mut items = List::new(alloc);
    push_sorts(alloc, sig, &mut items)?;
    push_functions(alloc, sig, first, &mut items)?;
    Ok(items)
}

// Adds the type lines of the sorts.
fn push_sorts(alloc: Global, sig: &Signature, items: &mut List<Item>) -> Result<(), Memory>
    ensures { OnOk result (items.new ≡ items.old
        ++ items_of_typings (length items.old) (map sort_typing (drop 1 sig.now.sorts))) }
{
    for number in 1..sig.sort_count() {
        let Some(name) = sig.sort(number) else {
            unreachable!()
        };
        let name = Text::from_slice(alloc, name.as_slice())?;
        push_typing(
            alloc,
            Typing {
                name,
                shape: Shape::Sort,
            },
            items,
        )?;
    }
    Ok(())
}

// Adds the type lines of the symbols from that number on.
fn push_functions(
    alloc: Global,
    sig: &Signature,
    first: SymId,
    items: &mut List<Item>,
) -> Result<(), Memory>
    ensures { OnOk result (items.new ≡ items.old
        ++ items_of_typings (length items.old) (map (function_typing sig.now) (drop first sig.now.symbols))) }
{
    for number in first..sig.symbol_count() {
        let Some(symbol) = sig.symbol(number) else {
            unreachable!()
        };
        let typing = typing_of(alloc, sig, symbol)?;
        push_typing(alloc, typing, items)?;
    }
    Ok(())
}

// Adds the type line, under its number.
fn push_typing(alloc: Global, typing: Typing, items: &mut List<Item>) -> Result<(), Memory>
    ensures { OnOk result (items.new ≡ items.old ++ item_of_typing (length items.old) typing ∷ []) }
{
    let name = numbered(alloc, b"y", items.len() as u64)?;
    let formula = Annotated {
        place: FIRST_PLACE,
        lang: Lang::Tff,
        name: Name::Word(name),
        role: Role::Typing,
        body: Body::Typing(typing),
        source: None,
        info: None,
    };
    items.push(Item::Formula(Boxed::new(alloc, formula)?))?;
    Ok(())
}

// What the type line of a function declares.
fn typing_of(alloc: Global, sig: &Signature, symbol: &Symbol) -> Result<Typing, Memory>
    ensures { IfOk result (λ typing. typing ≡ function_typing sig.now symbol.now) }
{
    let name = Text::from_slice(alloc, symbol.name.as_slice())?;
    let mut args = List::new(alloc);
    for sort in symbol.args.as_slice() {
        args.push(sort_name(alloc, sig, *sort)?)?;
    }
    let result = sort_name(alloc, sig, symbol.result)?;
    Ok(Typing {
        name,
        shape: Shape::Symbol(args, result),
    })
}

// How the sort of that number is written.
fn sort_name(alloc: Global, sig: &Signature, id: SortId) -> Result<SortName, Memory>
    ensures { IfOk result (λ name. name ≡ written_sort sig.now id) }
{
    if id == 0 {
        return Ok(SortName::Individual);
    }
    match sig.sort(id) {
        Some(name) => Ok(SortName::Word(Text::from_slice(alloc, name.as_slice())?)),
        None => Ok(SortName::Individual),
    }
}
