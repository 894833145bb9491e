// How one item is taken behind others.
ghost use Rattle.std.specs.Prelude.{◌≡◌, ◌∷◌, [], ◌++◌, ◌+◌, ◌<◌, ◌^◌, List as list, None, Some, false, true, IfOk};
ghost use Rattle.std.specs.Prelude.{OnOk};
ghost use Rattle.fof_terms.specs.Vocabulary.{Vocabulary as vocabulary};
ghost use Rattle.tptp_base.specs.declared.item.Item.{Item as item_of};
ghost use Rattle.sort_check.specs.Sorting.{Extends};
ghost use Rattle.sort_check.specs.Turns as turns;
ghost use Rattle.sort_check.specs.Texts.{with_line};
ghost use Rattle.sort_check.specs.Stages as stages;
ghost use Rattle.sort_check.specs.code.Turns.{AreTypedOr, is_type_item, is_line_item};

use crate::denotation::{is_type, take_line, take_type};
use crate::fault::SortFault;
use crate::front::{Extent, copy_front};
use crate::line::{Line, TextKind};
use crate::namesakes::Namesakes;
use crate::progress::{Progress, Stage};
use crate::seen::Seen;
use std::alloc::Global;
use tptp_base::{Item, List, Memory};

/// Takes an item behind those that were seen.
#[tactic(auto, using(crate::proofs::Turning::mistyped_stays))]
pub fn turn(
    alloc: Global,
    seen: &Seen,
    item: &Item,
    stage: Stage,
    progress: &mut Progress,
) -> Result<Stage, Memory>
    requires { stages.StandsAt seen.now.items progress.old stage }
    ensures stands { IfOk result (λ next. stages.StandsAt (seen.now.items ++ item.now ∷ []) progress.new next) }
    ensures keeps { progress.new.keeps ≡ progress.old.keeps }
{
    if is_included(item) || progress.number == u32::MAX {
        return Ok(Stage::Unknown);
    }
    match stage {
        Stage::Types(namesakes) => turn_types(alloc, seen, item, namesakes, progress),
        Stage::Lines => turn_lines(alloc, seen, item, progress),
        Stage::Mistyped(fault) => Ok(Stage::Mistyped(fault)),
        Stage::Faulty(fault) => turn_faulty(alloc, seen, item, fault, progress),
        Stage::Late(namesakes) => take_late(alloc, seen, item, namesakes, progress),
        Stage::Unknown => Ok(Stage::Unknown),
    }
}

// Takes an item behind type lines.
fn turn_types(
    alloc: Global,
    seen: &Seen,
    item: &Item,
    namesakes: Namesakes,
    progress: &mut Progress,
) -> Result<Stage, Memory>
    requires stands { stages.AreTypes seen.now.items progress.old namesakes }
    requires few { progress.old.number + 1 < 2 ^ 32 }
    requires no_include { turns.is_include item.now ≡ false }
    ensures stands { IfOk result (λ next. stages.StandsAt (seen.now.items ++ item.now ∷ []) progress.new next) }
    ensures keeps { progress.new.keeps ≡ progress.old.keeps }
{
    if is_line(item) {
        end_types(seen, &namesakes, progress);
        take_formula(alloc, seen, item, progress)
    } else {
        take_typing(alloc, seen, item, namesakes, progress)
    }
}

// Notes what the type lines gave, before a formula brings more.
fn end_types(seen: &Seen, namesakes: &Namesakes, progress: &mut Progress)
    requires { stages.AreTypes seen.now.items progress.old namesakes.now }
    ensures stands { stages.AreLines seen.now.items progress.new None }
    ensures number { progress.new.number ≡ progress.old.number }
    ensures keeps { progress.new.keeps ≡ progress.old.keeps }
{
    // The proof reads what was seen, and what is known of names.
    let _seen = seen;
    let _namesakes = namesakes;
    progress.signature.is_vocabulary();
    progress.typed = Extent::of(&progress.signature);
}

// Takes an item behind formulas.
fn turn_lines(
    alloc: Global,
    seen: &Seen,
    item: &Item,
    progress: &mut Progress,
) -> Result<Stage, Memory>
    requires stands { stages.AreLines seen.now.items progress.old None }
    requires few { progress.old.number + 1 < 2 ^ 32 }
    requires no_include { turns.is_include item.now ≡ false }
    ensures stands { IfOk result (λ next. stages.StandsAt (seen.now.items ++ item.now ∷ []) progress.new next) }
    ensures keeps { progress.new.keeps ≡ progress.old.keeps }
{
    if is_type_line(item) {
        begin_late(alloc, seen, item, progress)
    } else {
        take_formula(alloc, seen, item, progress)
    }
}

// Takes an item behind a formula that has a fault.
fn turn_faulty(
    alloc: Global,
    seen: &Seen,
    item: &Item,
    fault: SortFault,
    progress: &mut Progress,
) -> Result<Stage, Memory>
    requires stands { stages.AreLines seen.now.items progress.old (Some fault) }
    requires no_include { turns.is_include item.now ≡ false }
    ensures stands { IfOk result (λ next. stages.StandsAt (seen.now.items ++ item.now ∷ []) progress.new next) }
    ensures keeps { progress.new.keeps ≡ progress.old.keeps }
{
    if is_type_line(item) {
        begin_late(alloc, seen, item, progress)
    } else {
        Ok(Stage::Faulty(fault))
    }
}

// Takes the first type line behind a formula. What the formulas brought is let go, and so are their lines.
#[tactic(auto, using(crate::proofs::Turning::sorts_in_front, crate::proofs::Turning::symbols_in_front, crate::proofs::Turning::front_whole))]
fn begin_late(
    alloc: Global,
    seen: &Seen,
    item: &Item,
    progress: &mut Progress,
) -> Result<Stage, Memory>
    requires stands { stages.AreBehind seen.now.items progress.old }
    requires no_include { turns.is_include item.now ≡ false }
    ensures stands { IfOk result (λ next. stages.StandsAt (seen.now.items ++ item.now ∷ []) progress.new next) }
    ensures keeps { progress.new.keeps ≡ progress.old.keeps }
{
    progress.signature = copy_front(alloc, &progress.signature, progress.typed)?;
    progress.lines = List::new(alloc);
    let namesakes = Namesakes::of(alloc, &progress.signature)?;
    take_late(alloc, seen, item, namesakes, progress)
}

// Takes an item where type lines alone are taken.
fn take_late(
    alloc: Global,
    seen: &Seen,
    item: &Item,
    namesakes: Namesakes,
    progress: &mut Progress,
) -> Result<Stage, Memory>
    requires stands { stages.AreTyped seen.now.items progress.old namesakes }
    requires no_include { turns.is_include item.now ≡ false }
    ensures stands { IfOk result (λ next. stages.StandsAt (seen.now.items ++ item.now ∷ []) progress.new next) }
    ensures keeps { progress.new.keeps ≡ progress.old.keeps }
{
    let mut namesakes = namesakes;
    match take_declaration(alloc, seen, item, &mut namesakes, progress)? {
        Some(fault) => Ok(Stage::Mistyped(fault)),
        None => Ok(Stage::Late(namesakes)),
    }
}

// Takes an item that gives no line, behind type lines.
fn take_typing(
    alloc: Global,
    seen: &Seen,
    item: &Item,
    namesakes: Namesakes,
    progress: &mut Progress,
) -> Result<Stage, Memory>
    requires stands { stages.AreTypes seen.now.items progress.old namesakes }
    requires few { progress.old.number + 1 < 2 ^ 32 }
    requires no_line { is_line_item item.now ≡ false }
    requires no_include { turns.is_include item.now ≡ false }
    ensures stands { IfOk result (λ next. stages.StandsAt (seen.now.items ++ item.now ∷ []) progress.new next) }
    ensures keeps { progress.new.keeps ≡ progress.old.keeps }
{
    let mut namesakes = namesakes;
    match take_declaration(alloc, seen, item, &mut namesakes, progress)? {
        Some(fault) => Ok(Stage::Mistyped(fault)),
        None => {
            progress.number += 1;
            Ok(Stage::Types(namesakes))
        }
    }
}

// Takes an item, if it is a type line, or tells its fault.
fn take_declaration(
    alloc: Global,
    seen: &Seen,
    item: &Item,
    namesakes: &mut Namesakes,
    progress: &mut Progress,
) -> Result<Option<SortFault>, Memory>
    requires stands { stages.AreTyped seen.now.items progress.old namesakes.old }
    requires no_include { turns.is_include item.now ≡ false }
    ensures typed { IfOk result (λ fault.
        AreTypedOr (seen.now.items ++ item.now ∷ []) progress.new namesakes.new fault) }
    ensures same { progress.new ≡ record progress.old {
      signature = progress.new.signature;
      names = progress.new.names;
    } }
{
    // The proof reads what was seen.
    let _seen = seen;
    match take_type(
        alloc,
        item,
        &mut progress.signature,
        &mut progress.names,
        namesakes,
    ) {
        Ok(()) => Ok(None),
        Err(SortFault::Line(rule, place, name)) => Ok(Some(SortFault::Line(rule, place, name))),
        Err(SortFault::Memory) => Err(Memory),
    }
}

// Takes an item that is no type line, behind type lines or formulas.
#[tactic(auto, using(crate::proofs::Turning::formula_taken))]
fn take_formula(
    alloc: Global,
    seen: &Seen,
    item: &Item,
    progress: &mut Progress,
) -> Result<Stage, Memory>
    requires stands { stages.AreLines seen.now.items progress.old None }
    requires few { progress.old.number + 1 < 2 ^ 32 }
    requires no_type { is_type_item item.now ≡ false }
    requires no_include { turns.is_include item.now ≡ false }
    ensures stands { IfOk result (λ next. stages.StandsAt (seen.now.items ++ item.now ∷ []) progress.new next) }
    ensures keeps { progress.new.keeps ≡ progress.old.keeps }
{
    // The proof reads what was seen.
    let _seen = seen;
    match read_line(alloc, item, progress)? {
        Some(fault) => Ok(Stage::Faulty(fault)),
        None => Ok(Stage::Lines),
    }
}

/// Reads the line of an item behind those that were read, if it has one, or tells its fault.
pub fn read_line(
    alloc: Global,
    item: &Item,
    progress: &mut Progress,
) -> Result<Option<SortFault>, Memory>
    requires { progress.old.number + 1 < 2 ^ 32 }
    ensures read { IfOk result (λ fault. (typed : vocabulary) (items : list item_of)
        → stages.AreRead typed items progress.old
        → stages.IsRead typed (items ++ item.now ∷ []) progress.new fault) }
    ensures names { progress.new.names ≡ progress.old.names }
    ensures typed { progress.new.typed ≡ progress.old.typed }
    ensures keeps { progress.new.keeps ≡ progress.old.keeps }
    ensures more { Extends progress.old.signature progress.new.signature }
{
    match take_line(
        alloc,
        item,
        progress.number,
        &mut progress.signature,
        &progress.names,
        TextKind::Problem,
        &mut progress.conjectured,
    ) {
        Ok(found) => {
            keep(progress.keeps, &mut progress.lines, found)?;
            progress.number += 1;
            Ok(None)
        }
        Err(SortFault::Line(rule, place, name)) => Ok(Some(SortFault::Line(rule, place, name))),
        Err(SortFault::Memory) => Err(Memory),
    }
}

// Keeps a line, where lines are kept.
fn keep(keeps: bool, lines: &mut List<Line>, found: Option<Line>) -> Result<(), Memory>
    ensures { OnOk result (lines.new ≡ lines.old ++ turns.kept keeps (with_line found [])) }
{
    if !keeps {
        return Ok(());
    }
    match found {
        Some(line) => {
            lines.push(line)?;
            Ok(())
        }
        None => Ok(()),
    }
}

fn is_included(item: &Item) -> bool
    ensures { result ≡ turns.is_include item.now }
{
    matches!(item, Item::Include(_))
}

fn is_type_line(item: &Item) -> bool
    ensures { result ≡ is_type_item item.now }
{
    match item {
        Item::Formula(annotated) => is_type(annotated.get().role),
        Item::Comment(_) | Item::Include(_) => false,
    }
}

// Whether the item is a formula and no type line.
fn is_line(item: &Item) -> bool
    ensures { result ≡ is_line_item item.now }
{
    match item {
        Item::Formula(annotated) => !is_type(annotated.get().role),
        Item::Comment(_) | Item::Include(_) => false,
    }
}
