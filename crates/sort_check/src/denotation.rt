// What the formulas of a text denote.
ghost use Rattle.std.specs.Prelude.{◌≡◌, ◌<◌, ◌≤◌, ◌^◌, length, false, IfOk, OnOk};
ghost use Rattle.sort_check.specs.Namesakes.{Knows};
ghost use Rattle.sort_check.specs.code.Outcomes.{Answers};
ghost use Rattle.sort_check.specs.Sorting.{AreSorted, Extends};
ghost use Rattle.sort_check.specs.Texts as spec;
ghost use Rattle.sort_check.specs.code.Texts as spec_code;
ghost use Rattle.tptp_base.specs.Roles.{is_typing};

use crate::clauses::denote_formula;
use crate::declarations::declare;
use crate::fault::{SortFault, SortRule, Stop};
use crate::line::{Line, TextKind};
use crate::names::Names;
use crate::namesakes::Namesakes;
use fof_terms::{Form, Signature};
use std::alloc::Global;
use tptp_base::{Annotated, Body, Item, List, Memory, Role};

/// The lines of all formulas but the type lines, in order. The type lines are taken first, in order, and then the
/// others; a further sort or symbol goes to the signature's end. The fault is the first one, and after it the signature
/// holds what it held and perhaps further sorts and symbols.
///
/// The formulas are closed and well-sorted in the signature behind them. It has all that it had, also after a fault and
/// after want of memory, so what was well-sorted before stays so.
#[tactic(auto, using(crate::proofs::LineSorts::text_extends, crate::proofs::LineSorts::text_sorted))]
pub fn denote(
    alloc: Global,
    items: &[Item],
    signature: &mut Signature,
    kind: TextKind,
) -> Result<List<Line>, SortFault>
    requires { length items.now < 2 ^ 32 }
    ensures gives { spec.Gives (spec.denoted items.now signature.old kind) result signature.new }
    ensures extends { OnOk result (Extends signature.old signature.new) }
    ensures sorted { IfOk result (AreSorted signature.new) }
    ensures keeps { Extends signature.old signature.new }
{
    // A signature has sorts, as the count tells.
    let _sorts = signature.sort_count();
    take_all(alloc, items, signature, kind)
}

// Takes the type lines, and then the others.
fn take_all(
    alloc: Global,
    items: &[Item],
    signature: &mut Signature,
    kind: TextKind,
) -> Result<List<Line>, SortFault>
    requires { length items.now < 2 ^ 32 }
    ensures value { spec.Gives (spec.denoted items.now signature.old kind) result signature.new }
    ensures keeps { Extends signature.old signature.new }
{
    let mut names = Names::new(alloc);
    take_types(alloc, items, signature, &mut names)?;
    take_lines(alloc, items, signature, &names, kind)
}

// Takes the type lines.
fn take_types(
    alloc: Global,
    items: &[Item],
    signature: &mut Signature,
    names: &mut Names,
) -> Result<(), SortFault>
    ensures value { spec.Gives
        (spec.type_lines items.now (record { vocabulary = signature.old; names = names.old })) result
        (record { vocabulary = signature.new; names = names.new }) }
    ensures keeps { Extends signature.old signature.new }
{
    let mut namesakes = Namesakes::of(alloc, signature)?;
    for item in items {
        take_type(alloc, item, signature, names, &mut namesakes)?;
    }
    Ok(())
}

/// Takes an item, if it is a type line.
pub fn take_type(
    alloc: Global,
    item: &Item,
    signature: &mut Signature,
    names: &mut Names,
    namesakes: &mut Namesakes,
) -> Result<(), SortFault>
    requires { Knows namesakes.old signature.old.symbols }
    ensures knows { OnOk result (Knows namesakes.new signature.new.symbols) }
    ensures answers { spec.Gives
        (spec.type_item item.now (record { vocabulary = signature.old; names = names.old })) result
        (record { vocabulary = signature.new; names = names.new }) }
    ensures keeps { Extends signature.old signature.new }
{
    match item {
        Item::Formula(annotated) => take_type_line(
            alloc,
            annotated.get(),
            signature,
            names,
            namesakes,
        ),
        Item::Comment(_) | Item::Include(_) => Ok(()),
    }
}

// Takes a formula, if it is a type line.
fn take_type_line(
    alloc: Global,
    line: &Annotated,
    signature: &mut Signature,
    names: &mut Names,
    namesakes: &mut Namesakes,
) -> Result<(), SortFault>
    requires { Knows namesakes.old signature.old.symbols }
    ensures knows { OnOk result (Knows namesakes.new signature.new.symbols) }
    ensures answers { spec.Gives
        (spec.type_line line.now (record { vocabulary = signature.old; names = names.old })) result
        (record { vocabulary = signature.new; names = names.new }) }
    ensures keeps { Extends signature.old signature.new }
{
    if !is_type(line.role) {
        return Ok(());
    }
    match take_body(alloc, &line.body, signature, names, namesakes) {
        Ok(()) => Ok(()),
        Err(stop) => Err(fault_at(alloc, line, stop)),
    }
}

// Takes the body of a type line.
fn take_body(
    alloc: Global,
    body: &Body,
    signature: &mut Signature,
    names: &mut Names,
    namesakes: &mut Namesakes,
) -> Result<(), Stop>
    requires { Knows namesakes.old signature.old.symbols }
    ensures knows { OnOk result (Knows namesakes.new signature.new.symbols) }
    ensures answers { Answers
        (spec.typed_body body.now (record { vocabulary = signature.old; names = names.old })) result
        (record { vocabulary = signature.new; names = names.new }) }
    ensures keeps { Extends signature.old signature.new }
{
    match body {
        Body::Typing(typing) => declare(alloc, typing, signature, names, namesakes),
        Body::Logic(_) => Err(Stop::Rule(SortRule::NotTyped)),
    }
}

// The lines of the other formulas.
fn take_lines(
    alloc: Global,
    items: &[Item],
    signature: &mut Signature,
    names: &Names,
    kind: TextKind,
) -> Result<List<Line>, SortFault>
    requires { length items.now < 2 ^ 32 }
    ensures value { spec.Gives
        (spec.only_vocabulary
        (spec.lines_from kind names.now 0 items.now
        (record { vocabulary = signature.old; conjectured = false }))) result signature.new }
    ensures keeps { Extends signature.old signature.new }
{
    let mut lines = List::new(alloc);
    let mut conjectured = false;
    for number in 0..items.len() {
        let found = take_line(
            alloc,
            &items[number],
            number as u32,
            signature,
            names,
            kind,
            &mut conjectured,
        )?;
        if let Some(line) = found {
            lines.push(line)?;
        }
    }
    Ok(lines)
}

/// The line of an item, if it has one.
pub fn take_line(
    alloc: Global,
    item: &Item,
    number: u32,
    signature: &mut Signature,
    names: &Names,
    kind: TextKind,
    conjectured: &mut bool,
) -> Result<Option<Line>, SortFault>
    ensures value { spec.Gives
        (spec.line_item kind names.now number item.now
        (record { vocabulary = signature.old; conjectured = conjectured.old })) result
        (record { vocabulary = signature.new; conjectured = conjectured.new }) }
    ensures keeps { Extends signature.old signature.new }
{
    match item {
        Item::Formula(annotated) => {
            let annotated = annotated.get();
            if is_type(annotated.role) {
                return Ok(None);
            }
            match line_form(alloc, annotated, signature, names, kind, conjectured) {
                Ok(form) => Ok(Some(line_of(alloc, annotated, number, form)?)),
                Err(stop) => Err(fault_at(alloc, annotated, stop)),
            }
        }
        Item::Comment(_) | Item::Include(_) => Ok(None),
    }
}

// What the formula of a line denotes. The second conjecture of a problem is refused before it is looked at.
fn line_form(
    alloc: Global,
    line: &Annotated,
    signature: &mut Signature,
    names: &Names,
    kind: TextKind,
    conjectured: &mut bool,
) -> Result<Form, Stop>
    ensures value { Answers
        (spec.line_form kind names.now line.now
        (record { vocabulary = signature.old; conjectured = conjectured.old })) result
        (record { vocabulary = signature.new; conjectured = conjectured.new }) }
    ensures keeps { Extends signature.old signature.new }
{
    let is_new = is_conjecture(line.role);
    if is_single(kind) && is_new && *conjectured {
        return Err(Stop::Rule(SortRule::TwoConjectures));
    }
    let form = body_form(alloc, line, signature, names, kind)?;
    *conjectured = is_new || *conjectured;
    Ok(form)
}

// What the body of a line denotes.
fn body_form(
    alloc: Global,
    line: &Annotated,
    signature: &mut Signature,
    names: &Names,
    kind: TextKind,
) -> Result<Form, Stop>
    ensures value { Answers (spec.body_form kind names.now line.now line.now.body signature.old) result signature.new }
    ensures keeps { Extends signature.old signature.new }
{
    match &line.body {
        Body::Logic(form) => {
            denote_formula(alloc, line.lang, names, signature, form, is_by_place(kind))
        }
        Body::Typing(_) => Err(Stop::Rule(SortRule::NotTyped)),
    }
}

// The line of a formula.
fn line_of(alloc: Global, line: &Annotated, number: u32, form: Form) -> Result<Line, Memory>
    ensures { IfOk result (λ found. found ≡ spec.line_of number line.now form) }
{
    let name = line.name.copy(alloc)?;
    Ok(Line {
        item: number,
        place: line.place,
        name,
        role: line.role,
        form,
    })
}

// The fault of a line.
fn fault_at(alloc: Global, line: &Annotated, stop: Stop) -> SortFault
    ensures { spec_code.IsFaultAt line.now stop result }
{
    match stop {
        Stop::Rule(rule) => match line.name.copy(alloc) {
            Ok(name) => SortFault::Line(rule, line.place, name),
            Err(Memory) => SortFault::Memory,
        },
        Stop::Memory => SortFault::Memory,
    }
}

/// Whether the role is that of type lines.
pub fn is_type(role: Role) -> bool
    ensures { result ≡ is_typing role }
{
    matches!(role, Role::Typing)
}

fn is_conjecture(role: Role) -> bool
    ensures { result ≡ spec.is_conjecture role }
{
    matches!(role, Role::Conjecture)
}

// Whether a new symbol of a text of that kind has the sorts of its place.
fn is_by_place(kind: TextKind) -> bool
    ensures { result ≡ spec.is_by_place kind }
{
    match kind {
        TextKind::Problem => false,
        TextKind::Derivation => true,
    }
}

// Whether a text of that kind has at most one conjecture.
fn is_single(kind: TextKind) -> bool
    ensures { result ≡ spec.is_single kind }
{
    match kind {
        TextKind::Problem => true,
        TextKind::Derivation => false,
    }
}
