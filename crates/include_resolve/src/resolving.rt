// The walk through the files.
ghost use Rattle.std.specs.Prelude.{◌≡◌, ◌⊎◌, ◌≤◌, ◌+◌, ◌-◌, ◌∷◌, [], ◌++◌, ◌<◌, List, ℕ, length, All, false, IfOk};
ghost use Rattle.std.specs.Prelude.{IfErr, OnOk, IsErrOf, string_bytes};
ghost use Rattle.std.specs.Option.{option_copied};
ghost use Rattle.tptp_base.specs.Count.{Rose};
ghost use Rattle.tptp_base.specs.Quotable.{IsQuotable};
ghost use Rattle.include_resolve.specs.declared.problem.TheConstants.{TOTAL_SIZE as total_size, MAX_DEPTH as max_depth};
ghost use Rattle.include_resolve.specs.code.Causes.{HasCause};
ghost use Rattle.include_resolve.specs.Names.{is_on};
ghost use Rattle.include_resolve.specs.code.Path.{path_names};
ghost use Rattle.include_resolve.specs.Resolved as spec;
ghost use Rattle.include_resolve.specs.code.Steps.{list_of, walk_of, Gives, Adds, IsRefusal, HasQuotableFile};
ghost use Rattle.include_resolve.specs.code.Reading.{IsReadOf};

use crate::names::{Names, tried_names, written_name};
use crate::opened::{Opened, take_text};
use crate::order::reversed;
use crate::path::{Path, is_open};
use crate::reading::{Found, find_file};
use crate::selection::select;
use crate::{IncludeFault, MAX_DEPTH, Problem, TOTAL_SIZE};
use std::alloc::Global;
use tptp_base::{Include, Item, List as Items, Name, Store, Text};

/// Where the walk stands: the files that are open, and how many more may stand inside them.
#[derive(Clone, Copy)]
struct Level<'a> {
    alloc: Global,
    root: Option<&'a str>,
    path: &'a Path<'a>,
    room: usize,
}

/// What is to be opened: the name as it was written, and the formulas that are selected, where some are.
#[derive(Clone, Copy)]
struct Wanted<'a> {
    written: &'a str,
    selection: &'a Option<Items<Name>>,
}

// Opens the first file of these names, and gives what is kept of its items.
#[cycle(open)]
fn open<S: Store>(
    level: &Level<'_>,
    store: &mut S,
    opened: &mut Opened,
    names: Names,
    wanted: &Wanted<'_>,
) -> Result<Items<Item>, IncludeFault>
    requires room { length (path_names level.now.path.now) + level.now.room ≡ max_depth + 1 }
    requires budget { opened.old.read ≤ total_size }
    requires few_files { length opened.old.names ≤ opened.old.read }
    ensures gives { Gives
        (spec.Opens (S.files store.old) (option_copied level.now.root)
        (walk_of (path_names level.now.path.now) opened.old)
        (list_of names) wanted.now.written.now wanted.now.selection.now) opened.old opened.new result }
    ensures read { opened.new.read ≤ total_size }
    ensures cause { IfErr result (λ fault.
        HasCause fault (Rose (S.absents store.old) (S.absents store.new))
        (Rose (S.faults store.old) (S.faults store.new))) }
    ensures same_files { S.files store.new ≡ S.files store.old }
    ensures more_absents { S.absents store.old ≤ S.absents store.new }
    ensures more_faults { S.faults store.old ≤ S.faults store.new }
{
    match find_file(level.alloc, store, names, TOTAL_SIZE - opened.read)? {
        Some(found) => open_found(level, store, opened, found, wanted),
        None => Err(missing(level.alloc, wanted.written)),
    }
}

// Opens a file that was found, and gives what is kept of its items.
#[cycle(open)]
fn open_found<S: Store>(
    level: &Level<'_>,
    store: &mut S,
    opened: &mut Opened,
    found: Found,
    wanted: &Wanted<'_>,
) -> Result<Items<Item>, IncludeFault>
    requires room { length (path_names level.now.path.now) + level.now.room ≡ max_depth + 1 }
    requires budget { opened.old.read ≤ total_size }
    requires few_files { length opened.old.names ≤ opened.old.read }
    requires read { IsReadOf (S.files store.old) (string_bytes found.name) (total_size - opened.old.read) found.read }
    ensures gives { (names : List (List ℕ)) → spec.IsFirstFile (S.files store.old) names (string_bytes found.name)
        → Gives (spec.Opens (S.files store.old) (option_copied level.now.root)
        (walk_of (path_names level.now.path.now)
        opened.old) names wanted.now.written.now wanted.now.selection.now) opened.old opened.new result }
    ensures read { opened.new.read ≤ total_size }
    ensures cause { IfErr result (λ fault.
        HasCause fault (Rose (S.absents store.old) (S.absents store.new))
        (Rose (S.faults store.old) (S.faults store.new))) }
    ensures same_files { S.files store.new ≡ S.files store.old }
    ensures more_absents { S.absents store.old ≤ S.absents store.new }
    ensures more_faults { S.faults store.old ≤ S.faults store.new }
{
    let Found { name, read } = found;
    check_path(level, name.as_str())?;
    let items = take_text(level.alloc, opened, name.as_str(), read)?;
    let path = Path::Inside(name.as_str(), level.path);
    let inside = Level {
        alloc: level.alloc,
        root: level.root,
        path: &path,
        room: level.room - 1,
    };
    let items = replace(&inside, store, name.as_str(), opened, items)?;
    select(level.alloc, name.as_str(), wanted.selection, items)
}

// What the items of a file give in turn.
#[cycle(open)]
fn replace<S: Store>(
    level: &Level<'_>,
    store: &mut S,
    from: &str,
    opened: &mut Opened,
    items: Items<Item>,
) -> Result<Items<Item>, IncludeFault>
    requires room { length (path_names level.now.path.now) + level.now.room ≡ max_depth + 1 }
    requires budget { opened.old.read ≤ total_size }
    requires few_files { length opened.old.names + length items ≤ opened.old.read + 1 }
    requires names { All HasQuotableFile items }
    ensures gives { Gives
        (spec.Replaces (S.files store.old) (option_copied level.now.root)
        (walk_of (path_names level.now.path.now) opened.old) from.now items) opened.old opened.new result }
    ensures read { opened.new.read ≤ total_size }
    ensures cause { IfErr result (λ fault.
        HasCause fault (Rose (S.absents store.old) (S.absents store.new))
        (Rose (S.faults store.old) (S.faults store.new))) }
    ensures same_files { S.files store.new ≡ S.files store.old }
    ensures more_absents { S.absents store.old ≤ S.absents store.new }
    ensures more_faults { S.faults store.old ≤ S.faults store.new }
{
    let mut left = reversed(level.alloc, items)?;
    let mut kept = Items::new(level.alloc);
    'items: while let Some(item) = left.pop() {
        take(level, store, from, opened, item, &mut kept)?;
    }
    Ok(kept)
}

// Adds what one item gives.
#[cycle(open)]
fn take<S: Store>(
    level: &Level<'_>,
    store: &mut S,
    from: &str,
    opened: &mut Opened,
    item: Item,
    kept: &mut Items<Item>,
) -> Result<(), IncludeFault>
    requires room { length (path_names level.now.path.now) + level.now.room ≡ max_depth + 1 }
    requires budget { opened.old.read ≤ total_size }
    requires few_files { length opened.old.names ≤ opened.old.read }
    requires name { HasQuotableFile item }
    ensures adds { Adds
        (spec.TakesItem (S.files store.old) (option_copied level.now.root)
        (walk_of (path_names level.now.path.now)
        opened.old) from.now item) opened.old opened.new kept.old kept.new result }
    ensures read { opened.new.read ≤ total_size }
    ensures cause { IfErr result (λ fault.
        HasCause fault (Rose (S.absents store.old) (S.absents store.new))
        (Rose (S.faults store.old) (S.faults store.new))) }
    ensures same_files { S.files store.new ≡ S.files store.old }
    ensures more_absents { S.absents store.old ≤ S.absents store.new }
    ensures more_faults { S.faults store.old ≤ S.faults store.new }
{
    match item {
        Item::Comment(text) => keep(kept, Item::Comment(text)),
        Item::Formula(formula) => keep(kept, Item::Formula(formula)),
        Item::Include(include) => {
            let items = included(level, store, from, opened, &include)?;
            Ok(kept.append(items)?)
        }
    }
}

// What an include gives.
#[cycle(open)]
fn included<S: Store>(
    level: &Level<'_>,
    store: &mut S,
    from: &str,
    opened: &mut Opened,
    include: &Include,
) -> Result<Items<Item>, IncludeFault>
    requires room { length (path_names level.now.path.now) + level.now.room ≡ max_depth + 1 }
    requires budget { opened.old.read ≤ total_size }
    requires few_files { length opened.old.names ≤ opened.old.read }
    requires name { IsQuotable include.now.file }
    ensures gives { Gives
        (spec.TakesItem (S.files store.old) (option_copied level.now.root)
        (walk_of (path_names level.now.path.now) opened.old) from.now
        (Item.Include include.now)) opened.old opened.new result }
    ensures read { opened.new.read ≤ total_size }
    ensures cause { IfErr result (λ fault.
        HasCause fault (Rose (S.absents store.old) (S.absents store.new))
        (Rose (S.faults store.old) (S.faults store.new))) }
    ensures same_files { S.files store.new ≡ S.files store.old }
    ensures more_absents { S.absents store.old ≤ S.absents store.new }
    ensures more_faults { S.faults store.old ≤ S.faults store.new }
{
    let written = written_name(include);
    let names = tried_names(level.alloc, from, level.root, written)?;
    let wanted = Wanted {
        written,
        selection: &include.names,
    };
    open(level, store, opened, names, &wanted)
}

// Adds an item.
fn keep(kept: &mut Items<Item>, item: Item) -> Result<(), IncludeFault>
    ensures ok { OnOk result (kept.new ≡ kept.old ++ item ∷ []) }
    ensures err { IfErr result (λ fault. fault ≡ IncludeFault.Memory) }
{
    kept.push(item)?;
    Ok(())
}

// A file of this name can be opened inside the open ones.
fn check_path(level: &Level<'_>, name: &str) -> Result<(), IncludeFault>
    requires { length (path_names level.now.path.now) + level.now.room ≡ max_depth + 1 }
    ensures other { OnOk result (is_on (path_names level.now.path.now) name.now ≡ false) }
    ensures room { OnOk result (0 < level.now.room) }
    ensures err { IfErr result (λ fault. IsRefusal (path_names level.now.path.now) name.now fault) }
{
    if is_open(level.path, name) {
        return Err(cycle(level.alloc, name));
    }
    if level.room == 0 {
        return Err(too_deep(level.alloc, name));
    }
    Ok(())
}

// The fault that a file of this name is open already.
fn cycle(alloc: Global, name: &str) -> IncludeFault
    ensures { (result ≡ IncludeFault.Cycle name.now) ⊎ (result ≡ IncludeFault.Memory) }
{
    match Text::from_slice(alloc, name.as_bytes()) {
        Ok(name) => IncludeFault::Cycle(name),
        Err(_) => IncludeFault::Memory,
    }
}

// The fault that a file of this name would stand too deep.
fn too_deep(alloc: Global, name: &str) -> IncludeFault
    ensures { (result ≡ IncludeFault.DeepInclude name.now) ⊎ (result ≡ IncludeFault.Memory) }
{
    match Text::from_slice(alloc, name.as_bytes()) {
        Ok(name) => IncludeFault::DeepInclude(name),
        Err(_) => IncludeFault::Memory,
    }
}

// The fault that no file is found for a name that was written so.
fn missing(alloc: Global, written: &str) -> IncludeFault
    ensures { (result ≡ IncludeFault.Missing written.now) ⊎ (result ≡ IncludeFault.Memory) }
{
    match Text::from_slice(alloc, written.as_bytes()) {
        Ok(written) => IncludeFault::Missing(written),
        Err(_) => IncludeFault::Memory,
    }
}

/// The items of the file of this name, in which each include is replaced by the items of the file that it names.
///
/// The file of an include is looked for in the folder of the file that includes it, and then in the root, where one is
/// given; a name that begins with `/` is opened as it is.
///
/// # Errors
///
/// The first fault on the walk through the files, as `IncludeFault` tells them.
pub fn resolve<S: Store>(
    alloc: Global,
    store: &mut S,
    name: &str,
    root: Option<&str>,
) -> Result<Problem, IncludeFault>
    // What the file gives, or the first fault.
    ensures answers { spec.Answers (S.files store.old) (option_copied root.entry) name.now result }
    // Whatever the store tells:
    ensures read { IfOk result (λ problem. problem.read ≤ total_size) }
    ensures few { IfOk result (λ problem. length problem.items ≤ problem.read) }
    ensures few_files { IfOk result (λ problem. length problem.files ≤ problem.read + 1) }
    // A missing file and a fault of the store have their cause in this call.
    ensures missing { (written : List ℕ) → IsErrOf result (IncludeFault.Missing written)
        → Rose (S.absents store.old) (S.absents store.new) }
    ensures store_fault { IsErrOf result IncludeFault.Store → Rose (S.faults store.old) (S.faults store.new) }

    ensures same_files { S.files store.new ≡ S.files store.old }
    ensures more_absents { S.absents store.old ≤ S.absents store.new }
    ensures more_faults { S.faults store.old ≤ S.faults store.new }
{
    let level = Level {
        alloc,
        root,
        path: &Path::Outside,
        room: MAX_DEPTH + 1,
    };
    let first = String::from_str(alloc, name)?;
    let names = Names { first, other: None };
    let none = Items::new(alloc);
    let mut opened = Opened {
        names: none,
        read: 0,
    };
    let wanted = Wanted {
        written: name,
        selection: &None,
    };
    let items = open(&level, store, &mut opened, names, &wanted)?;
    let Opened { names, read } = opened;
    Ok(Problem {
        files: names,
        items,
        read,
    })
}
