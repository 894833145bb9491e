// How a file is looked for and read.
ghost use Rattle.std.specs.Prelude.{◌≡◌, ◌≤◌, ◌∷◌, [], All, IfOk, IfErr, IfNone, MatchOption, map, option_to_list};
ghost use Rattle.std.specs.Prelude.{string_bytes};
ghost use Rattle.tptp_base.specs.Count.{Rose};
ghost use Rattle.tptp_base.specs.Store.{IsMissing};
ghost use Rattle.include_resolve.specs.code.Reading.{IsReadOf, IsStop};
ghost use Rattle.include_resolve.specs.Resolved.{IsFirstFile};

use crate::IncludeFault;
use crate::names::Names;
use std::alloc::Global;
use tptp_base::{LimitName, ReadFault, Store, Text, read_whole};

/// What was read of a file: all its bytes, or the limit that they are over.
#[derive(Drop)]
pub enum Read {
    Whole(Text),
    Over(LimitName),
}

/// A file, with the name under which it was found.
#[derive(Drop)]
pub struct Found {
    pub name: String,
    pub read: Read,
}

/// Reads the first file of these names, if there is one.
#[tactic(auto, using(crate::proofs::Finding::first_read))]
pub fn find_file<S: Store>(
    alloc: Global,
    store: &mut S,
    names: Names,
    budget: u64,
) -> Result<Option<Found>, IncludeFault>
    ensures found { IfOk result (λ found. MatchOption found
        (All (IsMissing (S.files store.old)) (string_bytes names.first ∷ map string_bytes (option_to_list names.other)))
        (λ file. IsFirstFile (S.files store.old) (string_bytes names.first
        ∷ map string_bytes (option_to_list names.other)) (string_bytes file.name)
        × IsReadOf (S.files store.old) (string_bytes file.name) budget file.read)) }
    ensures absent { IfOk result (λ found. IfNone found (Rose (S.absents store.old) (S.absents store.new))) }
    ensures cause { IfErr result (λ fault. IsStop fault (Rose (S.faults store.old) (S.faults store.new))) }
    ensures same_files { S.files store.new ≡ S.files store.old }
    ensures more_absents { S.absents store.old ≤ S.absents store.new }
    ensures more_faults { S.faults store.old ≤ S.faults store.new }
{
    let Names { first, other } = names;
    match read_file(alloc, store, first.as_str(), budget)? {
        Some(read) => Ok(Some(Found { name: first, read })),
        None => find_other(alloc, store, other, budget),
    }
}

// Reads the file of this name, if there is a name and a file.
#[tactic(auto, using(crate::proofs::Finding::first_read))]
fn find_other<S: Store>(
    alloc: Global,
    store: &mut S,
    name: Option<String>,
    budget: u64,
) -> Result<Option<Found>, IncludeFault>
    ensures found { IfOk result (λ found. MatchOption found
        (All (IsMissing (S.files store.old)) (map string_bytes (option_to_list name)))
        (λ file. IsFirstFile (S.files store.old) (map string_bytes (option_to_list name)) (string_bytes file.name)
        × IsReadOf (S.files store.old) (string_bytes file.name) budget file.read)) }
    ensures cause { IfErr result (λ fault. IsStop fault (Rose (S.faults store.old) (S.faults store.new))) }
    ensures same_files { S.files store.new ≡ S.files store.old }
    ensures more_absents { S.absents store.old ≤ S.absents store.new }
    ensures more_faults { S.faults store.old ≤ S.faults store.new }
{
    let Some(name) = name else {
        return Ok(None);
    };
    match read_file(alloc, store, name.as_str(), budget)? {
        Some(read) => Ok(Some(Found { name, read })),
        None => Ok(None),
    }
}

// Reads a file, if there is one of this name.
fn read_file<S: Store>(
    alloc: Global,
    store: &mut S,
    name: &str,
    budget: u64,
) -> Result<Option<Read>, IncludeFault>
    ensures read { IfOk result (λ read. MatchOption read
        (IsMissing (S.files store.old) name.now)
        (λ read. IsReadOf (S.files store.old) name.now budget read)) }
    ensures absent { IfOk result (λ read. IfNone read (Rose (S.absents store.old) (S.absents store.new))) }
    ensures cause { IfErr result (λ fault. IsStop fault (Rose (S.faults store.old) (S.faults store.new))) }
    ensures same_files { S.files store.new ≡ S.files store.old }
    ensures more_absents { S.absents store.old ≤ S.absents store.new }
    ensures more_faults { S.faults store.old ≤ S.faults store.new }
{
    match read_whole(alloc, store, name, budget) {
        Ok(text) => Ok(Some(Read::Whole(text))),
        Err(ReadFault::Limit(limit)) => Ok(Some(Read::Over(limit))),
        Err(ReadFault::Absent) => Ok(None),
        Err(ReadFault::Failed) => Err(IncludeFault::Store),
        Err(ReadFault::Memory) => Err(IncludeFault::Memory),
    }
}
