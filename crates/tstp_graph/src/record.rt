// Records: words with arguments, as sources.
ghost use Rattle.std.specs.Prelude.{◌≡◌, ◌∷◌, [], is_some, IfOk};
ghost use Rattle.tstp_graph.specs.code.Sources;
ghost use Rattle.tstp_graph.specs.Sources.{is_step_record as makes_step};
ghost use Rattle.tstp_graph.specs.code.Sources.{gives_at, name_at, record_gives, record_reading, filed};

use crate::cite::{Cite, Reading};
use crate::word::{RecordKind, is_unknown};
use std::alloc::Global;
use tptp_base::{List, Memory, Name};

/// What a record is read as, by what its arguments are read as.
pub fn read_record(alloc: Global, kind: RecordKind, args: List<Reading>) -> Result<Reading, Memory>
    ensures { IfOk result (λ r. r ≡ record_reading kind args) }
{
    let is_good = is_good_record(kind, args.as_slice());
    Ok(Reading {
        name: None,
        is_list: false,
        is_good,
        is_step: is_step_record(kind),
        is_read: true,
        gives: record_gives(alloc, kind, args)?,
    })
}

// Whether a record makes a step.
fn is_step_record(kind: RecordKind) -> bool
    ensures { result ≡ makes_step kind }
{
    match kind {
        RecordKind::Inference => true,
        RecordKind::Introduced => true,
        RecordKind::File => false,
        RecordKind::Theory => true,
        RecordKind::Other => false,
    }
}

// Whether a record is well formed.
fn is_good_record(kind: RecordKind, args: &[Reading]) -> bool
    ensures { result ≡ Sources.is_good_record kind args.now }
{
    match kind {
        RecordKind::Inference => args.len() == 3 && is_list_at(args, 1) && is_good_list_at(args, 2),
        RecordKind::Introduced => {
            args.len() <= 2 || (args.len() == 3 && is_good_list_at(args, 2))
        }
        RecordKind::File => args.len() == 1 || (args.len() == 2 && is_name_at(args, 1)),
        RecordKind::Theory => true,
        RecordKind::Other => true,
    }
}

// Whether the argument at a place is a list.
fn is_list_at(args: &[Reading], at: usize) -> bool
    ensures { result ≡ Sources.is_list_at args.now at }
{
    match args.get(at) {
        Some(arg) => arg.is_list,
        None => false,
    }
}

// Whether the argument at a place is a list whose members are well formed.
fn is_good_list_at(args: &[Reading], at: usize) -> bool
    ensures { result ≡ Sources.is_good_list_at args.now at }
{
    match args.get(at) {
        Some(arg) => arg.is_list && arg.is_good,
        None => false,
    }
}

// Whether the argument at a place is a name.
fn is_name_at(args: &[Reading], at: usize) -> bool
    ensures { result ≡ is_some (name_at args.now at) }
{
    match args.get(at) {
        Some(arg) => arg.name.is_some(),
        None => false,
    }
}

// What a record gives.
fn record_gives(alloc: Global, kind: RecordKind, args: List<Reading>) -> Result<List<Cite>, Memory>
    ensures { IfOk result (λ cites. cites ≡ record_gives kind args) }
{
    match kind {
        RecordKind::Inference => Ok(gives_at(alloc, args, 2)),
        RecordKind::Introduced => Ok(gives_at(alloc, args, 2)),
        RecordKind::File => filed(alloc, name_at(args, 1)),
        RecordKind::Theory => Ok(List::new(alloc)),
        RecordKind::Other => Ok(List::new(alloc)),
    }
}

// What the argument at a place gives.
fn gives_at(alloc: Global, mut args: List<Reading>, at: usize) -> List<Cite>
    ensures { result ≡ gives_at args at }
{
    if at < args.len() {
        args.remove(at).gives
    } else {
        List::new(alloc)
    }
}

// The name that the argument at a place is.
fn name_at(mut args: List<Reading>, at: usize) -> Option<Name>
    ensures { result ≡ name_at args at }
{
    if at < args.len() {
        args.remove(at).name
    } else {
        None
    }
}

// The given formulas of a name, unless it is `unknown`.
fn filed(alloc: Global, name: Option<Name>) -> Result<List<Cite>, Memory>
    ensures { IfOk result (λ cites. cites ≡ filed name) }
{
    match name {
        None => Ok(List::new(alloc)),
        Some(Name::Word(word)) => {
            if is_unknown(word.as_slice()) {
                return Ok(List::new(alloc));
            }
            one(alloc, Cite::Filed(Name::Word(word)))
        }
        Some(Name::Integer(number)) => one(alloc, Cite::Filed(Name::Integer(number))),
    }
}

/// The list of one.
pub fn one(alloc: Global, cite: Cite) -> Result<List<Cite>, Memory>
    ensures { IfOk result (λ cites. cites ≡ cite ∷ []) }
{
    let mut cites = List::new(alloc);
    cites.push(cite)?;
    Ok(cites)
}
