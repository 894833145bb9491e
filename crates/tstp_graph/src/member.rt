// How sources are read.
ghost use Rattle.std.specs.Prelude.{◌≡◌, ◌&&◌, map, IfOk};
ghost use Rattle.std.specs.List.{flat_map, list_all};
ghost use Rattle.tstp_graph.specs.code.Sources.{nothing, named, word_reading, number_reading, list_reading};
ghost use Rattle.tstp_graph.specs.code.Sources.{pair_reading, reading, source_of};

use crate::cite::{Cite, Reading};
use crate::record::{one, read_record};
use crate::word::{is_integer, is_unknown, record_kind};
use std::alloc::Global;
use tptp_base::{GTerm, List, Memory, Name, Text};

/// What the source of a line is read as.
pub fn read_source(alloc: Global, source: &Option<GTerm>) -> Result<Reading, Memory>
    ensures { IfOk result (λ r. r ≡ source_of source.now) }
{
    match source {
        None => Ok(nothing(alloc)),
        Some(source) => {
            let read = read(alloc, source)?;
            if read.is_read {
                Ok(read)
            } else {
                Ok(nothing(alloc))
            }
        }
    }
}

// What a general term is read as.
#[tactic(auto, using(crate::proofs::Readings::reading_equations))]
#[cycle(read)]
fn read(alloc: Global, term: &GTerm) -> Result<Reading, Memory>
    ensures { IfOk result (λ r. r ≡ reading term.now) }
{
    match term {
        GTerm::Word(word) => read_word(alloc, word.as_slice()),
        GTerm::Func(word, args) => {
            let args = read_all(alloc, args.as_slice())?;
            read_record(alloc, record_kind(word.as_slice()), args)
        }
        GTerm::Var(_) => Ok(nothing(alloc)),
        GTerm::Number(number) => read_number(alloc, number.as_slice()),
        GTerm::Distinct(_) => Ok(nothing(alloc)),
        GTerm::Formula(_, _) => Ok(nothing(alloc)),
        GTerm::Term(_) => Ok(nothing(alloc)),
        GTerm::List(members) => read_list(alloc, members.as_slice()),
        GTerm::Pair(left, _) => Ok(read_pair(read(alloc, left.get())?)),
    }
}

// What each of some terms is read as.
#[tactic(auto, using(crate::proofs::Readings::reading_equations))]
#[cycle(read)]
fn read_all(alloc: Global, terms: &[GTerm]) -> Result<List<Reading>, Memory>
    ensures { IfOk result (λ rs. rs ≡ map reading terms.now) }
{
    let mut readings = List::new(alloc);
    for term in terms {
        readings.push(read(alloc, term)?)?;
    }
    Ok(readings)
}

// What a list is read as.
#[tactic(auto, using(crate::proofs::Readings::reading_equations))]
#[cycle(read)]
fn read_list(alloc: Global, members: &[GTerm]) -> Result<Reading, Memory>
    ensures { IfOk result (λ r. r ≡ list_reading (map reading members.now)) }
{
    let mut is_good = true;
    let mut gives = List::new(alloc);
    for member in members {
        let read = read(alloc, member)?;
        is_good = both(is_good, read.is_good);
        gives.append(read.gives)?;
    }
    Ok(Reading {
        name: None,
        is_list: true,
        is_good,
        is_step: true,
        is_read: true,
        gives,
    })
}

// Whether both hold.
fn both(first: bool, second: bool) -> bool
    ensures { result ≡ first && second }
{
    first && second
}

// What a pair is read as, by what its left side is read as.
fn read_pair(left: Reading) -> Reading
    ensures { result ≡ pair_reading left }
{
    Reading {
        name: None,
        is_list: false,
        is_good: left.is_good,
        is_step: false,
        is_read: false,
        gives: left.gives,
    }
}

// A term that gives nothing.
fn nothing(alloc: Global) -> Reading
    ensures { result ≡ nothing }
{
    Reading {
        name: None,
        is_list: false,
        is_good: true,
        is_step: false,
        is_read: true,
        gives: List::new(alloc),
    }
}

// What a word is read as.
fn read_word(alloc: Global, word: &[u8]) -> Result<Reading, Memory>
    ensures { IfOk result (λ r. r ≡ word_reading word.now) }
{
    let name = Name::Word(Text::from_slice(alloc, word)?);
    if is_unknown(word) {
        let mut read = nothing(alloc);
        read.name = Some(name);
        return Ok(read);
    }
    named(alloc, name)
}

// What a number is read as.
fn read_number(alloc: Global, number: &[u8]) -> Result<Reading, Memory>
    ensures { IfOk result (λ r. r ≡ number_reading number.now) }
{
    if is_integer(number) {
        named(alloc, Name::Integer(Text::from_slice(alloc, number)?))
    } else {
        Ok(nothing(alloc))
    }
}

// What a name other than `unknown` is read as.
fn named(alloc: Global, name: Name) -> Result<Reading, Memory>
    ensures { IfOk result (λ r. r ≡ named name) }
{
    Ok(Reading {
        gives: one(alloc, Cite::Named(name.copy(alloc)?))?,
        name: Some(name),
        is_list: false,
        is_good: true,
        is_step: true,
        is_read: true,
    })
}
