// Entries are read. The room is how deep trees may nest.
ghost use Rattle.first_fault.specs.code.Reading.{mapped};
ghost use Rattle.proof_log.specs.code.Names.{decl_name, entry_name, decl_names, entry_names};
ghost use Rattle.proof_log.specs.code.ReadWords.{number, listed, head, name as a_name};
ghost use Rattle.proof_log.specs.code.ReadTrees.{behind};
ghost use Rattle.proof_log.specs.code.ReadEntries as spec;
ghost use Rattle.proof_log.specs.code.Outcomes.{Reads};

use crate::cursor::Cursor;
use crate::form_reader::form;
use crate::name::{DeclName, EntryName};
use crate::proof_reader::proof;
use crate::quoted::quoted;
use crate::room::list_for;
use crate::stop::Stop;
use crate::words::{head, large, name, small};
use fof_terms::{Kind, Symbol};
use kernel::{Decl, Entry};
use std::alloc::Global;
use tptp_base::{Boxed, List};

// How many numbers there are, and the numbers.
#[tactic(auto, unfolding(crate::specs::code::ReadWords::listed))]
fn numbers(alloc: Global, text: &mut Cursor<'_>) -> Result<List<u32>, Stop>
    ensures { Reads (listed (number 4294967295) text.old) result text.new }
{
    let count = large(text)?;
    let mut found = list_for(alloc, count)?;
    for _ in 0..count {
        let next = small(text)?;
        found.push(next)?;
    }
    Ok(found)
}

// What is declared.
#[tactic(auto, unfolding(crate::specs::code::ReadEntries::declaration))]
fn declaration(alloc: Global, text: &mut Cursor<'_>) -> Result<Decl, Stop>
    ensures { Reads (spec.declaration text.old) result text.new }
{
    match head(text)? {
        DeclName::Sort => Ok(Decl::Sort(quoted(alloc, text)?)),
        DeclName::Function => {
            let name = quoted(alloc, text)?;
            let args = numbers(alloc, text)?;
            let result = small(text)?;
            Ok(Decl::Symbol(Symbol {
                name,
                kind: Kind::Function,
                args,
                result,
            }))
        }
        DeclName::Predicate => {
            let name = quoted(alloc, text)?;
            let args = numbers(alloc, text)?;
            Ok(Decl::Symbol(Symbol {
                name,
                kind: Kind::Predicate,
                args,
                result: 0,
            }))
        }
    }
}

// An entry without its line feed.
fn entry_before(alloc: Global, text: &mut Cursor<'_>, room: usize) -> Result<Entry, Stop>
    ensures { Reads (behind (a_name entry_name entry_names) (spec.entry_by room) text.old) result text.new }
{
    match name(text)? {
        EntryName::Declare => declare(alloc, text),
        EntryName::Lemma => lemma(alloc, text, room),
        EntryName::Name => named(alloc, text, room),
        EntryName::Choice => chosen(alloc, text, room),
    }
}

// A declaration, behind the entry's name.
fn declare(alloc: Global, text: &mut Cursor<'_>) -> Result<Entry, Stop>
    ensures { Reads (mapped (λ found. Entry.Declare found) (spec.declaration text.old)) result text.new }
{
    let found = declaration(alloc, text)?;
    Ok(Entry::Declare(found))
}

// A lemma, behind the entry's name.
fn lemma(alloc: Global, text: &mut Cursor<'_>, room: usize) -> Result<Entry, Stop>
    ensures { Reads (spec.entry_by room EntryName.Lemma text.old) result text.new }
{
    let found = proof(alloc, text, room)?;
    Ok(Entry::Lemma(found.into_inner()))
}

// A symbol and the formula that it names, behind the entry's name.
fn named(alloc: Global, text: &mut Cursor<'_>, room: usize) -> Result<Entry, Stop>
    ensures { Reads (spec.entry_by room EntryName.Name text.old) result text.new }
{
    let symbol = small(text)?;
    let body = form(alloc, text, room)?;
    Ok(Entry::Name(symbol, body.into_inner()))
}

// A symbol and the formula that it chooses for, behind the entry's name.
fn chosen(alloc: Global, text: &mut Cursor<'_>, room: usize) -> Result<Entry, Stop>
    ensures { Reads (spec.entry_by room EntryName.Choice text.old) result text.new }
{
    let symbol = small(text)?;
    let body = form(alloc, text, room)?;
    Ok(Entry::Choice(symbol, body.into_inner()))
}

/// An entry with its line feed.
#[tactic(auto, unfolding(crate::specs::code::ReadEntries::entry))]
pub fn entry(alloc: Global, text: &mut Cursor<'_>, room: usize) -> Result<Boxed<Entry>, Stop>
    ensures { Reads (spec.entry room text.old) result text.new }
{
    let found = Boxed::new(alloc, entry_before(alloc, text, room)?)?;
    text.expect(b'\n')?;
    Ok(found)
}
