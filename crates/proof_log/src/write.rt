// The log is written.
ghost use Rattle.std.specs.Prelude.{◌≡◌, ◌≤◌, ◌++◌, ◌∷◌, [], OnOk, OnErr, IfOk, IsErrOf};
ghost use Rattle.tptp_base.specs.Count.{Rose};
ghost use Rattle.tptp_base.specs.Sink.{Takes, TakesPrefix};
ghost use Rattle.proof_log.specs.Entries.{AreNumbersInRange, AreSmall, IsSmall, entry_text, decl_text, symbol_text};
ghost use Rattle.proof_log.specs.LogText;
ghost use Rattle.proof_log.specs.LogText.{form_text, form_words};
ghost use Rattle.proof_log.specs.Words.{AreInRange};
ghost use Rattle.kernel.specs.declared.entry.Entry.TheVariants.{Declare};

use crate::forms::put_form;
use crate::line::{put_numbers, put_quoted, put_small, put_word};
use crate::proofs::put_proof;
use fof_terms::{Form, Kind, SymId, Symbol};
use kernel::{Decl, Entry};
use std::alloc::{AllocError, Global};
use tptp_base::{Sink, SinkFault, put_all};

/// The first line of a log.
pub const HEADER: &[u8] = b"tptp-log 1\n";

/// Appends the first line of a log; on a refusal a prefix of it.
pub fn write_header<K: Sink>(sink: &mut K) -> Result<(), SinkFault>
    ensures ok { OnOk result (Takes (K.taken sink.old) (K.taken sink.new) HEADER.now) }
    ensures err { OnErr result (TakesPrefix (K.taken sink.old) (K.taken sink.new) HEADER.now) }
    ensures failed { IsErrOf result SinkFault.Failed → Rose (K.faults sink.old) (K.faults sink.new) }
    ensures more_faults { K.faults sink.old ≤ K.faults sink.new }
{
    put_all(sink, HEADER)
}

/// Appends the line of an entry; on a refusal a prefix of it. The line is made first, and written in one piece. Each
/// number in it fits its type, as it is read back.
pub fn write_entry<K: Sink>(alloc: Global, entry: &Entry, sink: &mut K) -> Result<(), SinkFault>
    ensures ok { OnOk result (Takes (K.taken sink.old) (K.taken sink.new) (entry_text entry.now)) }
    ensures in_range { OnOk result (AreNumbersInRange entry.now) }
    ensures err { OnErr result (TakesPrefix (K.taken sink.old) (K.taken sink.new) (entry_text entry.now)) }
    ensures failed { IsErrOf result SinkFault.Failed → Rose (K.faults sink.old) (K.faults sink.new) }
    ensures more_faults { K.faults sink.old ≤ K.faults sink.new }
{
    match entry_line(alloc, entry) {
        Ok(line) => put_all(sink, &line),
        Err(_) => Err(SinkFault::Memory),
    }
}

// The line of an entry.
fn entry_line(alloc: Global, entry: &Entry) -> Result<Vec<u8>, AllocError>
    ensures text { IfOk result (λ line. line.items ≡ entry_text entry.now) }
    ensures in_range { OnOk result (AreNumbersInRange entry.now) }
{
    let mut line = Vec::new(alloc);
    put_entry(entry, &mut line)?;
    line.push(b'\n')?;
    Ok(line)
}

// Appends an entry's line, without its line feed.
fn put_entry(entry: &Entry, line: &mut Vec<u8>) -> Result<(), AllocError>
    ensures text { OnOk result (line.new.items ++ 10 ∷ [] ≡ line.old.items ++ entry_text entry.now) }
    ensures in_range { OnOk result (AreNumbersInRange entry.now) }
{
    match entry {
        Entry::Declare(decl) => {
            line.push(b'D')?;
            put_decl(decl, line)?;
            Ok(())
        }
        Entry::Lemma(proof) => {
            line.push(b'L')?;
            put_proof(proof, line)?;
            Ok(())
        }
        Entry::Name(symbol, form) => {
            line.push(b'N')?;
            put_defined(*symbol, form, line)?;
            Ok(())
        }
        Entry::Choice(symbol, form) => {
            line.push(b'C')?;
            put_defined(*symbol, form, line)?;
            Ok(())
        }
    }
}

// Appends a symbol's number, and the formula that it is for.
fn put_defined(symbol: SymId, form: &Form, line: &mut Vec<u8>) -> Result<(), AllocError>
    ensures text { OnOk result (line.new.items ≡ line.old.items ++ (LogText.number symbol ++ form_text form.now)) }
    ensures small { OnOk result (IsSmall symbol) }
    ensures in_range { OnOk result (AreInRange (form_words form.now)) }
{
    put_small(line, symbol)?;
    put_form(form, line)
}

// Appends a declaration.
fn put_decl(decl: &Decl, line: &mut Vec<u8>) -> Result<(), AllocError>
    ensures text { OnOk result (line.new.items ≡ line.old.items ++ decl_text decl.now) }
    ensures in_range { OnOk result (AreNumbersInRange (Declare decl.now)) }
{
    match decl {
        Decl::Sort(name) => {
            put_word(line, b"s")?;
            put_quoted(line, name.as_slice())
        }
        Decl::Symbol(symbol) => put_symbol(symbol, line),
    }
}

// Appends a declared symbol.
fn put_symbol(symbol: &Symbol, line: &mut Vec<u8>) -> Result<(), AllocError>
    ensures text { OnOk result (line.new.items ≡ line.old.items
        ++ symbol_text symbol.now.kind symbol.now.name symbol.now.args symbol.now.result) }
    ensures args { OnOk result (AreSmall symbol.now.args) }
    ensures small { OnOk result (IsSmall symbol.now.result) }
{
    let result = symbol.result;
    match symbol.kind {
        Kind::Function => {
            put_word(line, b"f")?;
            put_quoted(line, symbol.name.as_slice())?;
            put_numbers(line, symbol.args.as_slice())?;
            put_small(line, result)
        }
        Kind::Predicate => {
            put_word(line, b"p")?;
            put_quoted(line, symbol.name.as_slice())?;
            put_numbers(line, symbol.args.as_slice())
        }
    }
}
