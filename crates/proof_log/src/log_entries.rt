// A log is read an entry at a time.
ghost use Rattle.std.specs.Prelude.{◌≡◌, ◌<◌, ◌-◌, ◌↔◌, ◌++◌, List, [], length, Err, IfOk, IfErr, IfSome, IfNone, OnErr};
ghost use Rattle.std.specs.Prelude.{IsErrOf};
ghost use Rattle.kernel.specs.declared.entry.Entry.{Entry as Logged};
ghost use Rattle.tptp_base.specs.declared.read.TheConstants.{FILE_SIZE as max_size};
ghost use Rattle.proof_log.specs.Entries.{entry_text};
ghost use Rattle.proof_log.specs.Answers.{Answers, GoesOn};
ghost use Rattle.proof_log.specs.Reading.{HasRead};
ghost use Rattle.proof_log.specs.code.Answers as code;

use crate::cursor::Cursor;
use crate::entry_reader::entry;
use crate::name::LogVersion;
use crate::reader::{LogFault, MAX_NESTING};
use crate::stop::Stop;
use crate::words::name;
use kernel::Entry;
use std::alloc::Global;
use std::marker::Model;
use tptp_base::{Boxed, FILE_SIZE};

/// The entries of a log, read from its text one at a time.
#[derive(Drop)]
pub struct LogEntries<'a> {
    text: &'a [u8],
    rest: &'a [u8],
}

impl<'a> Model for LogEntries<'a> {
    ghost use Rattle.proof_log.specs.Reading.{Reading};

    ghost Value = { Reading };

    ghost view = { λ log. record { text = log.text.now; rest = log.rest.now } };
}

impl<'a> LogEntries<'a> {
    /// Reads the first line.
    ///
    /// # Errors
    ///
    /// The first fault of the text, where it is in the first line. `Limit` is tested first.
    pub fn new(text: &'a [u8]) -> Result<LogEntries<'a>, LogFault>
        ensures read { IfOk result (λ log. HasRead MAX_NESTING [] log × (log.text ≡ text.now)) }
        ensures fault { IfErr result (λ fault. Answers MAX_NESTING text.now (Err fault)) }
        ensures limit { IsErrOf result LogFault.Limit ↔ max_size < length text.now }
    {
        if text.len() as u64 > FILE_SIZE {
            return Err(LogFault::Limit);
        }
        let mut rest = Cursor::new(text);
        match name::<LogVersion>(&mut rest) {
            Ok(_) => Ok(LogEntries {
                text,
                rest: rest.text(),
            }),
            Err(stop) => Err(fault_of(stop, text.len(), rest.text().len())),
        }
    }

    /// Reads the next entry; none at the end of the text.
    ///
    /// # Errors
    ///
    /// The first fault of the text. The next call finds the same then.
    pub fn next(&mut self, alloc: Global) -> Result<Option<Boxed<Entry>>, LogFault>
        // One after another gives the entries or the fault that `read_log` does.
        ensures next { (entries : List Logged) → HasRead MAX_NESTING entries self.old
            → GoesOn MAX_NESTING entries self.old result self.new }
        ensures one { IfOk result (λ found.
            IfSome found (λ entry. self.old.rest ≡ entry_text entry ++ self.new.rest)) }
        ensures text { self.new.text ≡ self.old.text }
        ensures none { IfOk result (λ found. IfNone found (self.new ≡ self.old)) }
        ensures err { OnErr result (self.new ≡ self.old) }
    {
        if self.rest.is_empty() {
            return Ok(None);
        }
        let mut rest = Cursor::new(self.rest);
        match entry(alloc, &mut rest, MAX_NESTING) {
            Ok(found) => {
                self.rest = rest.text();
                Ok(Some(found))
            }
            Err(stop) => Err(fault_of(stop, self.text.len(), rest.text().len())),
        }
    }
}

// The fault at a place with so many bytes behind it.
fn fault_of(stop: Stop, size: usize, left: usize) -> LogFault
    ensures { result ≡ code.fault_of stop (size - left) }
{
    let offset = size.saturating_sub(left) as u64;
    match stop {
        Stop::Memory => LogFault::Memory,
        Stop::Unexpected => LogFault::Text(offset),
        Stop::TooDeep => LogFault::Deep(offset),
    }
}
