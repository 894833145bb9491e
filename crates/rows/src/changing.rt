// A store whose files are others from a call on, and may have no end, or that lacks memory.
ghost use Rattle.std.specs.Prelude.{◌≤◌, None, IfSome, length};

use crate::row::{Given, Source};
use tptp_base::{Store, StoreFault};

/// Files in memory that change while a run goes on. It tells nothing of them.
#[derive(Drop)]
pub struct ChangingStore<'a> {
    files: &'a [Given],
    last_log: &'a [u8],
    failing: &'a [u64],
    lacks: bool,
    calls: u64,
    absents: u64,
    faults: u64,
    given: u64,
}

impl<'a> ChangingStore<'a> {
    /// Of a name the last file counts that is there at a call. The calls of these numbers fail; the first is call 1.
    /// Each call may lack memory.
    pub fn new(
        files: &'a [Given],
        last_log: &'a [u8],
        failing: &'a [u64],
        lacks: bool,
    ) -> ChangingStore<'a> {
        ChangingStore {
            files,
            last_log,
            failing,
            lacks,
            calls: 0,
            absents: 0,
            faults: 0,
            given: 0,
        }
    }

    // What is read of a file at this call, if there is one.
    fn read(&self, name: &str, offset: u64, into: &mut [u8]) -> Option<usize>
        ensures { IfSome result (λ count. count ≤ length into.new) }
    {
        let mut files = self.files.iter().rev();
        let file = files.find(|file| file.from <= self.calls && file.name.as_str() == name)?;
        match &file.source {
            Source::Text(text) => Some(copy_from(text, offset, into)),
            Source::LastLog => Some(copy_from(self.last_log, offset, into)),
            Source::Endless(text) => Some(copy_endless(text, offset, into)),
            Source::Gone => None,
        }
    }
}

// Copies what there is from an offset on, up to the end of the buffer.
fn copy_from(text: &[u8], offset: u64, into: &mut [u8]) -> usize
    ensures { result ≤ length into.new }
{
    if offset >= text.len() as u64 {
        return 0;
    }
    let rest = &text[offset as usize..];
    let count = rest.len().min(into.len());
    into[..count].copy_from_slice(&rest[..count]);
    count
}

// Copies what there is from an offset on, and fills the buffer with line feeds.
fn copy_endless(text: &[u8], offset: u64, into: &mut [u8]) -> usize
    ensures { result ≤ length into.new }
{
    into.fill(b'\n');
    copy_from(text, offset, into);
    into.len()
}

impl Store for ChangingStore<'_> {
    ghost files = { λ _. None };

    ghost absents = { λ s. s.absents };

    ghost faults = { λ s. s.faults };

    ghost given = { λ s. s.given };

    fn read_at(&mut self, name: &str, offset: u64, into: &mut [u8]) -> Result<usize, StoreFault> {
        self.calls = self.calls.saturating_add(1);
        if self.failing.contains(&self.calls) {
            self.faults = self.faults.saturating_add(1);
            return Err(StoreFault::Failed);
        }
        if self.lacks {
            return Err(StoreFault::Memory);
        }
        match self.read(name, offset, into) {
            Some(count) => {
                self.given = self.given.saturating_add(count as u64);
                Ok(count)
            }
            None => {
                self.absents = self.absents.saturating_add(1);
                Err(StoreFault::Absent)
            }
        }
    }
}
