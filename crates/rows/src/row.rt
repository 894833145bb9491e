// A row: what a run is given, and what it must come to.
use std::alloc::Global;

/// What a file of the store holds.
#[derive(Drop)]
pub enum Source {
    Text(Vec<u8>),
    /// The log that the row before has written.
    LastLog,
    /// This text, and line feeds behind it without an end.
    Endless(Vec<u8>),
    /// There is no such file.
    Gone,
}

/// A file of the store.
#[derive(Drop)]
pub struct Given {
    pub name: String,
    /// The call of the store from which on the file is this one.
    pub from: u64,
    pub source: Source,
}

/// Numbers of calls.
#[derive(Clone, Copy)]
pub struct Calls {
    pub reads: u64,
    pub writes: u64,
    pub entries: u64,
}

/// What lacks memory at each call.
#[derive(Clone, Copy)]
pub struct Lacking {
    pub store: bool,
    pub out: bool,
    pub log: bool,
}

/// What the log must have taken.
#[derive(Drop)]
pub enum WantedLog {
    Text(Vec<u8>),
    Any,
}

/// A run over files in memory, and what it must come to.
#[derive(Drop)]
pub struct Row {
    pub name: String,
    pub words: Vec<String>,
    /// The files of the store. The last one of a name counts.
    pub files: Vec<Given>,
    /// Whether it is tried over the plain store alone.
    pub is_plain: bool,
    /// The calls of the store that fail. The first call has the number 1, here and below.
    pub failing_reads: Vec<u64>,
    /// The calls of the output that fail.
    pub failing_writes: Vec<u64>,
    /// The calls of the log that fail.
    pub failing_entries: Vec<u64>,
    pub lacking: Lacking,
    /// How many calls of the store, the output and the log there are, where each is to fail in a run of its own.
    pub each: Option<Calls>,
    pub status: u8,
    pub out: Vec<u8>,
    pub log: WantedLog,
}

impl Row {
    /// A row without a name that gives nothing, and wants status 0 and no bytes.
    pub fn new(alloc: Global) -> Row {
        Row {
            name: String::new(alloc),
            words: Vec::new(alloc),
            files: Vec::new(alloc),
            is_plain: false,
            failing_reads: Vec::new(alloc),
            failing_writes: Vec::new(alloc),
            failing_entries: Vec::new(alloc),
            lacking: Lacking {
                store: false,
                out: false,
                log: false,
            },
            each: None,
            status: 0,
            out: Vec::new(alloc),
            log: WantedLog::Text(Vec::new(alloc)),
        }
    }

    /// Whether some call is to fail, or to lack memory.
    pub fn has_failing_calls(&self) -> bool {
        !self.failing_reads.is_empty()
            || !self.failing_writes.is_empty()
            || !self.failing_entries.is_empty()
            || self.has_lacking_calls()
    }

    fn has_lacking_calls(&self) -> bool {
        self.lacking.store || self.lacking.out || self.lacking.log
    }

    /// Whether some file changes while the run goes on, is said to be gone, or has no end.
    pub fn has_changing_files(&self) -> bool {
        self.files.iter().any(|file| file.from > 1
            || matches!(file.source, Source::Endless(_) | Source::Gone))
    }
}
