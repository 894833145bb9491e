//! The text of a log: how kernel entries are written, one line an entry, and read back.
#![tactic(auto)]

mod checking;
mod cursor;
mod entry_reader;
mod form_reader;
mod forms;
mod laws;
mod line;
mod log_check;
mod log_entries;
mod name;
mod proof_reader;
mod proofs;
mod quoted;
mod reader;
mod room;
mod rule_names;
mod stop;
mod term_reader;
mod words;
mod write;

pub use checking::{CheckFault, check_entries};
pub use laws::{a_log_begins_a_log, entries_make_one_theory, one_text_is_of_one_log};
pub use log_check::{LogCheckFault, check_log};
pub use log_entries::LogEntries;
pub use reader::{LogFault, MAX_NESTING, read_log};
pub use write::{HEADER, write_entry, write_header};
