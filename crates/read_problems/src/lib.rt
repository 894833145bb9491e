//! Problems, read from a store with all that they include: what they denote and what they give, or what is said of their
//! first fault.
#![tactic(auto)]

mod again;
mod denotations;
mod denoted;
mod given;
mod posed;
mod refusals;
mod resolved;
mod saying;
mod sources;
mod spelled;
mod stop;
mod taking;
mod text_items;

pub use denotations::{Denotation, read_denotation};
pub use denoted::{Meaning, read_meaning, say_of_line};
pub use given::{Given, read_given};
pub use posed::{Posed, read_posed};
pub use refusals::{TOTAL_SIZE, read_text};
pub use resolved::read_files;
pub use saying::{over_limit, say_at, say_of_file};
pub use sources::{Source, read_source, source_of};
pub use spelled::{print_text, say_grammar_fault, say_lex_fault};
pub use stop::{Answer, Halt, Stop};
