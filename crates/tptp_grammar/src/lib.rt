//! The grammar of the TPTP language: the items that a list of tokens spells, and the first token at which no text
//! goes on.
#![tactic(auto)]

mod clauses;
mod cursor;
mod fault;
mod formulas;
mod general;
mod items;
mod law;
mod lists;
mod reading;
mod sorts;
mod stop;
mod taker;
mod terms;
mod tested;
mod typed_clauses;
mod words;

pub use fault::GrammarFault;
pub use law::{items_are_within_their_text, names_are_quotable, one_answer, one_list_of_items};
pub use reading::{parse, parse_into};
pub use taker::Taker;
pub use tested::{ItemsLeft, items_left};
