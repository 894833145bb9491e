//! What the formulas of a text denote: the first fault against the rules of sorts, or formulas with bound variables as
//! distances over a signature. Also the formulas that a problem gives to its derivation.
#![tactic(auto)]

mod again;
mod binding;
mod clauses;
mod declarations;
mod denotation;
mod fault;
mod formulas;
mod front;
mod giving;
mod heads;
mod in_turn;
mod law;
mod line;
mod names;
mod namesakes;
mod progress;
mod room;
mod scope;
mod seen;
mod symbols;
mod terms;
mod turns;
mod variables;

pub use again::Again;
pub use denotation::denote;
pub use fault::{SortFault, SortRule};
pub use front::copy_signature;
pub use giving::{give_all, given};
pub use in_turn::InTurn;
pub use law::{lines_are_no_larger, named_by_the_text, one_answer, places_change_nothing};
pub use line::{GivenEntry, Line, TextKind};
pub use progress::Denoted;
