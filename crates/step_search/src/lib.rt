//! A search for a refutation of the clauses of a step, and entries that derive the line by it.
#![tactic(auto)]

mod grown;
mod outcome;
mod searching;

pub use grown::with_functions;
pub use outcome::Searched;
pub use searching::searched;
