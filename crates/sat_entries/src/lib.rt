//! Entries that derive the line of a propositional step whose parents entail it, by a refutation of its clauses.
#![tactic(auto)]

mod deciding;
mod entries;
mod inputs;
mod learning;
mod naming;
mod propositional;
mod refuting;

pub use deciding::decide_step;
pub use entries::sat_entries;
pub use propositional::is_propositional_step;
