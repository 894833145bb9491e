//! From a refutation that a search hands out to entries.
#![tactic(auto)]

mod bodies;
mod contradicting;
mod declaring;
mod ending;
mod entries;
mod falsehood;
mod formula;
mod members;
mod merging;
mod needing;
mod opposing;
mod placing;
mod refuting;
mod wanting;

pub use entries::refutation_entries;
pub use falsehood::falsehood_by;
pub use needing::needed_members;
pub use placing::{further, place_all};
