//! From a refutation to the lines of a derivation.
#![tactic(auto)]

mod clauses;
mod derivation;
mod lines;
mod naming;
mod needing;
mod placing;
mod plan;

pub use derivation::{Derivation, derivation_of};
