//! A prover's output: the part of it that holds the derivation, and the status that it claims.
#![tactic(auto)]

mod line;
mod output;

pub use output::{claim, region};
