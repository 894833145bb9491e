//! From a step of a derivation to entries of the kernel: the first rule by which the line follows from its parents, or
//! else its parts, new functions or a search, and entries that derive the line from them.
#![tactic(auto)]

mod answer;
mod leaves;
mod naming;
mod searching;
mod steps;

pub use answer::{Reason, Rule, StepAnswer};
pub use leaves::leaf;
pub use steps::step;
