//! Clauses over numbered atoms are decided, by learning from conflicts.
#![tactic(auto)]

mod analysis;
mod clauses;
mod examining;
mod guide;
mod level;
mod literal;
mod marks;
mod narrowing;
mod order;
mod plan;
mod propagation;
mod restarts;
mod retreating;
mod solver;
mod standings;
mod trail;
mod trimming;
mod watches;

pub use clauses::Learned;
pub use literal::Literal;
pub use solver::{Outcome, solve};
