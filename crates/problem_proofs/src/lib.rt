//! Proofs for problems: a search of the clauses of all given formulas, and the items of a derivation by the refutation
//! that it finds.
#![tactic(auto)]

mod parents;
mod printing;
mod proved;
mod proving;
mod refuting;

pub use limited_items::ProveFault;
pub use proved::{Proved, Why};
pub use proving::prove;
