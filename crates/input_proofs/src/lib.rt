//! Proofs of the clauses that a step is searched with, and the entries by which the functions come in of which they
//! speak.
#![tactic(auto)]

mod forms;
mod laws;
mod opening;
mod pending;

pub use laws::view_of_formula;
pub use opening::{OpenedInputs, open_inputs};
