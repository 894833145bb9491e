//! Natural deduction over many-sorted formulas: proofs, what they show, and entries that a theory grows by.
#![tactic(auto)]

mod entry;
mod laws;
mod proof;

pub use entry::{Decl, Entry};
pub use laws::a_proof_shows_one_formula;
pub use proof::Proof;
