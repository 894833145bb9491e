//! Proofs of what follows by resolution: each clause as the fact that not all of its literals are false, shown from the
//! facts of the clauses that it was made from.
#![tactic(auto)]

mod context;
mod fact;
mod finishing;
mod known;
mod refuting;
mod stretching;

pub use fact::{Fact, all_false, denied_form, fact_at};
pub use finishing::stretch_proof;
pub use known::Known;
pub use stretching::{Step, Stretch, walk_back};
