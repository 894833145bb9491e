//! Propositional clauses are decided: a refutation by resolution, or a valuation.
#![tactic(auto)]

mod atoms;
mod decision;
mod laws;
mod numbering;
mod reading;

pub use atoms::key_of;
pub use decision::{Decision, Learned, decide};
pub use laws::{
    norms_are_true_by_their_clauses, propositional_steps_are_decided,
    refuted_clauses_have_no_valuation,
};
