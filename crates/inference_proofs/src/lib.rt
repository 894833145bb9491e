//! Proofs of inferences: a line that an inference of ordered resolution and superposition gives from its parents is a
//! step by a rule, and has a proof by that rule.
#![tactic(auto)]

mod covering;
mod inference;
mod laws;

pub use inference::step_proof;
pub use laws::inference_is_step;
