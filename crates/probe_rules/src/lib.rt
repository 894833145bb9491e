//! Calls that handle terms, proofs and rules, each under the contract that it has in its own crate. An edit of a body
//! here shows that the contract refuses what the edit answers.
#![tactic(auto)]

mod clauses;
mod norms;
mod proving;
mod skolems;
mod splits;
mod steps;
mod terms;
mod theories;
mod unifying;

pub use clauses::Clauses;
pub use norms::Norms;
pub use proving::Proving;
pub use skolems::Skolems;
pub use splits::Splits;
pub use steps::Steps;
pub use terms::Terms;
pub use theories::Theories;
pub use unifying::Unifying;

/// The calls as they are. The edits in must-fail/ change these bodies.
pub struct Probe;

/// The same answers by other bodies. These stay proved, so that a refusal is no want of proof.
pub struct Control;
