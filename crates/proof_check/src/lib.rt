//! What a proof concludes, and theories that grow by it.
#![tactic(auto)]

mod chain;
mod closing;
mod context;
mod deduction;
mod fault;
mod finding;
mod joint;
mod marks;
mod nodes;
mod quantifier_nodes;
mod quantifiers;
mod rules;
mod theory;
mod views;

pub use context::{Context, Hypotheses};
pub use deduction::conclude;
pub use fault::AdmitFault;
pub use theory::Theory;
