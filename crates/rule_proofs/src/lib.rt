//! Proofs of lines: by what shows that a rule gives a line from its parents, a proof of the line from them. The rules are
//! those that go by the shape of clauses.
#![tactic(auto)]

mod eqfactor;
mod paramodulation;
mod proving;
mod resolution;
mod rewrite;
mod rewriting;
mod tautology;

pub use proving::clause_proof;
pub use tautology::trivial;
