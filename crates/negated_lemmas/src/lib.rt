//! Lemmas under the negation of a line: what follows from it, each an implication of its own, and at last the line.
#![tactic(auto)]

mod carrying;
mod laws;
mod lemmas;
mod nodes;

pub use laws::implied_facts_speak_alike;
pub use lemmas::{by_falsehood, lemmas_of_refutation, under_negation};
