//! Subsumption: whether one substitution makes the literals of a clause literals of another, each at a place of its
//! own. Exact both ways.
#![tactic(auto)]

mod becoming;
mod bindings;
mod deciding;
mod laws;
mod masks;
mod matching;
mod placing;
mod screening;
mod task;

pub use deciding::subsumes;
pub use laws::{mask_of_subsumed, subsumed_by_empty, subsumer_of_instance, subsumes_its_instance};
pub use masks::{is_within, mask_of};
