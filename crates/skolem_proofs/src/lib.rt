//! Lines that put new functions in place of a parent's existential variables: the entries by which the functions come
//! in, and the proof that leads from the parent to the line.
#![tactic(auto)]

mod arms;
mod entries;
mod existentials;
mod whole;
mod witnessing;

pub use entries::skolem_entries;
pub use whole::{Skolemized, skolem_proof};
