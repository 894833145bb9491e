//! Clauses and the names of functions, as a derivation prints them.
#![tactic(auto)]

mod marking;
mod prefixes;
mod renumbering;
mod trimming;

pub use marking::{mark, unmarked};
pub use prefixes::free_prefix;
pub use renumbering::renumber;
pub use trimming::trim;
