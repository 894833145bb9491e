//! Clauses, and lists of terms, in few bytes.
#![tactic(auto)]

mod building;
mod imaging;
mod packing;
mod piece;
mod reading;
mod writing;

pub use packing::{PackedClause, PackedTerms};
