//! Proofs between a formula and its normal form, in both directions, and from a normal form to each clause that a path
//! reaches in it.
#![tactic(auto)]

mod applying;
mod arms;
mod bounds;
mod connecting;
mod connectives;
mod effort;
mod joins;
mod links;
mod narrowing;
mod normal;
mod norms;
mod paths;
mod steps;
mod widening;

pub use applying::apply;
pub use arms::reversed;
pub use narrowing::{Narrowed, Rest, narrow_along, whole_path};
pub use norms::{norm_back, norm_forth};
pub use paths::path_proof;
pub use widening::{general, near};
