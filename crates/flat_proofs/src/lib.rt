//! Proofs between a formula and its flat form, in both directions.
#![tactic(auto)]

mod denying;
mod flats;
mod gathering;
mod halving;
mod instances;
mod laws;
mod leading;
mod linking;
mod members;
mod moving;
mod turning;

pub use flats::{flat_back, flat_forth};
pub use laws::variables_stand;
