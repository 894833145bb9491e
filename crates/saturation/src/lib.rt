//! A search for the empty clause that always takes the lightest clause that is open.
#![tactic(auto)]

mod admission;
mod asking;
mod covering;
mod entering;
mod given;
mod inferences;
mod inferring;
mod joining;
mod known;
mod member;
mod offers;
mod outcome;
mod pairing;
mod queue;
mod saturation;
mod sifting;
mod superposition;
mod turning;
mod waiting;
mod weighing;

pub use admission::are_searchable;
pub use inferences::Inferences;
pub use member::{Member, Origin};
pub use outcome::Outcome;
pub use saturation::{search, search_by};
pub use superposition::Superposition;
