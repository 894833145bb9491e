//! The items of a derivation: type lines, and formulas with their sources.
#![tactic(auto)]

mod items;
mod line;
mod sources;
mod typings;
mod words;

pub use items::line_item;
pub use line::{LineSource, ProofLine};
pub use typings::typing_items;
pub use words::numbered;
