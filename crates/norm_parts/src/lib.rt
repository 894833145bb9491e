//! Lines that follow part by part: the parts of a normal form, what shows each, and proofs of the line from them.
#![tactic(auto)]

mod candidates;
mod choosing;
mod deciding;
mod instances;
mod joining;
mod members;
mod proving;
mod splitting;
mod together;

pub use deciding::by_parts;
pub use joining::line_of_parts;
pub use proving::{line_by_parts, shown_by_parts};
pub use splitting::{copy_path, parts};
