//! The canonical text of items: one text for each list of items, whatever text they came from.
#![tactic(auto)]

mod formulas;
mod general;
mod items;
mod law;
mod parsed;
mod printed;
mod terms;
mod words;
mod write;

pub use law::{one_reading, one_text, read_again, read_only, reads_back};
pub use parsed::print_parsed;
pub use printed::{print, print_formula, print_general, print_name};
pub use write::write_name;
