//! Steps that bring in a new symbol or replace parts of a clause by names: a line that defines a symbol, and a line in
//! which names stand for parts of a parent clause. Each with the entries by which a theory takes it.
#![tactic(auto)]

mod arguments;
mod arms;
mod covering;
mod defining;
mod definition;
mod entries;
mod just;
mod names;
mod proving;
mod renaming;
mod speaking;
mod split;
mod stages;
mod together;
mod valuing;

pub use definition::definition_step;
pub use entries::definition_entries;
pub use just::SplitJust;
pub use proving::split_entries;
pub use split::split_step;
