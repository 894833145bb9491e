//! The choice of functions of a line that take the places of a parent's existential variables, and the line by them.
#![tactic(auto)]

mod alike;
mod arguments;
mod atoms;
mod choice;
mod choosing;
mod finding;
mod laws;
mod lines;
mod matched;
mod order;
mod reading;
mod symbols;
mod told;

pub use choice::{Choice, choose_functions};
pub use laws::chosen_as_skolemized;
pub use lines::clausified;
