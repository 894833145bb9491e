//! The items of a derivation, where it keeps the limits on derivations and there is room for each line; and whether its
//! lines are inferred from formulas that are small enough for the rules.
#![tactic(auto)]

mod fault;
mod items;
mod premises;
mod room;
mod wanted;

pub use fault::ProveFault;
pub use items::items_within;
pub use premises::have_small_premises;
