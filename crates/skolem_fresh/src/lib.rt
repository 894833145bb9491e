//! The two rules that bring in new functions: a step that puts functions in place of a parent's existential variables,
//! and a line that says of new functions that they choose what there is. Each is recognised, and then taken apart into
//! entries that a kernel takes.
#![tactic(auto)]

mod choice;
mod choosing;
mod entries;
mod just;
mod leaves;
mod only;
mod opening;
mod reading;
mod renaming;
mod replacing;
mod skolem;
mod skolemizing;
mod telling;

pub use choice::choice_step;
pub use entries::choice_entries;
pub use just::{SkolemJust, Use};
pub use opening::value_of;
pub use renaming::rename;
pub use skolem::skolem_step;
pub use telling::chosen_part;
