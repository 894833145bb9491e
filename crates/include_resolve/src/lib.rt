//! Includes replaced: the items of a file and of all that it includes, or the first fault on the walk through the
//! files.
#![tactic(auto)]

mod fault;
mod law;
mod name_set;
mod names;
mod opened;
mod order;
mod path;
mod problem;
mod reading;
mod resolving;
mod selection;
mod spelling;

pub use fault::{IncludeFault, TextFault};
pub use law::{
    a_problem_is_within_what_was_read, all_includes_are_replaced, one_answer,
    only_tried_files_count, resolved_items_are_spelled,
};
pub use problem::{MAX_DEPTH, Problem, TOTAL_SIZE};
pub use resolving::resolve;
