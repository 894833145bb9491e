//! Laws of what a problem gives: its names can be written, and its formulas have no list of one member.
#![tactic(auto)]

mod laws;

pub use laws::{a_problem_gives_names, a_problem_gives_no_list_of_one, a_problem_has_words};
