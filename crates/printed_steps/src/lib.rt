//! What follows from clauses follows from them as a derivation prints them: over functions with other numbers, and
//! without the sorts of variables that do not occur.
#![tactic(auto)]

mod inferences;
mod inputs;
mod laws;

pub use inferences::{inferred_from_one, inferred_from_two, printed_is_ready};
pub use inputs::given_is_covered;
pub use laws::{
    covering_is_step, listed_is_covered, reached_is_covered, renumbered_follow, trimmed_follow,
    variables_are_own,
};
