//! The search for substitutions under which a line covers clauses: the ways in which literals can be covered, tests
//! that tell early that there is no way, and the unifiers that settle the goals.
#![tactic(auto)]

mod chances;
mod guess;
mod heads;
mod matching;
mod naming;
mod narrow;
mod opening;
mod reaching;
mod screening;
mod search;
mod taking;
mod ways;

pub use guess::{first_target, no_guess};
pub use matching::may_meet;
pub use opening::open;
pub use reaching::may_reach;
pub use screening::{
    may_all_be_covered, may_all_become, may_be_covered, may_be_pivot, may_clash,
    may_others_be_covered,
};
pub use search::{
    clauses_of_parents, settle, settle_beside, settle_covers, settle_narrowed, solution_of,
};
pub use taking::{Reached, reached_by};
pub use ways::{all_covered, alone, ways_to};
