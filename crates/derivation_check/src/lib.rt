//! A derivation is checked in the theory of its problem: its lines are run, the log is written, and the report is made.
#![tactic(auto)]

mod checking;
mod claiming;
mod counting;
mod ending;
mod ending_text;
mod laws;
mod names;
mod reporting;
mod running;
mod writing;

pub use checking::{Asked, Report, check_derivation};
pub use claiming::{Claim, cites_marked, is_justified, status_of};
pub use ending::verdict;
pub use laws::{
    a_check_has_one_report, a_good_case_has_room, a_good_case_is_verified, a_verified_case_is_good,
    a_verified_derivation_refutes, a_verified_log_can_be_read, no_conjecture_is_cited,
    one_verdict_applies,
};
pub use writing::{write_end, write_line};
