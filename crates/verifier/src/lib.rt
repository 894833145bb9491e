//! The lines of a derivation are run in the theory of its problem: each is accepted by a rule, with entries that go to
//! the log, or is not verified, or is skipped; and the last entry of the whole.
#![tactic(auto)]

mod answer;
mod closing;
mod declarations;
mod entries;
mod falsehood;
mod fault;
mod laws;
mod line;
mod lines;
mod parents;
mod run;

pub use answer::{LineAnswer, Verdict};
pub use closing::close_log;
pub use declarations::declare;
pub use falsehood::has_false;
pub use fault::RunFault;
pub use laws::{
    a_good_derivation_has_room, a_good_derivation_is_accepted, a_line_cites_what_is_said,
    a_run_cites_what_its_lines_cite, a_run_has_one_report, a_run_speaks_of_its_lines,
    a_verified_run_refutes, an_accepted_derivation_is_good,
};
pub use run::{Outcome, run_lines};
