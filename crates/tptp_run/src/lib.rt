//! The call that `tptp` makes: words, files and sinks in, a status out.
#![tactic(auto)]

mod counts;
mod laws;
mod make;
mod prove;
mod report;
mod run;
mod verify;

pub use counts::a_parse_counts_formulas;
pub use laws::{
    a_check_is_exact, a_model_is_exact, a_proof_is_verified, a_verified_log_checks,
    contradictory_axioms_need_no_conjecture, format_has_one_ending, parse_has_one_ending,
    verify_has_one_ending, what_is_given_is_one, words_ask_for_one_request,
};
pub use run::{USAGE, run_tptp};
