//! The check of a proof that is found and printed verifies all of it.
#![tactic(auto)]

mod laws;

pub use laws::{
    a_printed_proof_is_read, a_printed_proof_is_verified, a_problem_is_posed,
    a_proof_of_a_problem_is_verified, a_proof_text_claims_its_word,
};
