//! Of a derivation each line of which some rule gives: that it is good cannot be refuted.
#![tactic(auto)]

mod laws;

pub use laws::{
    a_found_derivation_is_good, a_found_derivation_makes_a_good_case,
    a_printed_derivation_makes_a_good_case, given_lines_are_good, inferred_lines_apply,
    needed_members_are_fit, some_leaf_rule_is_first, some_rule_is_first, steps_of_both_kinds_apply,
    the_word_of_a_proof_is_justified,
};
