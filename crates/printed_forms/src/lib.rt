//! Laws of the formulas that a derivation prints: none has a conjunction or a disjunction of one member.
#![tactic(auto)]

mod laws;

pub use laws::{
    a_clause_has_no_list_of_one, a_normal_form_has_no_list_of_one, new_functions_keep_lists,
    what_is_denoted_has_no_list_of_one, what_is_spelled_has_no_list_of_one,
};
