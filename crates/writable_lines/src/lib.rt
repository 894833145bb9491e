//! Laws of the lines of a derivation that is found: a text can write them.
#![tactic(auto)]

mod laws;

pub use laws::{
    a_derivation_has_words, a_derivation_is_spelled, a_proof_is_spelled, items_can_be_written,
    lines_have_names, no_line_has_a_list_of_one, written_names_are_names,
};
