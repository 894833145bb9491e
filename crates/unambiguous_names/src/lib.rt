//! Vocabularies in which a name says what it means: that of a problem, and that of a derivation with its new functions.
#![tactic(auto)]

mod laws;

pub use laws::{
    a_derivation_is_unambiguous, new_functions_are_unambiguous, what_is_denoted_is_unambiguous,
};
