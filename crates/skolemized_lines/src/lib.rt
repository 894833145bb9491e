//! Laws of the lines that a derivation has of given formulas: those with new functions, and clauses.
#![tactic(auto)]

mod laws;

pub use laws::steps_from_given_formulas_apply;
