//! Formulas over a signature, as a text in the TPTP language writes them.
#![tactic(auto)]

mod formulas;
mod names;
mod terms;

pub use formulas::surface_of;
