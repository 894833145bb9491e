//! The text of a derivation: the part of a prover's output that holds it is read, and gives the graph of the lines and
//! what each line stands for, or the first fault.
#![tactic(auto)]

mod derivation;
mod fault;
mod law;
mod lines;
mod reading;
mod text;

pub use derivation::Derivation;
pub use fault::DerivationFault;
pub use law::{
    a_derivation_is_within_its_text, brought_by_the_derivation, one_derivation_or_fault,
};
pub use reading::read_derivation;
