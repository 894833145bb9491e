//! The five inferences of ordered resolution and superposition: the most general clause that each makes at a place, and
//! all that follow from one clause or from two.
#![tactic(auto)]

mod admission;
mod agreeing;
mod concluding;
mod copying;
mod equation_factoring;
mod equation_resolution;
mod factoring;
mod laws;
mod made;
mod moving;
mod naming;
mod noting;
mod one_clause;
mod pairing;
mod resolution;
mod reversing;
mod sides;
mod superposition;
mod two_clauses;
mod used;

pub use admission::is_clause;
pub use equation_factoring::factor_equations_at;
pub use equation_resolution::resolve_equation_at;
pub use factoring::factor_at;
pub use laws::{
    best_inference_from_one, best_inference_from_two, best_of_renamed, conclusion_is_sorted,
};
pub use made::Made;
pub use one_clause::add_from_one;
pub use resolution::resolve_at;
pub use superposition::superpose_at;
pub use two_clauses::add_from_two;
pub use used::{Side, Spot, Used, used_of};
