//! Weights of terms, literals and clauses, the Knuth-Bendix order, and the literals that inferences use.
#![tactic(auto)]

mod comparison;
mod counting;
mod eligibility;
mod exceeding;
mod laws;
mod weighing;

pub use comparison::{Compare, Sides, is_greater, kbo_compare, sides_not_less};
pub use eligibility::eligible;
pub use exceeding::exceeds;
pub use laws::{order_is_strict, weight_of_instance};
pub use weighing::{clause_weight_of, lit_weight_of};
