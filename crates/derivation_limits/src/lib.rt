//! What the limits on a derivation are asked of: how deeply its formulas nest, how many variables they bind, and totals
//! by name.
#![tactic(auto)]

mod names;
mod nesting;
mod totals;
mod variables;

pub use names::NameTotals;
pub use nesting::{MAX_NESTING, nests_within};
pub use totals::Totals;
pub use variables::{MAX_BOUND, bound_count};
