//! Flat forms: in the normal form of a formula, universal quantifiers that stand under no existential one move outwards,
//! in the order in which their variables occur first.
#![tactic(auto)]

mod closing;
mod flattening;
mod laws;
mod numbering;
mod ordering;
mod pulling;

pub use closing::{close_over, closed_by, numbers_of, sorts_in};
pub use flattening::{flat, flatten};
pub use laws::{flat_is_normal, flat_of_flat, one_flat_of_one_norm};
pub use numbering::renumber;
pub use ordering::order_of;
pub use pulling::{Pulled, pull};
