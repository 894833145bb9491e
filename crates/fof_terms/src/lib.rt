//! Formulas with bound variables as distances, and the signature that they speak of.
#![tactic(auto)]

mod directory;
mod equality;
mod form;
mod instances;
mod laws;
mod lifting;
mod making;
mod occurrence;
mod signature;
mod sorting;
mod symbols;
mod term;
mod variables;

pub use equality::{equal, equal_all, equal_term, equal_terms};
pub use form::{Form, SortId, copy_all};
pub use instances::{instance_of_term, instantiate, instantiate_at};
pub use laws::{instance_of_instance, lift_of_closed, lift_of_instance};
pub use lifting::{lift, lift_all, lift_term, lift_terms};
pub use occurrence::{occurs, occurs_in_one, occurs_in_term};
pub use signature::{Kind, MAX_SORTS, MAX_SYMBOLS, SigFault, Signature, Symbol};
pub use sorting::{
    MAX_BINDERS, MAX_VARIABLES, Scope, have_sorts, is_within, sort_of, well_sorted, well_sorted_in,
};
pub use symbols::{symbols_of, symbols_of_all, symbols_of_term, symbols_of_terms};
pub use term::{SymId, Term, copy_terms, weight};
pub use variables::{has_in_one, has_in_term, has_in_terms, has_variable};
