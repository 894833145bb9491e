//! What the rules say that are recognised by their shape: which lines follow from which parents, what shows it, and the
//! formulas and clauses that they speak of.
#![tactic(auto)]

mod joint;
mod just;
mod keeping_apart;
mod laws;
mod places;
mod position;
mod ready;
mod replacing;
mod scopes;

pub use joint::{Joint, join, join_one, kept_apart};
pub use just::Just;
pub use keeping_apart::apart;
pub use laws::what_is_shown_holds;
pub use places::{places_of_lit, put_in, term_in};
pub use position::Position;
pub use ready::{MAX_QUANTIFIERS, are_ready, is_ready};
pub use replacing::replace_in_lits;
pub use scopes::{reversed, scope_of_clause, with_one};
