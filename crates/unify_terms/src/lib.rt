//! Most general unifiers of terms with sorts, and and-or goals over pairs of terms.
#![tactic(auto)]

mod attempt;
mod binding;
mod chosen;
mod classes;
mod equating;
mod goal;
mod images;
mod node;
mod order;
mod pair;
mod partition;
mod pending;
mod reversal;
mod scope;
mod showing;
mod solving;
mod sorting;
mod substitution;
mod unification;

pub use goal::Goal;
pub use pair::Pair;
pub use scope::Scope;
pub use solving::{Solution, solve};
pub use sorting::{are_sorted, is_sorted_goal};
pub use substitution::{Subst, apply};
pub use unification::unify;
