//! The rules by which a line follows from its parents that are recognised by their shape: from each, a justification
//! with the literals, places and substitutions that show it, or none exactly where the rule does not hold.
#![tactic(auto)]

mod beside;
mod clause_rule;
mod cover_rule;
mod eqfactor_rule;
mod norm_rule;
mod outline;
mod paramodulating;
mod paramodulation_rule;
mod recognising;
mod resolution_rule;
mod rewrite_rule;
mod search;
mod sides;
mod site_rule;
mod sites;
mod tautology_rule;

pub use cover_rule::{cover_clause, cover_step};
pub use eqfactor_rule::eqfactor_step;
pub use norm_rule::{first_norm, norm_step};
pub use paramodulation_rule::paramodulation_step;
pub use recognising::recognise;
pub use resolution_rule::resolution_step;
pub use rewrite_rule::rewrite_step;
pub use tautology_rule::tautology_step;
