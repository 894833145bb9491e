//! Which symbols entries mention: those that stand inside their proofs, and not only in the formulas that they add.
#![tactic(auto)]

mod laws;

pub use laws::{
    a_most_general_unifier_has_the_symbols_of_its_pairs, a_run_mentions_what_is_declared,
    an_accepted_line_speaks_inside_where_others_may_change,
    an_accepted_line_tells_of_what_it_cites, legal_entries_mention_what_is_declared,
    what_is_shown_wherever_has_its_symbols,
};
