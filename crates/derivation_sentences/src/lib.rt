//! What the items of a derivation denote: its lines, over the vocabulary of the problem with its new functions.
#![tactic(auto)]

mod laws;

pub use laws::{
    items_denote_lines, lines_are_sorted, places_change_no_formula, read_items_denote_lines,
    read_lines_tell,
};
