//! Laws of the items of a derivation: their canonical text spells them.
#![tactic(auto)]

mod laws;

pub use laws::{
    a_canonical_text_spells_its_items, a_formula_is_spelled, type_lines_can_be_written,
    what_denotes_can_be_written,
};
