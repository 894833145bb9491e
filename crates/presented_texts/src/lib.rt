//! Laws of the text that presents a derivation: it spells the items.
#![tactic(auto)]

mod laws;

pub use laws::a_proof_text_spells_its_items;
