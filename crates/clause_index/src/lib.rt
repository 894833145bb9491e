//! Indexes of terms: which entries may have an instance in common with a term.
#![tactic(auto)]

mod blind;
mod entry;
mod heads;
mod index;
mod keys;
mod laws;
mod partners;
mod places;

pub use blind::BlindIndex;
pub use entry::Entry;
pub use index::Index;
pub use keys::{Key, Keys, do_clash, keys_of};
pub use laws::{equal_instances_are_told, equal_instances_do_not_clash, keys_of_terms_apart};
pub use partners::Partners;
