//! Lines that take a parent's existential quantifiers away: they follow part by part from a parent with new functions
//! in place of its existential variables, and from the parents. The functions are given.
#![tactic(auto)]

mod entries;

pub use entries::clausified_by;
