// What sources are read as.
use tptp_base::{List, Name};

/// A parent as a source names it.
#[derive(Drop)]
pub enum Cite {
    /// The line of this name, or the given formulas of this name.
    Named(Name),
    /// The given formulas of this name.
    Filed(Name),
}

/// What a general term is read as.
#[derive(Drop)]
pub struct Reading {
    /// The name that it is, where it is one.
    pub name: Option<Name>,
    /// Whether it is a list.
    pub is_list: bool,
    /// Whether it is well formed as a member, and so is each member that is read for it.
    pub is_good: bool,
    /// Whether a line of this source is a step.
    pub is_step: bool,
    /// Whether a source so written is read any further.
    pub is_read: bool,
    /// What it gives as a member.
    pub gives: List<Cite>,
}
