// Lines and the formulas that a problem gives.
use fof_terms::Form;
use tptp_base::{Name, Place, Role};

/// Which text the formulas are of.
#[derive(Clone, Copy, PartialEq, Eq)]
pub enum TextKind {
    /// A problem has at most one conjecture.
    Problem,
    Derivation,
}

/// A formula of a text, as what it denotes.
#[derive(Drop)]
pub struct Line {
    /// The number of its item in the text, from 0.
    pub item: u32,
    /// The place of its first token.
    pub place: Place,
    pub name: Name,
    pub role: Role,
    pub form: Form,
}

/// A formula that a problem gives to a derivation from it.
#[derive(Drop)]
pub struct GivenEntry {
    pub name: Name,
    pub role: Role,
    pub form: Form,
}
