use tptp_base::{Item, List};

/// What comes of a problem.
#[derive(Drop)]
pub enum Proved {
    /// The items of a derivation of falsehood from what the problem gives.
    Proof(List<Item>),
    /// No derivation.
    Open(Why),
}

/// Why there is no derivation.
#[derive(Clone, Copy, Debug, PartialEq, Eq)]
pub enum Why {
    /// Each clause that is to be made is made, and none is empty.
    Dry,
    /// There are as many clauses as the limit allows, and more to come.
    Full,
    /// What is left to make is too heavy.
    Heavy,
    /// The given formulas are too large for a search, or a clause of the refutation is too large for the rules.
    Wide,
}
