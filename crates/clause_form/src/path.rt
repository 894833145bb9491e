use fof_terms::Form;
use tptp_base::{Boxed, List};

/// A way through a normal form: one member at each conjunction, all members at each disjunction, through universal
/// quantifiers and never through existential ones.
#[derive(Drop)]
pub enum Path {
    /// A literal is reached.
    Leaf,
    /// Of a conjunction the member of that number, counted from 0.
    Pick(u32, Boxed<Path>),
    /// All members of a disjunction, in order.
    Each(List<Path>),
    /// Through a universal quantifier.
    Under(Boxed<Path>),
}

/// A formula from which a step is taken, and its number.
#[derive(Drop)]
pub struct Parent {
    pub number: u64,
    pub form: Form,
}
