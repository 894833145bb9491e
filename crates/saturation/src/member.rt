use clause_form::Clause;
use unify_terms::Subst;

/// Where a clause comes from.
#[derive(Drop)]
pub enum Origin {
    /// The input of this number.
    Input(u32),
    /// An inference from the two members of these numbers. One from a single member names it twice. The images are
    /// those of the first member's variables, variable 0 first, and then those of the second's.
    Inferred(u32, u32, Subst),
}

/// A clause with its origin.
#[derive(Drop)]
pub struct Member {
    pub clause: Clause,
    pub origin: Origin,
}
