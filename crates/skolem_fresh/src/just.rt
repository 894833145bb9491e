use fof_terms::{SortId, SymId};
use tptp_base::List;

/// A new function in place of an existential variable.
#[derive(Drop)]
pub struct Use {
    /// The function.
    pub function: SymId,
    /// The variables that it is applied to, in order. Variable 0 is that of the nearest universal quantifier around the
    /// place where the existential one stood.
    pub variables: List<u32>,
    /// The sort of the variable that gives way.
    pub sort: SortId,
}

/// What shows that a line brings in new functions as a rule says.
#[derive(Drop)]
pub enum SkolemJust {
    /// The parent of that number, counted from 0, and a function for each existential quantifier of its normal form,
    /// from the left.
    Skolem { parent: usize, uses: List<Use> },
    /// A function for each of the existential variables that occur, the outermost first.
    Choice { uses: List<Use> },
}
