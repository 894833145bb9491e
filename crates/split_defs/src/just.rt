use fof_terms::SymId;
use tptp_base::List;
use unify_terms::Subst;

/// What shows that a line is a step by one of these rules. Parents are named by their numbers, counted from 0.
#[derive(Drop)]
pub enum SplitJust {
    /// Under its quantifiers the line defines the symbol, which stands first or second there.
    Definition {
        symbol: SymId,
        first: bool,
    },
    /// The line has names for parts of the parent, and these other parents say what the names stand for. The
    /// substitution has the images of the variables of the parts, those of the last definition first, then of the
    /// line's variables, all of which stand for themselves, and then of the parent's variables.
    Split {
        parent: usize,
        definitions: List<usize>,
        subst: Subst,
    },
}
