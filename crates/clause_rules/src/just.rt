use crate::position::Position;
use clause_form::Path;
use fof_terms::Term;
use unify_terms::Subst;

/// What shows that a step is an instance of a rule. Parents and literals are named by their numbers, counted from 0; a
/// literal's number is its place in the clause that the parent is. Each substitution has the images of the line's
/// variables, which stand for themselves, and then those of the variables of the parents that the variant names, in
/// that order; the variables of a clause are numbered from the innermost.
#[derive(Drop)]
pub enum Just {
    /// The parent has the line's flat form.
    Norm {
        parent: usize,
    },
    /// The line covers what the path reaches in the parent's normal form. The substitution has the variables of the
    /// path's clause in place of the parent's.
    Cover {
        parent: usize,
        path: Path,
        subst: Subst,
    },
    /// The line is true by its form.
    Tautology,
    /// Two literals become complementary.
    Resolution {
        left: usize,
        right: usize,
        left_lit: usize,
        right_lit: usize,
        subst: Subst,
    },
    /// The left side of an equation of `from`, read from right to left where flipped, becomes the term at a place of a
    /// literal of `into`, and the right side takes its place.
    Paramodulation {
        into: usize,
        from: usize,
        into_lit: usize,
        at: Position,
        from_lit: usize,
        flipped: bool,
        subst: Subst,
    },
    /// The left sides of two equations become one, and the right sides are denied to be equal in place of the first.
    EqFactor {
        parent: usize,
        first: usize,
        first_flipped: bool,
        second: usize,
        second_flipped: bool,
        subst: Subst,
    },
    /// The left side of the one equation `by` is the target under `by_subst`, whose variables are those of `into`,
    /// which stand for themselves, and then those of `by`. The right side takes the place of each occurrence.
    Rewrite {
        into: usize,
        by: usize,
        target: Term,
        flipped: bool,
        by_subst: Subst,
        subst: Subst,
    },
}
