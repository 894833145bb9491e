use kernel::Entry;
use tptp_base::List;

/// A rule that gives a line from its parents.
#[derive(Clone, Copy, PartialEq, Eq)]
pub enum Rule {
    /// `norm`: a parent has the line's normal form.
    Norm,
    /// `cover`: the line covers a clause that some path reaches in the normal form of a parent.
    Cover,
    /// `tautology`: the line is a clause that is true by its form.
    Tautology,
    /// `resolution`: two literals of two parents become complementary, and the line covers what else the two have.
    Resolution,
    /// `paramodulation`: an equation of a parent rewrites one place in a literal of a parent, and the line covers the
    /// result and what else the two have.
    Paramodulation,
    /// `eqfactor`: two equations of a parent get one side in common, and their other sides are denied to be equal in
    /// place of the first.
    EqFactor,
    /// `rewrite`: a parent that is one equation rewrites all occurrences of one term in a parent, and the line covers
    /// the result.
    Rewrite,
    /// `split`: names stand in the line for parts of a parent, and other parents say what they stand for.
    Split,
    /// `skolem`: new functions stand in the line for the existential variables of a parent.
    Skolem,
    /// `definition`: the line says what a new symbol means.
    Definition,
    /// `choice`: the line says that new functions choose values, where there are any.
    Choice,
    /// `search`: no other rule gives the line, and it follows part by part from its parents, or with new functions in
    /// place of a parent's existential variables, or a search refutes the clauses of its parents and of its negation.
    Search,
    /// `sat`: no other rule gives the line, nor does a search, and the step is propositional and its parents entail it.
    Sat,
}

/// Why a line isn't verified. No reason says that functions with which it follows could not be found. `Dry`, `Full` and
/// `Heavy` also say that the step is not propositional, or that its parents do not entail the line.
#[derive(Clone, Copy, PartialEq, Eq)]
pub enum Reason {
    /// `dry`: the search made all clauses that are to be made, and none is empty.
    Dry,
    /// `full`: the search had as many clauses as its limit allows, and more to make.
    Full,
    /// `heavy`: what the search had left to make was too heavy.
    Heavy,
    /// `wide`: the step is too large for a search.
    Wide,
    /// `leaf`: a leaf that names no formula of the problem, and that no rule for leaves gives.
    Leaf,
}

/// The answer to one line of a derivation.
#[derive(Drop)]
pub enum StepAnswer {
    /// The first rule that gives the line or, where none does, `Search` or `Sat`; the numbers of the formulas of the
    /// theory that the line cites; and the entries that derive it, the last of which adds it.
    Accepted {
        rule: Rule,
        cites: List<u64>,
        entries: List<Entry>,
    },
    /// No rule gives the line, it does not follow part by part, no search refutes its clauses, and no decision does.
    Unverified(Reason),
}
