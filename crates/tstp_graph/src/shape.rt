// Graphs.
use tptp_base::List;

/// What a line is from: another line, or a given formula, each by its number in its list.
#[derive(Clone, Copy, PartialEq, Eq, Hash)]
pub enum Ref {
    /// The node of this number.
    Line(u32),
    /// The given formula of this number.
    Given(u32),
}

/// A line of a derivation.
#[derive(Drop)]
pub struct Node {
    /// Where the line stands among the items, from 0.
    pub item: u32,
    /// Whether it is taken from the problem.
    pub leaf: bool,
    /// Whether it names the given formulas that it is taken from. Its parents are then these.
    pub cited: bool,
    /// What it is from, each once, in the order in which they appear.
    pub parents: List<Ref>,
}

/// The lines of a derivation in the order of the text, and the order in which they can be checked: it takes repeatedly
/// the first line whose parents are all taken.
#[derive(Drop)]
pub struct Graph {
    pub nodes: List<Node>,
    pub order: List<u32>,
}
