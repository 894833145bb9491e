// The lines of a derivation in memory.
use clause_form::Parent;
use fof_terms::Form;
use tstp_graph::Node;

/// The lines of a derivation, with what they are over.
#[derive(Clone, Copy)]
pub struct Lines<'a> {
    /// The given formulas, each with its place as its number.
    pub given: &'a [Parent],
    /// The nodes of the graph, in the order of the text.
    pub nodes: &'a [Node],
    /// The formula of each node.
    pub forms: &'a [Form],
    /// How many clauses a search keeps at most.
    pub limit: u32,
}
