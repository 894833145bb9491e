// Derivations.
use fof_terms::Form;
use tptp_base::{List, Name, Place};
use tstp_graph::Graph;

/// A derivation: its graph, and the name, the place and the formula of each node.
#[derive(Drop)]
pub struct Derivation {
    pub graph: Graph,
    pub names: List<Name>,
    /// Where the first token of each line stands in the text.
    pub places: List<Place>,
    /// What each line stands for: what it denotes, but denied where its role is conjecture.
    pub forms: List<Form>,
}
