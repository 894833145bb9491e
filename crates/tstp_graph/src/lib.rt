//! The graph of a derivation: what each line cites as its parents, and an order in which the lines can be checked.
#![tactic(auto)]

mod cite;
mod fault;
mod law;
mod lines;
mod meaning;
mod member;
mod names;
mod node;
mod order;
mod queue;
mod record;
mod refs;
mod scope;
mod shape;
mod whole;
mod word;

pub use fault::GraphFault;
pub use law::one_graph_or_fault;
pub use shape::{Graph, Node, Ref};
pub use whole::graph;
