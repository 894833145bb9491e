//! How the lines of a derivation that `prove` finds stand: their names differ, each names lines before it, and its
//! items have a graph.
#![tactic(auto)]

mod laws;

pub use laws::{
    items_alike_have_one_graph, lines_are_linked, linked_lines_have_a_graph,
    linked_lines_have_room, linked_lines_have_their_sources, linked_names_differ,
};
