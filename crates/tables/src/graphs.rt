// The graphs of derivations.
use crate::scene::items_of;
use crate::shown::push_numbers;
use std::alloc::{AllocError, Global};
use tptp_base::{Item, List, Name, Text};
use tstp_graph::{Graph, Node, Ref, graph};

/// The answer of the call `graph`, over the given formulas a, b and b: each line as a leaf or a step, with what it is
/// from, and at last the order of checking. Lines are told by their numbers, from 0, and so are given formulas, behind
/// `given`. A part is `NAME`, `NAME from SOURCE` or `NAME type`, a type line.
pub fn found(alloc: Global, parts: &[&str]) -> Option<String> {
    let derivation = derivation(alloc, parts).ok()?;
    let items = items_of(alloc, derivation.as_str())?;
    of_items(alloc, items.as_slice())
}

fn derivation(alloc: Global, parts: &[&str]) -> Result<String, AllocError> {
    let mut derivation = String::new(alloc);
    for part in parts {
        push_line(&mut derivation, part)?;
    }
    Ok(derivation)
}

fn push_line(out: &mut String, part: &str) -> Result<(), AllocError> {
    if let Some((name, source)) = part.split_once(" from ") {
        return write!(out, "cnf({name},plain,p,{source}).");
    }
    match part.strip_suffix(" type") {
        Some(name) => write!(out, "tff({name},type,{name}: $i)."),
        None => write!(out, "cnf({part},plain,p)."),
    }
}

fn of_items(alloc: Global, items: &[Item]) -> Option<String> {
    let given = given(alloc).ok()?;
    if items.len() > 1000 || given.len() > 1000 {
        return None;
    }
    let graph = graph(alloc, items, given.as_slice()).ok()?;
    shown(alloc, &graph).ok()
}

fn given(alloc: Global) -> Result<List<Name>, AllocError> {
    let mut names = List::new(alloc);
    for text in [b"a", b"b", b"b"] {
        names.push(Name::Word(Text::from_slice(alloc, text)?))?;
    }
    Ok(names)
}

fn shown(alloc: Global, graph: &Graph) -> Result<String, AllocError> {
    let mut out = String::new(alloc);
    push_graph(&mut out, graph)?;
    Ok(out)
}

fn push_graph(out: &mut String, graph: &Graph) -> Result<(), AllocError> {
    for node in graph.nodes.as_slice() {
        push_node(out, node)?;
    }
    out.push_str("order ")?;
    push_numbers(out, graph.order.as_slice())?;
    out.pop();
    Ok(())
}

fn push_node(out: &mut String, node: &Node) -> Result<(), AllocError> {
    out.push_str(if node.leaf { "leaf" } else { "step" })?;
    if node.cited {
        out.push_str(" cited")?;
    }
    for parent in node.parents.as_slice() {
        push_parent(out, parent)?;
    }
    out.push_str("; ")
}

fn push_parent(out: &mut String, parent: &Ref) -> Result<(), AllocError> {
    match parent {
        Ref::Line(number) => write!(out, " {number}"),
        Ref::Given(number) => write!(out, " given {number}"),
    }
}
