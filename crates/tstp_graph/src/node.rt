// The nodes of a graph.
ghost use Rattle.std.specs.Prelude.{◌≡◌, ◌⊎◌, ◌+◌, ◌<◌, ◌≤◌, ◌^◌, [], length, IfOk, OnOk, IfErr, Err};
ghost use Rattle.tstp_graph.specs.code.Outcomes.{Yields};
ghost use Rattle.tstp_graph.specs.code.Meaning.{means_in};
ghost use Rattle.tstp_graph.specs.code.Nodes;
ghost use Rattle.tstp_graph.specs.code.Nodes.{IsStep, item_answer, line_answer, nodes_from};
ghost use Rattle.tstp_graph.specs.Nodes.{node_of as node_from};

use crate::GraphFault;
use crate::cite::Reading;
use crate::lines::is_typing;
use crate::meaning::resolve;
use crate::member::read_source;
use crate::scope::Scope;
use crate::shape::{Node, Ref};
use std::alloc::Global;
use tptp_base::{Annotated, Item, List, Name};

/// The nodes of the lines, or the first fault.
pub fn nodes_of(alloc: Global, scope: &Scope, items: &[Item]) -> Result<List<Node>, GraphFault>
    requires { length items.now < 2 ^ 32 }
    ensures nodes { Yields (nodes_from (means_in scope.now) 0 items.now []) result }
    ensures len { IfOk result (λ nodes. length nodes ≤ length items.now) }
{
    let mut nodes = List::new(alloc);
    let mut at = 0;
    for item in items {
        add_item(alloc, scope, at, item, &mut nodes)?;
        at += 1;
    }
    Ok(nodes)
}

// Adds the node of an item that stands behind so many others, if it has one.
fn add_item(
    alloc: Global,
    scope: &Scope,
    at: u32,
    item: &Item,
    nodes: &mut List<Node>,
) -> Result<(), GraphFault>
    requires { length nodes.old < 2 ^ 32 }
    ensures ok { OnOk result
        (IsStep (item_answer (means_in scope.now) at (length nodes.old) item.now) nodes.old nodes.new) }
    ensures err { IfErr result (λ fault. (fault ≡ GraphFault.Memory)
        ⊎ (item_answer (means_in scope.now) at (length nodes.old) item.now ≡ Err fault)) }
    ensures len { OnOk result (length nodes.new ≤ length nodes.old + 1) }
{
    match item_node(alloc, scope, at, nodes.len() as u32, item)? {
        Some(node) => Ok(nodes.push(node)?),
        None => Ok(()),
    }
}

// The node of an item, behind so many items and lines.
fn item_node(
    alloc: Global,
    scope: &Scope,
    at: u32,
    number: u32,
    item: &Item,
) -> Result<Option<Node>, GraphFault>
    ensures { Yields (item_answer (means_in scope.now) at number item.now) result }
{
    match item {
        Item::Comment(_) => Ok(None),
        Item::Include(include) => Err(GraphFault::Include(include.place)),
        Item::Formula(formula) => {
            let formula = formula.get();
            if is_typing(formula.role) {
                Ok(None)
            } else {
                line_node(alloc, scope, at, number, formula)
            }
        }
    }
}

// The node of the line of this number.
fn line_node(
    alloc: Global,
    scope: &Scope,
    at: u32,
    number: u32,
    formula: &Annotated,
) -> Result<Option<Node>, GraphFault>
    ensures { Yields (line_answer (means_in scope.now) at number formula.now) result }
{
    if !is_first(scope.lines.places(&formula.name), number) {
        return Err(GraphFault::DuplicateLine(formula.place, formula.name.copy(alloc)?));
    }
    let source = read_source(alloc, &formula.source)?;
    if !source.is_good {
        return Err(GraphFault::BadSource(formula.place, formula.name.copy(alloc)?));
    }
    let parents = resolve(alloc, scope, source.is_step, source.gives.as_slice())?;
    resolved_node(alloc, at, source.is_step, formula, parents)
}

// The node of a line whose parents are resolved.
fn resolved_node(
    alloc: Global,
    at: u32,
    is_step: bool,
    formula: &Annotated,
    parents: Result<List<Ref>, Name>,
) -> Result<Option<Node>, GraphFault>
    ensures { Yields (Nodes.resolved_line at formula.now is_step parents) result }
{
    match parents {
        Ok(parents) => Ok(Some(node_of(at, is_step, parents))),
        Err(parent) => unknown_parent(alloc, formula, parent),
    }
}

// The fault at a line that names a parent which means nothing.
fn unknown_parent(
    alloc: Global,
    formula: &Annotated,
    parent: Name,
) -> Result<Option<Node>, GraphFault>
    ensures { Yields (Err (GraphFault.UnknownParent formula.now.place formula.now.name parent)) result }
{
    let name = formula.name.copy(alloc)?;
    Err(GraphFault::UnknownParent(formula.place, name, parent))
}

// Whether the first of these places is this one.
fn is_first(places: &[u32], number: u32) -> bool
    ensures { result ≡ Nodes.is_first places.now number }
{
    match places {
        [] => false,
        [place, ..] => *place == number,
    }
}

// The node of a line whose source makes a step or a leaf, and whose parents are these.
fn node_of(item: u32, is_step: bool, parents: List<Ref>) -> Node
    ensures { result ≡ node_from item is_step parents }
{
    Node {
        item,
        leaf: !is_step,
        cited: !is_step && !parents.is_empty(),
        parents,
    }
}
