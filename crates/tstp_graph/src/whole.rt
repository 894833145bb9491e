// The graph of a derivation.
ghost use Rattle.std.specs.Prelude.{◌≡◌, ◌⊎◌, ◌<◌, ◌^◌, length, IfOk, IfErr};
ghost use Rattle.tstp_graph.specs.code.Meaning.{means_in};
ghost use Rattle.tstp_graph.specs.Order.{IsOrder, is_taken, first_left};
ghost use Rattle.tstp_graph.specs.Graphs.{IsGraph, IsOrdered, IsFault, IsCycleIn, IsCycleOf, IsCycleAt, LeavesOne};
ghost use Rattle.tstp_graph.specs.code.Graphs.{AreLines, IsFaultBy, IsFormula, IsFormulaAt, IsGraphBy};

use crate::GraphFault;
use crate::lines::{MOST_FORMULAS, formula_count};
use crate::node::nodes_of;
use crate::order::{Ordered, order_of};
use crate::scope::{Scope, scope_of};
use crate::shape::{Graph, Node};
use sqlite_items::at;
use std::alloc::Global;
use tptp_base::{Annotated, Item, LimitName, List, Name};

/// The graph of a derivation over a problem whose given formulas have these names. A fault comes exactly where it
/// holds and none before it does: `Limit(Lines)` where there are more than 1,048,576 formulas; then, item by item,
/// `Include`, `DuplicateLine`, `BadSource` and `UnknownParent`; at last `Cycle` at the first line that is never taken.
pub fn graph(alloc: Global, items: &[Item], given: &[Name]) -> Result<Graph, GraphFault>
    requires items { length items.now < 2 ^ 32 }
    requires given { length given.now < 2 ^ 32 }
    ensures graph { IfOk result (IsGraph items.now given.now) }
    ensures fault { IfErr result (IsFault items.now given.now) }
{
    if formula_count(items) > MOST_FORMULAS {
        return Err(GraphFault::Limit(LimitName::Lines));
    }
    match scope_of(alloc, items, given) {
        Ok(scope) => graph_over(alloc, &scope, items),
        Err(_) => Err(GraphFault::Memory),
    }
}

// The graph where names mean this, or the first fault.
fn graph_over(alloc: Global, scope: &Scope, items: &[Item]) -> Result<Graph, GraphFault>
    requires { length items.now < 2 ^ 32 }
    ensures graph { IfOk result (IsGraphBy (means_in scope.now) items.now) }
    ensures fault { IfErr result (IsFaultBy (means_in scope.now) items.now) }
{
    match nodes_of(alloc, scope, items) {
        Ok(nodes) => graph_of(alloc, items, nodes),
        Err(fault) => Err(fault),
    }
}

// The graph of these nodes, or the fault at the first that is never taken.
fn graph_of(alloc: Global, items: &[Item], nodes: List<Node>) -> Result<Graph, GraphFault>
    requires few { length nodes < 2 ^ 32 }
    requires lines { AreLines items.now nodes }
    ensures graph { IfOk result (IsOrdered nodes) }
    ensures fault { IfErr result (λ fault. (fault ≡ GraphFault.Memory) ⊎ LeavesOne items.now nodes fault) }
{
    match order_of(alloc, nodes.as_slice()) {
        Ok(ordered) => finished(alloc, items, nodes, ordered),
        Err(_) => Err(GraphFault::Memory),
    }
}

// The graph of nodes in this order, or the fault at the first that it does not take.
fn finished(
    alloc: Global,
    items: &[Item],
    nodes: List<Node>,
    ordered: Ordered,
) -> Result<Graph, GraphFault>
    requires lines { AreLines items.now nodes }
    requires order { IsOrder nodes ordered.order }
    requires left { ordered.left ≡ first_left (is_taken ordered.order) 0 nodes }
    ensures graph { IfOk result (IsOrdered nodes) }
    ensures fault { IfErr result (λ fault. (fault ≡ GraphFault.Memory) ⊎ LeavesOne items.now nodes fault) }
{
    match ordered.left {
        None => Ok(Graph {
            nodes,
            order: ordered.order,
        }),
        Some(number) => Err(cycle(alloc, items, nodes.as_slice(), number)),
    }
}

// The fault at a node that is never taken.
fn cycle(alloc: Global, items: &[Item], nodes: &[Node], number: u32) -> GraphFault
    requires number { number < length nodes.now }
    requires lines { AreLines items.now nodes.now }
    ensures { (result ≡ GraphFault.Memory) ⊎ IsCycleAt items.now nodes.now number result }
{
    match at(nodes, number as usize) {
        Some(node) => cycle_of(alloc, items, node.item),
        None => unreachable!(),
    }
}

// The fault at the item of this number.
fn cycle_of(alloc: Global, items: &[Item], number: u32) -> GraphFault
    requires { IsFormulaAt items.now number }
    ensures { (result ≡ GraphFault.Memory) ⊎ IsCycleOf items.now number result }
{
    match at(items, number as usize) {
        Some(item) => cycle_in(alloc, item),
        None => unreachable!(),
    }
}

// The fault at an item.
fn cycle_in(alloc: Global, item: &Item) -> GraphFault
    requires { IsFormula item.now }
    ensures { (result ≡ GraphFault.Memory) ⊎ IsCycleIn item.now result }
{
    match item {
        Item::Formula(formula) => cycle_at(alloc, formula.get()),
        Item::Comment(_) => unreachable!(),
        Item::Include(_) => unreachable!(),
    }
}

// The fault at a formula.
fn cycle_at(alloc: Global, formula: &Annotated) -> GraphFault
    ensures { (result ≡ GraphFault.Memory) ⊎ (result ≡ GraphFault.Cycle formula.now.place formula.now.name) }
{
    match formula.name.copy(alloc) {
        Ok(name) => GraphFault::Cycle(formula.place, name),
        Err(_) => GraphFault::Memory,
    }
}
