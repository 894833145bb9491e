ghost use Rattle.std.specs.Prelude.{◌≡◌, ◌<◌, ◌↔◌, IsTrue, slice_get, Some, IfOk, OnOk, length};
ghost use Rattle.unify_terms.specs.code.Graph.{numbers_at, head_sort, one_head, IsAdded, AreAdded, AddsPairs};
ghost use Rattle.unify_terms.specs.code.Graph.{AreVariables, IsGraphOf};
ghost use Rattle.unify_terms.specs.code.Chosen.{chosen_pairs};
ghost use Rattle.unify_terms.specs.declared.node.Node.TheVariants.{Open};

use crate::chosen::Chosen;
use crate::pair::Pair;
use crate::scope::Scope;
use fof_terms::{Signature, SortId, SymId, Term};
use std::alloc::Global;
use tptp_base::{List, Memory};

/// A variable that may be replaced, one that stands for itself, or a term with the numbers of its arguments' nodes.
#[derive(Drop)]
pub enum Node<'a> {
    Open,
    Rigid,
    Function(SymId, &'a [Term], List<usize>),
}

/// The numbers of the arguments of that node.
pub fn argument_numbers<'n, 'a>(nodes: &'n [Node<'a>], at: usize) -> &'n [usize]
    requires { at < length nodes.now }
    ensures { result.now ≡ numbers_at nodes.now at }
{
    match &nodes[at] {
        Node::Function(_, _, numbers) => numbers.as_slice(),
        _ => &[],
    }
}

/// The sort of that node's term.
pub fn node_sort(
    nodes: &[Node<'_>],
    signature: &Signature,
    scope: &Scope,
    at: usize,
) -> Option<SortId>
    requires { at < length nodes.now }
    ensures { result ≡ head_sort signature.now scope.now.sorts nodes.now at }
{
    match &nodes[at] {
        Node::Function(function, _, _) => match signature.symbol(*function) {
            Some(symbol) => Some(symbol.result),
            None => None,
        },
        _ => scope.sorts.get(at).copied(),
    }
}

/// Whether the node is a variable that may be replaced.
pub fn is_open(nodes: &[Node<'_>], at: usize) -> bool
    requires { at < length nodes.now }
    ensures { IsTrue result ↔ (slice_get nodes.now at ≡ Some Open) }
{
    matches!(&nodes[at], Node::Open)
}

/// Whether both are functions of one symbol, with as many arguments.
pub fn have_one_head(nodes: &[Node<'_>], left: usize, right: usize) -> bool
    requires left { left < length nodes.now }
    requires right { right < length nodes.now }
    ensures { result ≡ one_head (slice_get nodes.now left) (slice_get nodes.now right) }
{
    match &nodes[left] {
        Node::Function(f, _, numbers) => match &nodes[right] {
            Node::Function(g, _, others) => *f == *g && numbers.len() == others.len(),
            _ => false,
        },
        _ => false,
    }
}

/// Adds the term and its subterms. Gives the number of the term's node.
#[cycle(add)]
pub fn add<'a>(term: &'a Term, alloc: Global, nodes: &mut List<Node<'a>>) -> Result<usize, Memory>
    ensures { IfOk result (λ number. IsAdded nodes.old term.now nodes.new number) }
{
    match term {
        Term::Var(variable) => Ok(*variable as usize),
        Term::App(function, args) => {
            let args = args.as_slice();
            let numbers = add_all(args, alloc, nodes)?;
            nodes.push(Node::Function(*function, args, numbers))?;
            Ok(nodes.len() - 1)
        }
    }
}

/// Adds the terms. Gives the numbers of their nodes.
#[cycle(add)]
pub fn add_all<'a>(
    terms: &'a [Term],
    alloc: Global,
    nodes: &mut List<Node<'a>>,
) -> Result<List<usize>, Memory>
    ensures { IfOk result (λ numbers. AreAdded nodes.old terms.now nodes.new numbers) }
{
    let mut numbers = List::new(alloc);
    for term in terms {
        numbers.push(add(term, alloc, nodes)?)?;
    }
    Ok(numbers)
}

/// Adds the terms of the pairs, and the numbers of their nodes.
pub fn add_pairs<'a>(
    pairs: &'a [Pair],
    alloc: Global,
    nodes: &mut List<Node<'a>>,
    numbers: &mut List<(usize, usize)>,
) -> Result<(), Memory>
    ensures { OnOk result (AddsPairs pairs.now nodes.old numbers.old nodes.new numbers.new) }
{
    for pair in pairs {
        let left = add(&pair.left, alloc, nodes)?;
        let right = add(&pair.right, alloc, nodes)?;
        numbers.push((left, right))?;
    }
    Ok(())
}

/// Adds the terms of the pairs that were chosen, and the numbers of their nodes.
pub fn add_chosen<'a>(
    chosen: &Chosen<'a>,
    alloc: Global,
    nodes: &mut List<Node<'a>>,
    numbers: &mut List<(usize, usize)>,
) -> Result<(), Memory>
    ensures { OnOk result (AddsPairs (chosen_pairs chosen.now) nodes.old numbers.old nodes.new numbers.new) }
{
    match chosen {
        Chosen::Nothing => Ok(()),
        Chosen::Then(earlier, pairs) => {
            add_chosen(&*earlier, alloc, nodes, numbers)?;
            add_pairs(pairs, alloc, nodes, numbers)
        }
    }
}

/// The nodes of the variables of a scope.
pub fn variables<'a>(alloc: Global, scope: &Scope) -> Result<List<Node<'a>>, Memory>
    ensures { IfOk result (λ nodes. AreVariables scope.now.sorts scope.now.rigid nodes) }
{
    let mut nodes = List::new(alloc);
    for variable in 0..scope.sorts.len() {
        if variable < scope.rigid as usize {
            nodes.push(Node::Rigid)?;
        } else {
            nodes.push(Node::Open)?;
        }
    }
    Ok(nodes)
}

/// The nodes of variables and of pairs of terms, and the numbers of both sides of each pair.
#[derive(Drop)]
pub struct Graph<'a> {
    pub nodes: List<Node<'a>>,
    pub pairs: List<(usize, usize)>,
}

/// The graph of the pairs that were chosen.
pub fn graph_of<'a>(chosen: &Chosen<'a>, alloc: Global, scope: &Scope) -> Result<Graph<'a>, Memory>
    ensures { IfOk result (λ graph.
        IsGraphOf scope.now.sorts scope.now.rigid (chosen_pairs chosen.now) graph.nodes graph.pairs) }
{
    let mut nodes = variables(alloc, scope)?;
    let mut pairs = List::new(alloc);
    add_chosen(chosen, alloc, &mut nodes, &mut pairs)?;
    Ok(Graph { nodes, pairs })
}
