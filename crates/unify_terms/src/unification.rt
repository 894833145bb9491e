ghost use Rattle.std.specs.Prelude.{◌≡◌, ◌<◌, ◌^◌, ◌≤◌, None, IsTrue, length, IfOk};
ghost use Rattle.unify_terms.specs.code.Graph.{IsGraph};
ghost use Rattle.unify_terms.specs.code.Classes.{AllBelow};
ghost use Rattle.unify_terms.specs.code.Chosen.{chosen_pairs};
ghost use Rattle.unify_terms.specs.Unifiers.{AreSorted, Unified};
ghost use Rattle.unify_terms.specs.code.Solved.{Arranged};

use crate::attempt::{Attempt, try_pairs};
use crate::chosen::Chosen;
use crate::classes::close;
use crate::images::first_images;
use crate::node::{Graph, Node, graph_of};
use crate::order::in_order;
use crate::pair::Pair;
use crate::scope::Scope;
use crate::substitution::Subst;
use fof_terms::Signature;
use std::alloc::Global;
use tptp_base::{List, Memory};

/// A most general well-sorted unifier of the pairs, which fixes the rigid variables; None exactly where there is none.
/// Each variable of the scope has an image. Images are written out: where variables stand for each other's
/// arguments, as in x0 = f(x1, x1), x1 = f(x2, x2) and so on, they are exponentially larger than the pairs. Whether
/// there is a unifier is found with few images made, in a time that does not depend on their size.
pub fn unify(
    alloc: Global,
    signature: &Signature,
    scope: &Scope,
    pairs: &[Pair],
) -> Result<Option<Subst>, Memory>
    requires few { length scope.now.sorts ≤ 2 ^ 32 }
    requires sorted { AreSorted signature.now scope.now.sorts pairs.now }
    ensures { IfOk result (λ answer. Unified signature.now scope.now.sorts scope.now.rigid pairs.now answer) }
{
    match try_pairs(alloc, signature, scope, pairs)? {
        Attempt::Found(subst) => Ok(Some(subst)),
        Attempt::Clash => Ok(None),
        Attempt::Unknown => unify_by_classes(alloc, signature, scope, pairs),
    }
}

// The same by classes of terms.
fn unify_by_classes(
    alloc: Global,
    signature: &Signature,
    scope: &Scope,
    pairs: &[Pair],
) -> Result<Option<Subst>, Memory>
    requires few { length scope.now.sorts ≤ 2 ^ 32 }
    requires sorted { AreSorted signature.now scope.now.sorts pairs.now }
    ensures { IfOk result (λ answer. Unified signature.now scope.now.sorts scope.now.rigid pairs.now answer) }
{
    let chosen = Chosen::Then(&Chosen::Nothing, pairs);
    unify_chosen(alloc, signature, scope, &chosen)
}

/// A most general unifier of the pairs that were chosen, if there is one.
pub fn unify_chosen(
    alloc: Global,
    signature: &Signature,
    scope: &Scope,
    chosen: &Chosen<'_>,
) -> Result<Option<Subst>, Memory>
    requires few { length scope.now.sorts ≤ 2 ^ 32 }
    requires sorted { AreSorted signature.now scope.now.sorts (chosen_pairs chosen.now) }
    ensures { IfOk result (λ answer.
        Unified signature.now scope.now.sorts scope.now.rigid (chosen_pairs chosen.now) answer) }
{
    let Graph { nodes, pairs } = graph_of(chosen, alloc, scope)?;
    let nodes = nodes.as_slice();
    match arranged(alloc, nodes, signature, scope, pairs)? {
        Some(found) => {
            let order = found.order.as_slice();
            let images = first_images(alloc, nodes, &found.classes, order, scope.sorts.len())?;
            Ok(Some(Subst { images }))
        }
        None => Ok(None),
    }
}

/// Whether the pairs that were chosen have no unifier. No image is made.
pub fn is_hopeless(
    alloc: Global,
    signature: &Signature,
    scope: &Scope,
    chosen: &Chosen<'_>,
) -> Result<bool, Memory>
    requires sorted { AreSorted signature.now scope.now.sorts (chosen_pairs chosen.now) }
    ensures { IfOk result (λ answer. IsTrue answer
        → Unified signature.now scope.now.sorts scope.now.rigid (chosen_pairs chosen.now) None) }
{
    let Graph { nodes, pairs } = graph_of(chosen, alloc, scope)?;
    match arranged(alloc, nodes.as_slice(), signature, scope, pairs)? {
        Some(_) => Ok(false),
        None => Ok(true),
    }
}

/// The class of each node, and the classes in an order in which those of the arguments stand first.
#[derive(Drop)]
pub struct Arrangement {
    pub classes: Vec<usize>,
    pub order: List<usize>,
}

// The classes under which the pairs of nodes are equal, in order.
fn arranged(
    alloc: Global,
    nodes: &[Node<'_>],
    signature: &Signature,
    scope: &Scope,
    pairs: List<(usize, usize)>,
) -> Result<Option<Arrangement>, Memory>
    requires graph { IsGraph signature.now scope.now.sorts scope.now.rigid nodes.now }
    requires below { AllBelow (length nodes.now) pairs }
    ensures { IfOk result (λ answer. Arranged signature.now scope.now.sorts scope.now.rigid nodes.now pairs answer) }
{
    match close(alloc, nodes, signature, scope, pairs)? {
        Some(classes) => match in_order(alloc, nodes, &classes)? {
            Some(order) => Ok(Some(Arrangement { classes, order })),
            None => Ok(None),
        },
        None => Ok(None),
    }
}
