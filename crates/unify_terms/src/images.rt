ghost use Rattle.std.specs.Prelude.{ℕ, ◌≡◌, ◌<◌, ◌≤◌, true, length, map, reverse, get_or, IfOk, IsTrue};
ghost use Rattle.fof_terms.specs.declared.term.Term.{Var};
ghost use Rattle.unify_terms.specs.code.Graph.{Below};
ghost use Rattle.unify_terms.specs.code.Classes.{class_of};
ghost use Rattle.unify_terms.specs.code.Order.{Fits, is_done};
ghost use Rattle.unify_terms.specs.code.Images.{made, image_in, AreNeeded, FewVariables, IsClosed};

use crate::node::{Node, argument_numbers};
use crate::order::{are_done, none_done};
use fof_terms::Term;
use std::alloc::Global;
use tptp_base::{List, Memory};

// The images of the nodes' classes.
#[tactic(auto, using(crate::proofs::Pairs::below_at))]
fn class_images(
    alloc: Global,
    numbers: &[usize],
    classes: &[usize],
    images: &[Term],
) -> Result<List<Term>, Memory>
    requires numbers { Below (length classes.now) numbers.now }
    requires within { (i : ℕ) → i < length classes.now → class_of classes.now i < length images.now }
    ensures { IfOk result (λ terms. terms ≡ map (λ j. get_or images.now (class_of classes.now j) (Var 0)) numbers.now) }
{
    let mut terms = List::new(alloc);
    for number in numbers {
        terms.push(images[classes[*number]].copy(alloc)?)?;
    }
    Ok(terms)
}

// The image of a class, from those of the classes of its arguments.
fn made_image(
    alloc: Global,
    nodes: &[Node<'_>],
    classes: &[usize],
    images: &[Term],
    at: usize,
) -> Result<Term, Memory>
    requires fits { Fits nodes.now classes.now }
    requires few { FewVariables nodes.now }
    requires size { length images.now ≡ length nodes.now }
    requires within { at < length nodes.now }
    ensures { IfOk result (λ image. image ≡ made nodes.now classes.now (λ i. get_or images.now i (Var 0)) at) }
{
    match &nodes[at] {
        Node::Function(function, _, numbers) => {
            Ok(Term::App(
                *function,
                class_images(alloc, numbers.as_slice(), classes, images)?,
            ))
        }
        Node::Open => Ok(Term::Var(at as u32)),
        Node::Rigid => Ok(Term::Var(at as u32)),
    }
}

// The images of all classes.
#[tactic(auto, using(crate::proofs::Pairs::below_at))]
fn all_images(
    alloc: Global,
    nodes: &[Node<'_>],
    classes: &[usize],
    order: &[usize],
) -> Result<Vec<Term>, Memory>
    requires fits { Fits nodes.now classes.now }
    requires few { FewVariables nodes.now }
    requires within { Below (length nodes.now) order.now }
    ensures { IfOk result (λ images. (length images.items ≡ length nodes.now)
        × ((i : ℕ) → i < length nodes.now
        → get_or images.items i (Var 0) ≡ image_in nodes.now classes.now (reverse order.now) i)) }
{
    let mut images = placeholders(alloc, nodes.len())?;
    for class in order {
        images[*class] = made_image(alloc, nodes, classes, &images, *class)?;
    }
    Ok(images)
}

fn placeholders(alloc: Global, count: usize) -> Result<Vec<Term>, Memory>
    ensures { IfOk result (λ images. (length images.items ≡ count)
        × ((i : ℕ) → get_or images.items i (Var 0) ≡ Var 0)) }
{
    let mut images = Vec::new(alloc);
    for i in 0..count {
        images.push(Term::Var(0))?;
    }
    Ok(images)
}

// The same of the classes that are needed.
#[tactic(auto, using(crate::proofs::Pairs::below_at))]
fn needed_images(
    alloc: Global,
    nodes: &[Node<'_>],
    classes: &[usize],
    order: &[usize],
    needed: &[bool],
) -> Result<Vec<Term>, Memory>
    requires fits { Fits nodes.now classes.now }
    requires few { FewVariables nodes.now }
    requires within { Below (length nodes.now) order.now }
    requires size { length needed.now ≡ length nodes.now }
    requires closed { IsClosed nodes.now classes.now needed.now }
    ensures { IfOk result (λ images. AreNeeded nodes.now classes.now needed.now (reverse order.now) images.items) }
{
    let mut images = placeholders(alloc, nodes.len())?;
    for class in order {
        if needed[*class] {
            images[*class] = made_image(alloc, nodes, classes, &images, *class)?;
        }
    }
    Ok(images)
}

// Marks the classes of the first nodes, and with each class those of its arguments.
fn marked(
    alloc: Global,
    nodes: &[Node<'_>],
    classes: &[usize],
    order: &[usize],
    count: usize,
) -> Result<Vec<bool>, Memory>
    requires fits { Fits nodes.now classes.now }
    requires within { Below (length nodes.now) order.now }
    requires count { count ≤ length nodes.now }
    ensures { IfOk result (λ needed. length needed.items ≡ length nodes.now) }
{
    let mut needed = none_done(alloc, nodes.len())?;
    for variable in 0..count {
        needed[classes[variable]] = true;
    }
    for from_end in 0..order.len() {
        let class = order[order.len() - 1 - from_end];
        if needed[class] {
            mark_all(argument_numbers(nodes, class), classes, &mut needed);
        }
    }
    Ok(needed)
}

// Marks the classes of these nodes.
#[tactic(auto, using(crate::proofs::Pairs::below_at))]
fn mark_all(numbers: &[usize], classes: &[usize], needed: &mut Vec<bool>)
    requires numbers { Below (length classes.now) numbers.now }
    requires within { (i : ℕ) → i < length classes.now → class_of classes.now i < length needed.old.items }
    ensures { length needed.new.items ≡ length needed.old.items }
{
    for number in numbers {
        needed[classes[*number]] = true;
    }
}

// Whether with each class that is marked those of its arguments are.
fn is_closed(nodes: &[Node<'_>], classes: &[usize], needed: &[bool]) -> bool
    requires fits { Fits nodes.now classes.now }
    requires size { length needed.now ≡ length nodes.now }
    ensures { IsTrue result → IsClosed nodes.now classes.now needed.now }
{
    for at in 0..nodes.len() {
        if needed[at] && !are_done(argument_numbers(nodes, at), classes, needed) {
            return false;
        }
    }
    true
}

// Whether the classes of the first nodes are marked.
fn has_first(classes: &[usize], needed: &[bool], count: usize) -> bool
    requires within { (i : ℕ) → i < count → class_of classes.now i < length needed.now }
    requires count { count ≤ length classes.now }
    ensures { IsTrue result → (k : ℕ) → k < count → is_done needed.now (class_of classes.now k) ≡ true }
{
    for variable in 0..count {
        if !needed[classes[variable]] {
            return false;
        }
    }
    true
}

// Images among which are those of the classes of the first nodes. Only those are made that they consist of, if marks
// tell them.
fn images_for(
    alloc: Global,
    nodes: &[Node<'_>],
    classes: &[usize],
    order: &[usize],
    count: usize,
) -> Result<Vec<Term>, Memory>
    requires fits { Fits nodes.now classes.now }
    requires few { FewVariables nodes.now }
    requires within { Below (length nodes.now) order.now }
    requires count { count ≤ length nodes.now }
    ensures size { IfOk result (λ images. length images.items ≡ length nodes.now) }
    ensures first { IfOk result (λ images. (k : ℕ) → k < count
        → get_or images.items (class_of classes.now k) (Var 0)
        ≡ image_in nodes.now classes.now (reverse order.now) (class_of classes.now k)) }
{
    let needed = marked(alloc, nodes, classes, order, count)?;
    if has_first(classes, &needed, count) && is_closed(nodes, classes, &needed) {
        return needed_images(alloc, nodes, classes, order, &needed);
    }
    all_images(alloc, nodes, classes, order)
}

/// The images of the classes of the first nodes.
pub fn first_images(
    alloc: Global,
    nodes: &[Node<'_>],
    classes: &[usize],
    order: &[usize],
    count: usize,
) -> Result<List<Term>, Memory>
    requires fits { Fits nodes.now classes.now }
    requires few { FewVariables nodes.now }
    requires within { Below (length nodes.now) order.now }
    requires count { count ≤ length nodes.now }
    ensures { IfOk result (λ images. (length images ≡ count)
        × ((k : ℕ) → k < count
        → get_or images k (Var k) ≡ image_in nodes.now classes.now (reverse order.now) (class_of classes.now k))) }
{
    let all = images_for(alloc, nodes, classes, order, count)?;
    let mut images = List::new(alloc);
    for variable in 0..count {
        images.push(all[classes[variable]].copy(alloc)?)?;
    }
    Ok(images)
}
