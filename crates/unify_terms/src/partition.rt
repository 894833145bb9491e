ghost use Rattle.std.specs.Prelude.{ℕ, ◌≡◌, ◌≢◌, ◌<◌, ◌⊎◌, length, map, OnOk, IfOk};
ghost use Rattle.unify_terms.specs.code.Graph.{Below};
ghost use Rattle.unify_terms.specs.code.Classes.{moved, class_of};
ghost use Rattle.unify_terms.specs.code.Partition.{classes_of, members_of, relabelled, IsPartition, Merged};

use std::alloc::Global;
use std::mem;
use tptp_base::{List, Memory};

/// Nodes in classes. Of two classes that are joined the smaller one is written anew, so that no node changes its label
/// often.
#[derive(Drop)]
pub struct Partition {
    /// The label of each node's class.
    labels: Vec<usize>,
    /// The node that stands for the class of each label.
    heads: Vec<usize>,
    /// The nodes with each label.
    members: Vec<List<usize>>,
}

/// Each node in a class of its own.
pub fn each_alone(alloc: Global, count: usize) -> Result<Partition, Memory>
    ensures partition { IfOk result (λ p. IsPartition p × (length (classes_of p) ≡ count)) }
    ensures alone { IfOk result (λ p. (i : ℕ) → i < count → class_of (classes_of p) i ≡ i) }
{
    let mut labels = Vec::new(alloc);
    let mut heads = Vec::new(alloc);
    let mut members = Vec::new(alloc);
    for i in 0..count {
        labels.push(i)?;
        heads.push(i)?;
        members.push(List::from_slice(alloc, &[i])?)?;
    }
    Ok(Partition {
        labels,
        heads,
        members,
    })
}

/// The node that stands for the class of a node.
pub fn head_of(partition: &Partition, at: usize) -> usize
    requires partition { IsPartition partition.now }
    requires within { at < length (classes_of partition.now) }
    ensures { result ≡ class_of (classes_of partition.now) at }
{
    partition.heads[partition.labels[at]]
}

/// Joins the classes of two nodes that stand for theirs. The second stands for both.
pub fn join(partition: &mut Partition, alloc: Global, from: usize, to: usize) -> Result<(), Memory>
    requires partition { IsPartition partition.old }
    requires from_within { from < length (classes_of partition.old) }
    requires to_within { to < length (classes_of partition.old) }
    requires from_head { class_of (classes_of partition.old) from ≡ from }
    requires to_head { class_of (classes_of partition.old) to ≡ to }
    requires differ { from ≢ to }
    ensures partition { OnOk result (IsPartition partition.new) }
    ensures classes { OnOk result (classes_of partition.new ≡ map (moved from to) (classes_of partition.old)) }
{
    let (small, big) = by_size(partition, partition.labels[from], partition.labels[to]);
    merge(partition, alloc, small, big, to)
}

// The labels, that of the smaller class first.
fn by_size(partition: &Partition, left: usize, right: usize) -> (usize, usize)
    requires left { left < length partition.now.members.items }
    requires right { right < length partition.now.members.items }
    ensures { (result ≡ (left, right)) ⊎ (result ≡ (right, left)) }
{
    if partition.members[left].len() < partition.members[right].len() {
        (left, right)
    } else {
        (right, left)
    }
}

// Writes the label `big` for `small`.
fn merge(
    partition: &mut Partition,
    alloc: Global,
    small: usize,
    big: usize,
    head: usize,
) -> Result<(), Memory>
    requires partition { IsPartition partition.old }
    requires small { small < length partition.old.labels.items }
    requires big { big < length partition.old.labels.items }
    requires differ { small ≢ big }
    ensures { OnOk result (Merged partition.old partition.new small big head) }
{
    let moved = mem::replace(&mut partition.members[small], List::new(alloc));
    relabel(&mut partition.labels, moved.as_slice(), big);
    partition.members[big].append(moved)?;
    partition.heads[big] = head;
    Ok(())
}

// Writes the label of each of the nodes.
#[tactic(auto, using(crate::proofs::Pairs::below_at))]
fn relabel(labels: &mut Vec<usize>, members: &[usize], to: usize)
    requires { Below (length labels.old.items) members.now }
    ensures { labels.new.items ≡ relabelled labels.old.items to members.now }
{
    for member in members {
        labels[*member] = to;
    }
}

/// The node that stands for the class of each node.
pub fn all_heads(alloc: Global, partition: &Partition) -> Result<Vec<usize>, Memory>
    requires { IsPartition partition.now }
    ensures { IfOk result (λ classes. classes.items ≡ classes_of partition.now) }
{
    let mut classes = Vec::new(alloc);
    for label in &partition.labels {
        classes.push(partition.heads[*label])?;
    }
    Ok(classes)
}
