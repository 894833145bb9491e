// The nodes that are not taken: those that are ready, and those that wait for a line.
ghost use Rattle.std.specs.Prelude.{◌≡◌, ◌+◌, ◌<◌, ◌^◌, ℕ, [], true, false, length, take, IfOk, OnOk, IfSome, IfNone};
ghost use Rattle.std.specs.Prelude.{IsTrue, MatchOption};
ghost use Rattle.std.specs.List.{list_all, All};
ghost use Rattle.std.specs.Ordering.{nat_cmp};
ghost use Rattle.std.specs.BTreeSet.{contains, IsEmpty, IsLowerBound, Updates};
ghost use Rattle.tstp_graph.specs.Order.{is_done};
ghost use Rattle.tstp_graph.specs.code.Flags.{flag_at, is_line};
ghost use Rattle.tstp_graph.specs.code.Queue.{waiters_of, has_number, no_number, IsMissing, IsLoose, IsQueue, Settles};
ghost use Rattle.tstp_graph.specs.code.Queue.{AddsWaiter};

use crate::order::is_flagged;
use crate::shape::{Node, Ref};
use std::alloc::Global;
use std::collections::BTreeSet;
use std::mem;
use tptp_base::{List, Memory};

// A node that waits: its parents before this place are taken.
#[derive(Clone, Copy, Drop)]
pub struct Waiter {
    pub number: u32,
    pub place: usize,
}

// A parent that is not taken: its line, and its place among the parents.
#[derive(Clone, Copy, Drop)]
pub struct Missing {
    pub line: u32,
    pub place: usize,
}

/// The nodes that are not taken: those that are ready, and for each line those that wait for it.
#[derive(Drop)]
pub struct Queue {
    pub ready: BTreeSet<u32>,
    pub waiting: Vec<List<Waiter>>,
}

impl Queue {
    /// The queue of nodes of which none is taken.
    pub fn of(alloc: Global, nodes: &[Node], taken: &[bool]) -> Result<Queue, Memory>
        requires nodes { length nodes.now < 2 ^ 32 }
        requires taken { (number : ℕ) → flag_at taken.now number ≡ false }
        ensures { IfOk result (λ q. IsQueue nodes.now (flag_at taken.now) no_number q.ready q.waiting.items) }
    {
        let mut queue = Queue {
            ready: BTreeSet::new(alloc),
            waiting: no_waiters(alloc, nodes.len())?,
        };
        for number in 0..nodes.len() {
            let waiter = Waiter {
                number: number as u32,
                place: 0,
            };
            queue.settle(nodes, taken, waiter)?;
        }
        Ok(queue)
    }

    /// Takes out the first of those that are ready.
    pub fn next(&mut self) -> Option<u32>
        ensures some { IfSome result (λ number. IsTrue (contains nat_cmp self.old.ready number)) }
        ensures least { IfSome result (IsLowerBound nat_cmp self.old.ready) }
        ensures rest { IfSome result (λ number. Updates nat_cmp self.old.ready self.new.ready number false) }
        ensures none { IfNone result (IsEmpty self.old.ready) }
        ensures waiting { self.new.waiting.items ≡ self.old.waiting.items }
    {
        self.ready.pop_first()
    }

    /// Lets those go that wait for a line which is taken.
    pub fn free(
        &mut self,
        alloc: Global,
        nodes: &[Node],
        taken: &[bool],
        line: u32,
    ) -> Result<(), Memory>
        requires within { line < length self.old.waiting.items }
        requires taken { flag_at taken.now line ≡ true }
        requires loose { All (IsLoose nodes.now (flag_at taken.now)) (waiters_of self.old.waiting.items line) }
        requires queue { IsQueue nodes.now (flag_at taken.now)
            (has_number (waiters_of self.old.waiting.items line)) self.old.ready self.old.waiting.items }
        ensures { OnOk result (IsQueue nodes.now (flag_at taken.now) no_number self.new.ready self.new.waiting.items) }
    {
        let freed = mem::replace(&mut self.waiting[line as usize], List::new(alloc));
        self.settle_all(nodes, taken, freed.as_slice())
    }

    // Puts nodes that are not taken where they belong.
    fn settle_all(
        &mut self,
        nodes: &[Node],
        taken: &[bool],
        waiters: &[Waiter],
    ) -> Result<(), Memory>
        requires loose { All (IsLoose nodes.now (flag_at taken.now)) waiters.now }
        requires queue { IsQueue nodes.now (flag_at taken.now)
            (has_number waiters.now) self.old.ready self.old.waiting.items }
        ensures { OnOk result (IsQueue nodes.now (flag_at taken.now) no_number self.new.ready self.new.waiting.items) }
    {
        for waiter in waiters {
            self.settle(nodes, taken, *waiter)?;
        }
        Ok(())
    }

    // Puts a node that is not taken where it belongs.
    fn settle(&mut self, nodes: &[Node], taken: &[bool], waiter: Waiter) -> Result<(), Memory>
        requires { IsLoose nodes.now (flag_at taken.now) waiter }
        ensures { OnOk result
            (Settles nodes.now
            (flag_at taken.now) waiter.number self.old.ready self.old.waiting.items self.new.ready self.new.waiting.items) }
    {
        let parents = nodes[waiter.number as usize].parents.as_slice();
        match first_missing(parents, taken, waiter.place) {
            None => self.add(waiter.number),
            Some(Missing { line, place }) => {
                let number = waiter.number;
                self.wait(line, Waiter { number, place })
            }
        }
    }

    // Adds a node that is ready.
    fn add(&mut self, number: u32) -> Result<(), Memory>
        ensures ready { OnOk result (Updates nat_cmp self.old.ready self.new.ready number true) }
        ensures waiting { self.new.waiting.items ≡ self.old.waiting.items }
    {
        self.ready.insert(number)?;
        Ok(())
    }

    // Lets a node wait for a line, if there is such a line.
    fn wait(&mut self, line: u32, waiter: Waiter) -> Result<(), Memory>
        ensures waiting { OnOk result (AddsWaiter self.old.waiting.items line waiter self.new.waiting.items) }
        ensures ready { self.new.ready ≡ self.old.ready }
    {
        let at = line as usize;
        if at < self.waiting.len() {
            self.waiting[at].push(waiter)?;
        }
        Ok(())
    }
}

// So many lines, for none of which a node waits.
fn no_waiters(alloc: Global, count: usize) -> Result<Vec<List<Waiter>>, Memory>
    ensures none { IfOk result (λ waiting. (line : ℕ) → waiters_of waiting.items line ≡ []) }
    ensures len { IfOk result (λ waiting. length waiting.items ≡ count) }
{
    let mut waiting = Vec::new(alloc);
    'waiting: while waiting.len() < count {
        waiting.push(List::new(alloc))?;
    }
    Ok(waiting)
}

// The first parent from a place on that is not taken.
fn first_missing(parents: &[Ref], taken: &[bool], from: usize) -> Option<Missing>
    requires { list_all (is_done (flag_at taken.now)) (take from parents.now) ≡ true }
    ensures { MatchOption result (list_all (is_done (flag_at taken.now)) parents.now
        ≡ true) (IsMissing parents.now (flag_at taken.now)) }
{
    for place in from..parents.len() {
        if let Some(line) = untaken(parents[place], taken) {
            return Some(Missing { line, place });
        }
    }
    None
}

// The line of a parent that is not taken.
fn untaken(parent: Ref, taken: &[bool]) -> Option<u32>
    ensures { MatchOption result (is_done (flag_at taken.now) parent ≡ true) (λ line. (is_line line parent ≡ true)
        × (flag_at taken.now line ≡ false)) }
{
    match parent {
        Ref::Line(number) => {
            if is_flagged(taken, number as usize) {
                None
            } else {
                Some(number)
            }
        }
        Ref::Given(_) => None,
    }
}
