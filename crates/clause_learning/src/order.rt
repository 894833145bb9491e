//! Which atom is taken freely next, and with which sign. What a search answers rests on none of this.
use crate::literal::Literal;
use crate::trail::Trail;
use sqlite_items::Items as List;
use std::alloc::{AllocError, Global};

/// How much an atom took part in conflicts, the later ones counting more; the sign that it had last; and where it stands
/// in the heap.
#[derive(Clone, Copy, Drop)]
pub struct Rank {
    pub activity: u64,
    pub positive: bool,
    pub place: Option<usize>,
}

/// The atoms that may have no value, as a heap with the most active one first; and how much the next conflict counts.
#[derive(Drop)]
pub struct Order {
    pub ranks: List<Rank>,
    pub heap: List<usize>,
    pub gain: u64,
}

// Where activities are as great as this, all are made smaller.
const GREATEST: u64 = 1 << 60;

impl Order {
    /// That many atoms, equally active.
    pub fn new(alloc: Global, atoms: usize) -> Result<Order, AllocError> {
        let mut ranks = List::new(alloc);
        let mut heap = List::new(alloc);
        for atom in 0..atoms {
            heap.push(atom)?;
            ranks.push(Rank {
                activity: 0,
                positive: false,
                place: Some(atom),
            })?;
        }
        Ok(Order {
            ranks,
            heap,
            gain: 1 << 10,
        })
    }

    /// The literal of the most active atom that has no value, with the sign that the atom had last.
    pub fn next(&mut self, trail: &Trail) -> Option<Literal> {
        let many = self.heap.len();
        for _at in 0..many {
            let atom = self.take_first()?;
            if trail.value(atom).is_none() {
                let rank = *self.ranks.get(atom)?;
                return Some(Literal {
                    atom,
                    positive: rank.positive,
                });
            }
        }
        None
    }

    /// Notes that the literal is not held true any more.
    pub fn put(&mut self, literal: Literal) -> Result<(), AllocError> {
        let Some(rank) = self.ranks.get(literal.atom) else {
            return Ok(());
        };
        let mut rank = *rank;
        rank.positive = literal.positive;
        self.ranks.set(literal.atom, rank);
        if rank.place.is_none() {
            let place = self.heap.len();
            self.heap.push(literal.atom)?;
            self.settle(literal.atom, place);
            self.rise(place);
        }
        Ok(())
    }

    /// Counts a conflict in which these atoms took part.
    pub fn count(&mut self, atoms: &[usize]) {
        for atom in atoms {
            self.raise(*atom);
        }
        self.gain = self.gain.saturating_add(self.gain / 16);
        if self.gain >= GREATEST {
            self.shrink();
        }
    }

    // Makes the atom more active.
    fn raise(&mut self, atom: usize) {
        let Some(rank) = self.ranks.get(atom) else {
            return;
        };
        let mut rank = *rank;
        rank.activity = rank.activity.saturating_add(self.gain);
        self.ranks.set(atom, rank);
        if let Some(place) = rank.place {
            self.rise(place);
        }
    }

    // Makes all activities smaller.
    fn shrink(&mut self) {
        let many = self.ranks.len();
        for atom in 0..many {
            if let Some(rank) = self.ranks.get(atom) {
                let mut rank = *rank;
                rank.activity /= 1 << 40;
                self.ranks.set(atom, rank);
            }
        }
        self.gain /= 1 << 40;
    }

    // Takes the first atom out of the heap.
    fn take_first(&mut self) -> Option<usize> {
        let first = *self.heap.get(0)?;
        let last = self.heap.pop()?;
        if !self.heap.is_empty() {
            self.settle(last, 0);
            self.sink();
        }
        if let Some(rank) = self.ranks.get(first) {
            let mut rank = *rank;
            rank.place = None;
            self.ranks.set(first, rank);
        }
        Some(first)
    }

    // Moves what stands at this place up to where it belongs.
    fn rise(&mut self, place: usize) {
        let mut place = place;
        for _step in 0..64 {
            if place == 0 {
                return;
            }
            let above = (place - 1) / 2;
            if !self.is_before(place, above) {
                return;
            }
            self.swap(place, above);
            place = above;
        }
    }

    // Moves what stands first down to where it belongs.
    fn sink(&mut self) {
        let mut place = 0;
        for _step in 0..64 {
            let below = self.first_below(place);
            if !self.is_before(below, place) {
                return;
            }
            self.swap(place, below);
            place = below;
        }
    }

    // Of the two places below this one, that of the more active atom.
    fn first_below(&self, place: usize) -> usize {
        let left = place.saturating_mul(2).saturating_add(1);
        let right = left.saturating_add(1);
        if self.is_before(right, left) {
            right
        } else {
            left
        }
    }

    // Whether the atom at one place is more active than that at another.
    fn is_before(&self, one: usize, other: usize) -> bool {
        match (self.activity_at(one), self.activity_at(other)) {
            (Some(more), Some(less)) => less < more,
            _ => false,
        }
    }

    // How active the atom at this place is.
    fn activity_at(&self, place: usize) -> Option<u64> {
        let atom = *self.heap.get(place)?;
        let rank = self.ranks.get(atom)?;
        Some(rank.activity)
    }

    // Lets the atoms at two places change these.
    fn swap(&mut self, one: usize, other: usize) {
        let Some(first) = self.heap.get(one) else {
            return;
        };
        let first = *first;
        let Some(second) = self.heap.get(other) else {
            return;
        };
        let second = *second;
        self.settle(first, other);
        self.settle(second, one);
    }

    // Puts the atom at this place.
    fn settle(&mut self, atom: usize, place: usize) {
        if place < self.heap.len() {
            self.heap.set(place, atom);
        }
        if let Some(rank) = self.ranks.get(atom) {
            let mut rank = *rank;
            rank.place = Some(place);
            self.ranks.set(atom, rank);
        }
    }
}
