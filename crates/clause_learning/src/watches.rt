//! Which clauses are looked at when a literal becomes false: each is found by two of its literals. What a search answers
//! rests on none of this, as every clause that is found here is examined.
use crate::clauses::Clauses;
use crate::literal::Literal;
use crate::standings::Standings;
use crate::trail::Trail;
use sqlite_items::Items as List;
use std::alloc::{AllocError, Global};

/// One of the two watches of a clause.
#[derive(Clone, Copy, Drop)]
pub struct Link {
    pub clause: usize,
    pub is_second: bool,
}

/// A literal that is watched, and the watch behind this one in its list.
#[derive(Clone, Copy, Drop)]
pub struct Watch {
    pub literal: Literal,
    pub next: Option<Link>,
}

/// The two watches of a clause.
#[derive(Clone, Copy, Drop)]
pub struct Pair {
    pub first: Watch,
    pub second: Watch,
}

/// The first watches of the two literals of an atom.
#[derive(Clone, Copy, Drop)]
pub struct Heads {
    pub positive: Option<Link>,
    pub negative: Option<Link>,
}

/// The watches by literal and by clause, how the clauses stand, and how many literals of the trail were looked at.
#[derive(Drop)]
pub struct Watches {
    pub heads: List<Heads>,
    pub pairs: List<Pair>,
    pub standings: Standings,
    pub seen: usize,
}

impl Watches {
    /// No watch, for that many atoms.
    pub fn new(alloc: Global, atoms: usize) -> Result<Watches, AllocError> {
        let mut heads = List::new(alloc);
        for _at in 0..atoms {
            heads.push(Heads {
                positive: None,
                negative: None,
            })?;
        }
        Ok(Watches {
            heads,
            pairs: List::new(alloc),
            standings: Standings::new(alloc),
            seen: 0,
        })
    }

    /// Whether no clause is watched.
    pub fn is_empty(&self) -> bool {
        self.pairs.is_empty()
    }

    /// The next literal of the trail that was not looked at.
    pub fn next(&mut self, trail: &Trail) -> Option<Literal> {
        let step = trail.steps.get(self.seen)?;
        self.seen = self.seen.saturating_add(1);
        Some(step.literal)
    }

    /// Looks again at what comes behind that many steps.
    pub fn shorten(&mut self, steps: usize) {
        if steps < self.seen {
            self.seen = steps;
        }
    }

    /// Watches the next of the clauses that are given.
    pub fn give(&mut self, lits: &[Literal], trail: &Trail) -> Result<(), AllocError> {
        self.standings.give()?;
        self.add(lits, trail)
    }

    /// Watches the next clause, which is learned from a conflict in which the clauses of these numbers took part.
    pub fn learn(
        &mut self,
        lits: &[Literal],
        from: &[u64],
        trail: &Trail,
    ) -> Result<(), AllocError> {
        self.standings.learn(lits.len(), from)?;
        self.add(lits, trail)
    }

    // Watches the next clause, by its first literal and by that of the others that became false last.
    fn add(&mut self, lits: &[Literal], trail: &Trail) -> Result<(), AllocError> {
        let clause = self.pairs.len();
        let nothing = Literal {
            atom: usize::MAX,
            positive: true,
        };
        let first = lits.first().copied().unwrap_or(nothing);
        let second = latest(lits, trail).unwrap_or(nothing);
        self.pairs.push(Pair {
            first: Watch {
                literal: first,
                next: None,
            },
            second: Watch {
                literal: second,
                next: None,
            },
        })?;
        self.file(
            Link {
                clause,
                is_second: false,
            },
            first,
        );
        self.file(
            Link {
                clause,
                is_second: true,
            },
            second,
        );
        Ok(())
    }

    /// Takes the watches of the literal away, and answers the first of their list.
    pub fn take(&mut self, literal: Literal) -> Option<Link> {
        let heads = *self.heads.get(literal.atom)?;
        self.set_head(literal, heads, None);
        if literal.positive {
            heads.positive
        } else {
            heads.negative
        }
    }

    /// The watch behind this one in its list.
    pub fn after(&self, link: Link) -> Option<Link> {
        let pair = self.pairs.get(link.clause)?;
        if link.is_second {
            pair.second.next
        } else {
            pair.first.next
        }
    }

    /// Moves the watch to a literal of its clause that is not false and not the other watched one, which is not true.
    /// Where there is none, it goes back to its own, and the answer is that the clause is to be examined. That of a
    /// clause that is dropped is gone.
    pub fn must_examine(&mut self, clauses: &Clauses, trail: &Trail, link: Link) -> bool {
        if self.standings.is_dropped(link.clause) {
            return false;
        }
        let Some(pair) = self.pairs.get(link.clause) else {
            return false;
        };
        let (own, other) = if link.is_second {
            (pair.second.literal, pair.first.literal)
        } else {
            (pair.first.literal, pair.second.literal)
        };
        if is_true(other, trail) {
            self.file(link, own);
            return false;
        }
        match clauses.get(link.clause) {
            Some(lits) => match free_literal(lits.as_slice(), trail, other) {
                Some(literal) => {
                    self.file(link, literal);
                    false
                }
                None => {
                    self.file(link, own);
                    true
                }
            },
            None => false,
        }
    }

    // Puts the watch before the others of the literal.
    fn file(&mut self, link: Link, literal: Literal) {
        let Some(heads) = self.heads.get(literal.atom) else {
            return;
        };
        let heads = *heads;
        let next = if literal.positive {
            heads.positive
        } else {
            heads.negative
        };
        self.set_watch(link, Watch { literal, next });
        self.set_head(literal, heads, Some(link));
    }

    // Changes one of the two watches of a clause.
    fn set_watch(&mut self, link: Link, watch: Watch) {
        if link.clause < self.pairs.len() {
            if let Some(pair) = self.pairs.get(link.clause) {
                let mut pair = *pair;
                if link.is_second {
                    pair.second = watch;
                } else {
                    pair.first = watch;
                }
                self.pairs.set(link.clause, pair);
            }
        }
    }

    // Changes the first watch of a literal, whose atom has these.
    fn set_head(&mut self, literal: Literal, heads: Heads, head: Option<Link>) {
        if literal.atom < self.heads.len() {
            let mut heads = heads;
            if literal.positive {
                heads.positive = head;
            } else {
                heads.negative = head;
            }
            self.heads.set(literal.atom, heads);
        }
    }
}

// The literal behind the first that became false last, or that has no value.
fn latest(lits: &[Literal], trail: &Trail) -> Option<Literal> {
    let mut best = None;
    let mut place = 0;
    for literal in lits.iter().skip(1) {
        let here = match trail.value(literal.atom) {
            Some(value) => value.place,
            None => usize::MAX,
        };
        if best.is_none() || place < here {
            best = Some(*literal);
            place = here;
        }
    }
    best
}

// Whether the literal is true.
fn is_true(literal: Literal, trail: &Trail) -> bool {
    match trail.value(literal.atom) {
        Some(value) => value.positive == literal.positive,
        None => false,
    }
}

// A literal that is not false, of another atom than this one has.
fn free_literal(lits: &[Literal], trail: &Trail, other: Literal) -> Option<Literal> {
    for literal in lits {
        let is_false = match trail.value(literal.atom) {
            Some(value) => value.positive != literal.positive,
            None => false,
        };
        if !is_false && literal.atom != other.atom {
            return Some(*literal);
        }
    }
    None
}
