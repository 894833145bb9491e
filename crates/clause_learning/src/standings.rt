//! Which learned clauses are still looked at. What a search answers rests on none of this: a clause that is dropped stays
//! in the log, and whatever was made from it.
use sqlite_items::Items as List;
use std::alloc::{AllocError, Global};

/// A clause that always stays; or one that is new, took part in a conflict of late, or in none, each of which is the next
/// with the next sweep, and the last is dropped.
#[derive(Clone, Copy, Drop)]
pub enum Standing {
    Lasting,
    New,
    Used,
    Unused,
    Dropped,
}

/// How each clause stands; how many conflicts there were since the last sweep, and with how many the next one comes.
#[derive(Drop)]
pub struct Standings {
    pub each: List<Standing>,
    pub conflicts: usize,
    pub interval: usize,
}

// With how many conflicts the first sweep comes, and with how many more each further one.
const SHORTEST: usize = 300;

const LONGER: usize = 50;

// So many literals are so few that a clause always stays.
const SHORT: usize = 2;

impl Standings {
    /// Of no clause.
    pub fn new(alloc: Global) -> Standings {
        Standings {
            each: List::new(alloc),
            conflicts: 0,
            interval: SHORTEST,
        }
    }

    /// Whether it is of no clause.
    pub fn is_empty(&self) -> bool {
        self.each.is_empty()
    }

    /// Whether the clause of this number is not looked at any more.
    pub fn is_dropped(&self, number: usize) -> bool {
        matches!(self.each.get(number), Some(Standing::Dropped))
    }

    /// A clause that is given.
    pub fn give(&mut self) -> Result<(), AllocError> {
        self.each.push(Standing::Lasting)
    }

    /// A clause of so many literals that is learned from a conflict in which the clauses of these numbers took part.
    pub fn learn(&mut self, many: usize, from: &[u64]) -> Result<(), AllocError> {
        self.each.push(if many <= SHORT {
            Standing::Lasting
        } else {
            Standing::New
        })?;
        for number in from {
            self.note_use(*number as usize);
        }
        self.conflicts = self.conflicts.saturating_add(1);
        if self.conflicts >= self.interval {
            self.conflicts = 0;
            self.interval = self.interval.saturating_add(LONGER);
            self.sweep();
        }
        Ok(())
    }

    // Notes that the clause of this number took part in a conflict.
    fn note_use(&mut self, number: usize) {
        if let Some(Standing::Unused) = self.each.get(number) {
            self.each.set(number, Standing::Used);
        }
    }

    // Lets each clause come closer to be dropped.
    fn sweep(&mut self) {
        let many = self.each.len();
        for number in 0..many {
            if let Some(standing) = self.each.get(number) {
                let next = lowered(*standing);
                self.each.set(number, next);
            }
        }
    }
}

// What stands so, after a sweep.
fn lowered(standing: Standing) -> Standing {
    match standing {
        Standing::Lasting => Standing::Lasting,
        Standing::New => Standing::Used,
        Standing::Used => Standing::Unused,
        Standing::Unused => Standing::Dropped,
        Standing::Dropped => Standing::Dropped,
    }
}
