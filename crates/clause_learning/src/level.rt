//! The steps from the last one on that was taken freely, and how many of them an analysis has marked. What is learned
//! rests on none of this.
use crate::marks::Marks;
use crate::trail::Trail;

/// Where these steps begin, if one was taken freely, and how many of their atoms are marked.
#[derive(Clone, Copy, Drop)]
pub struct Level {
    pub start: Option<usize>,
    pub open: usize,
}

impl Level {
    /// Where nothing is marked.
    pub fn new(trail: &Trail) -> Level {
        Level {
            start: last_free(trail),
            open: 0,
        }
    }

    /// Counts the atom, which is to be marked.
    pub fn meet(&mut self, marks: &Marks, trail: &Trail, atom: usize) {
        if marks.has(atom) {
            return;
        }
        if let (Some(start), Some(value)) = (self.start, trail.value(atom)) {
            if start <= value.place {
                self.open = self.open.saturating_add(1);
            }
        }
    }

    /// Counts a marked atom off. Whether it was the last one.
    pub fn leave(&mut self) -> bool {
        self.open = self.open.saturating_sub(1);
        self.start.is_some() && self.open == 0
    }
}

// The place of the last step that was taken freely.
fn last_free(trail: &Trail) -> Option<usize> {
    let steps = trail.steps.as_slice();
    for (back, step) in steps.iter().rev().enumerate() {
        if step.reason.is_none() {
            return Some(steps.len().saturating_sub(back).saturating_sub(1));
        }
    }
    None
}
